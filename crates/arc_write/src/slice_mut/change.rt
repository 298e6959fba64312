//! From a window that is written to one that is read, or over another kind.
ghost use Rattle.std.specs.Prelude.{◌+◌, ◌≡◌, drop, Err, IfErr, IfOk};
ghost use Rattle.std.specs.Str.{error_len, IsUtf8, valid_up_to};
ghost use Rattle.std.specs.Str.Lossy.{utf8_error_len, utf8_valid_len};
ghost use Rattle.arc_block.specs.LayoutFacts.{layout_facts};
ghost use Rattle.arc_block.specs.Moves.{IsRefused, layout_move};
ghost use Rattle.arc_block.specs.Place.{IsOnBlock};
ghost use Rattle.arc_parts.specs.Moves.{Moves};
ghost use Rattle.arc_parts.specs.Steps.{Begins, IsPassAt, Makes};
ghost use Rattle.arc_parts.specs.Window.{parts_of};
ghost use Rattle.arc_parts.specs.Writers.{as_reader, Freezes};
ghost use Rattle.arc_read.specs.Steps.{WithNewPass};
ghost use Rattle.arc_write.specs.Moves.{writer_move};

use crate::slice_mut::{ArcSliceMut, WriteWindow};
use arc_block::layout::{Layout, LayoutMut};
use arc_buffer::buffer::BufferMut;
use arc_buffer::kinds::{ByteText, Plain, Slice, Text};
use arc_owners::mark::{Mark, Stepping};
use arc_owners::owners::Pass;
use arc_read::slice::ArcSlice;
use arc_writer_parts::role::{RoleOf, WriterParts};
use std::alloc::Allocator;
use std::convert::Infallible;
use std::str::Utf8Error;

impl<
    S: Slice,
    L: LayoutMut,
    R: RoleOf<S, B, M, A, H>,
    B: BufferMut<S::Item> + Drop,
    M: Drop,
    A: Allocator + Copy,
    H: Mark,
> WriteWindow<S, L, R, B, M, A, H> {
    /// The same items at the same place, as a window under the layout `K` that is read. A window on
    /// nothing becomes the window that `K` has of no items: on nothing, or on a new native block of
    /// no places. The pass then becomes that block's. It adds no entry.
    ///
    /// # Errors
    ///
    /// The window comes back where the layout doesn't hold its block, and where memory for a block
    /// of no places is refused; the pass is then as before.
    ///
    /// # Allocates
    ///
    /// On nothing, where the layout has no static data: once, for a block of no places.
    pub fn try_freeze_as<K: Layout>(
        self,
        pass: &mut Pass<H>,
    ) -> Result<ArcSlice<S, K, B, M, A, H>, Self>
        requires pass { IsPassAt self.place pass.old }
        ensures frozen { IfOk result (λ window.
            Freezes (layout_facts K.Layout) S.DROPS H.whole self (parts_of window)
            pass.old pass.new) }
        ensures stays { IfOk result (λ window. IsOnBlock self.place
            → (parts_of window ≡ as_reader self) × (pass.new ≡ pass.old)) }
        ensures made { IfOk result (λ window. (¬ IsOnBlock self.place)
            → Makes K.STATIC S.DROPS H.whole self.items window
            × Begins window pass.old pass.new) }
        ensures items { IfOk result (λ window. window.items ≡ self.items) }
        ensures refused { IfErr result (λ back. (back ≡ self)
            × IsRefused (layout_move (layout_facts K.Layout) self.place) × (pass.new ≡ pass.old)) }
    {
        match self.into_parts().try_freeze_as::<K>(pass) {
            Ok(parts) => Ok(ArcSlice::from_parts(parts)),
            Err(parts) => Err(Self::from_parts(parts)),
        }
    }

    /// The same items at the same place, as a window under the layout `K` that is read:
    /// `try_freeze_as` with a new pass.
    ///
    /// # Errors
    ///
    /// The window comes back where the layout doesn't hold its block, and where memory for a block
    /// of no places is refused.
    ///
    /// # Allocates
    ///
    /// On nothing, where the layout has no static data: once, for a block of no places.
    pub fn try_freeze<K: Layout>(self) -> Result<ArcSlice<S, K, B, M, A, H>, Self>
    where
        H: Stepping,
        ensures frozen { IfOk result (λ window. WithNewPass {H = H} H.real self.place (λ first last.
            Freezes (layout_facts K.Layout) S.DROPS H.whole self (parts_of window) first last)) }
        ensures items { IfOk result (λ window. window.items ≡ self.items) }
        ensures refused { IfErr result (λ back. (back ≡ self)
            × IsRefused (layout_move (layout_facts K.Layout) self.place)
            × WithNewPass {H = H} H.real self.place (λ first last. last ≡ first)) }
    {
        let parts = self.into_parts();
        let mut pass = parts.pass();
        let frozen = parts.try_freeze_as::<K>(&mut pass);
        pass.show();
        match frozen {
            Ok(parts) => Ok(ArcSlice::from_parts(parts)),
            Err(parts) => Err(Self::from_parts(parts)),
        }
    }

    /// The same window, under the layout `K`. It stays where it stands: on nothing, or on a block
    /// that the layout holds. It adds no entry and takes no memory.
    ///
    /// # Errors
    ///
    /// The window comes back exactly where it stands on a block that the layout doesn't hold; the
    /// pass is then as before.
    #[tactic(auto, using(crate::proofs::Moves::held_moves, crate::proofs::Moves::back_refused))]
    pub fn try_with_layout_as<K: LayoutMut>(
        self,
        pass: &mut Pass<H>,
    ) -> Result<WriteWindow<S, K, R, B, M, A, H>, Self>
        requires pass { IsPassAt self.place pass.old }
        ensures moved { IfOk result (λ window.
            Moves (writer_move (layout_facts K.Layout) self.place) S.DROPS H.whole self window
            pass.old pass.new) }
        ensures items { IfOk result (λ window. window.items ≡ self.items) }
        ensures pass { IfOk result (λ window. IsPassAt window.place pass.new) }
        ensures refused { IfErr result (λ back. (back ≡ self)
            × IsRefused (writer_move (layout_facts K.Layout) self.place)
            × (pass.new ≡ pass.old)) }
    {
        let _ = pass;
        match self.into_parts().try_with_layout::<K>() {
            Ok(parts) => Ok(WriteWindow::from_parts(parts)),
            Err(parts) => Err(Self::from_parts(parts)),
        }
    }

    /// The same window, at the same place, under the layout `K`: `try_with_layout_as` with a new
    /// pass.
    ///
    /// # Errors
    ///
    /// The window comes back exactly where it stands on a block that the layout doesn't hold.
    pub fn try_with_layout<K: LayoutMut>(self) -> Result<WriteWindow<S, K, R, B, M, A, H>, Self>
    where
        H: Stepping,
        ensures moved { IfOk result (λ window.
            WithNewPass {H = H} H.real self.place (λ first last.
            Moves (writer_move (layout_facts K.Layout) self.place) S.DROPS H.whole self window
            first last)) }
        ensures items { IfOk result (λ window. window.items ≡ self.items) }
        ensures refused { IfErr result (λ back. (back ≡ self)
            × IsRefused (writer_move (layout_facts K.Layout) self.place)
            × WithNewPass {H = H} H.real self.place (λ first last. last ≡ first)) }
    {
        let mut pass = self.pass();
        let moved = self.try_with_layout_as(&mut pass);
        pass.show();
        moved
    }
}

impl<L: LayoutMut, B: BufferMut<u8> + Drop, M: Drop, A: Allocator + Copy, H: Mark> ArcSliceMut<
    Text,
    L,
    1,
    B,
    M,
    A,
    H,
> {
    /// The same window, over bytes. It adds no entry.
    pub fn into_arc_slice_mut(self) -> ArcSliceMut<Plain<u8>, L, 1, B, M, A, H>
        ensures { result ≡ self }
    {
        ArcSliceMut::from_parts(self.into_parts().into_kind())
    }

    /// The same window, over text. It adds no entry.
    ///
    /// # Errors
    ///
    /// The error and the window over bytes come back, exactly where the bytes aren't valid UTF-8.
    pub fn try_from_arc_slice_mut(
        bytes: ArcSliceMut<Plain<u8>, L, 1, B, M, A, H>,
    ) -> Result<Self, (Utf8Error, ArcSliceMut<Plain<u8>, L, 1, B, M, A, H>)>
        ensures ok { IfOk result (λ text. (text ≡ bytes) × IsUtf8 bytes.items) }
        ensures back { IfErr result (λ r. (r.1 ≡ bytes) × ¬ (IsUtf8 bytes.items)) }
        ensures error { IfErr result (λ r. (valid_up_to r.0 ≡ utf8_valid_len bytes.items)
            × (error_len r.0 ≡ utf8_error_len (drop (valid_up_to r.0) bytes.items))) }
    {
        let parts = bytes.into_parts();
        match Text::try_from_slice(parts.as_slice()) {
            Ok(()) => Ok(Self::from_parts(parts.into_kind())),
            Err(error) => Err((error, ArcSliceMut::from_parts(parts))),
        }
    }
}

impl<L: LayoutMut, B: BufferMut<u8> + Drop, M: Drop, A: Allocator + Copy, H: Mark> ArcSliceMut<
    Text,
    L,
    0,
    B,
    M,
    A,
    H,
> {
    /// The same window, over bytes. It adds no entry.
    pub fn into_arc_slice_mut(self) -> ArcSliceMut<Plain<u8>, L, 0, B, M, A, H>
        ensures { result ≡ self }
    {
        ArcSliceMut::from_parts(self.into_parts().into_kind())
    }

    /// The same window, over text. It adds no entry.
    ///
    /// # Errors
    ///
    /// The error and the window over bytes come back, exactly where the bytes aren't valid UTF-8.
    pub fn try_from_arc_slice_mut(
        bytes: ArcSliceMut<Plain<u8>, L, 0, B, M, A, H>,
    ) -> Result<Self, (Utf8Error, ArcSliceMut<Plain<u8>, L, 0, B, M, A, H>)>
        ensures ok { IfOk result (λ text. (text ≡ bytes) × IsUtf8 bytes.items) }
        ensures back { IfErr result (λ r. (r.1 ≡ bytes) × ¬ (IsUtf8 bytes.items)) }
        ensures error { IfErr result (λ r. (valid_up_to r.0 ≡ utf8_valid_len bytes.items)
            × (error_len r.0 ≡ utf8_error_len (drop (valid_up_to r.0) bytes.items))) }
    {
        let parts = bytes.into_parts();
        match Text::try_from_slice(parts.as_slice()) {
            Ok(()) => Ok(Self::from_parts(parts.into_kind())),
            Err(error) => Err((error, ArcSliceMut::from_parts(parts))),
        }
    }
}

impl<L: LayoutMut, B: BufferMut<u8> + Drop, M: Drop, A: Allocator + Copy, H: Mark> ArcSliceMut<
    ByteText,
    L,
    1,
    B,
    M,
    A,
    H,
> {
    /// The same window, over bytes. It adds no entry.
    pub fn into_arc_slice_mut(self) -> ArcSliceMut<Plain<u8>, L, 1, B, M, A, H>
        ensures { result ≡ self }
    {
        ArcSliceMut::from_parts(self.into_parts().into_kind())
    }

    /// The same window, over byte text. It adds no entry. Never refused.
    pub fn try_from_arc_slice_mut(
        bytes: ArcSliceMut<Plain<u8>, L, 1, B, M, A, H>,
    ) -> Result<Self, (Infallible, ArcSliceMut<Plain<u8>, L, 1, B, M, A, H>)>
        ensures { IfOk result (λ text. text ≡ bytes) }
    {
        Ok(Self::from_parts(bytes.into_parts().into_kind()))
    }
}

impl<L: LayoutMut, B: BufferMut<u8> + Drop, M: Drop, A: Allocator + Copy, H: Mark> ArcSliceMut<
    ByteText,
    L,
    0,
    B,
    M,
    A,
    H,
> {
    /// The same window, over bytes. It adds no entry.
    pub fn into_arc_slice_mut(self) -> ArcSliceMut<Plain<u8>, L, 0, B, M, A, H>
        ensures { result ≡ self }
    {
        ArcSliceMut::from_parts(self.into_parts().into_kind())
    }

    /// The same window, over byte text. It adds no entry. Never refused.
    pub fn try_from_arc_slice_mut(
        bytes: ArcSliceMut<Plain<u8>, L, 0, B, M, A, H>,
    ) -> Result<Self, (Infallible, ArcSliceMut<Plain<u8>, L, 0, B, M, A, H>)>
        ensures { IfOk result (λ text. text ≡ bytes) }
    {
        Ok(Self::from_parts(bytes.into_parts().into_kind()))
    }
}
