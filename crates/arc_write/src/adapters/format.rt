//! `fmt::Write` of write windows over text, byte text and bytes: each text whole, or nothing.
ghost use Rattle.std.specs.Prelude.{◌≡◌, ◌++◌, false, length, is_ok, IsOk, OnOk, OnErr, Err};
ghost use Rattle.std.specs.Prelude.{Result};
ghost use Rattle.arc_owners.specs.declared.error.TryReserveError.{TryReserveError};
ghost use Rattle.arc_sort_writers.specs.Growth.{AsksForRoom, IfAsked};
ghost use Rattle.arc_parts.specs.Writers.{room_for};
ghost use Rattle.arc_block.specs.Place.{size_at};
ghost use Rattle.arc_block.specs.Table.{bare};
ghost use Rattle.arc_writer_parts.specs.Roles.{AsksRoom, PushesItems};
ghost use Rattle.arc_read.specs.Steps.{WithNewPass};

use crate::slice_mut::WriteWindow;
use arc_block::layout::LayoutMut;
use arc_buffer::buffer::BufferMut;
use arc_buffer::kinds::{ByteText, Plain, Text};
use arc_owners::mark::Stepping;
use arc_writer_parts::role::{CopyWriterParts, RoleOf};
use std::alloc::Allocator;
use std::fmt;

impl<
    L: LayoutMut,
    R: RoleOf<Text, B, M, A, H>,
    B: BufferMut<u8> + Drop,
    M: Drop,
    A: Allocator + Copy,
    H: Stepping,
> fmt::Write for WriteWindow<Text, L, R, B, M, A, H>
where
    R::Parts: CopyWriterParts<Text, B, M, A, H>,
{
    ghost write_str_gives = { λ w text v. v.items ≡ w.items ++ text };

    /// Appends the text, all of it or nothing: `try_extend_from_str`.
    ///
    /// # Errors
    ///
    /// `fmt::Error` where `try_reserve` refuses room for as many bytes. The window is unchanged.
    ///
    /// # Allocates
    ///
    /// Where the window has too few places: as `try_reserve` does for as many bytes.
    ///
    /// # History
    ///
    /// Of a sole writer: nothing. Of one of several, on a block, where it has too few places: Alone
    /// with the answer.
    fn write_str(&mut self, text: &str) -> fmt::Result
        ensures ok { IsOk result → self.new.items ≡ self.old.items ++ text.now }
        ensures extended { OnOk result (WithNewPass {H = H} H.real self.old.place (λ first last.
            PushesItems R.Parts.several false H.whole 1 (length text.now) text.now
            self.old self.new first last)) }
        ensures refused { OnErr result ((e : TryReserveError)
            × WithNewPass {H = H} H.real self.old.place (λ first last.
            AsksRoom R.Parts.several false H.whole 1 (length text.now)
            self.old self.new first last (Err e))) }
        ensures own { IfAsked (room_for false 1 self.old (length text.now)) (λ additional.
            (reply : Result (Unit {0}) TryReserveError) × (is_ok reply ≡ is_ok result)
            × AsksForRoom B.list B.places B.grows B.refuses self.old additional
            (size_at self.new.place) reply) }
        ensures same { OnErr result (bare self.new ≡ bare self.old) }
    {
        match self.try_extend_from_str(text) {
            Ok(()) => Ok(()),
            Err(_) => Err(fmt::Error),
        }
    }
}

impl<
    L: LayoutMut,
    R: RoleOf<ByteText, B, M, A, H>,
    B: BufferMut<u8> + Drop,
    M: Drop,
    A: Allocator + Copy,
    H: Stepping,
> fmt::Write for WriteWindow<ByteText, L, R, B, M, A, H>
where
    R::Parts: CopyWriterParts<ByteText, B, M, A, H>,
{
    ghost write_str_gives = { λ w text v. v.items ≡ w.items ++ text };

    /// Appends the text, all of it or nothing: `try_extend_from_slice`.
    ///
    /// # Errors
    ///
    /// `fmt::Error` where `try_reserve` refuses room for as many bytes. The window is unchanged.
    ///
    /// # Allocates
    ///
    /// Where the window has too few places: as `try_reserve` does for as many bytes.
    ///
    /// # History
    ///
    /// Of a sole writer: nothing. Of one of several, on a block, where it has too few places: Alone
    /// with the answer.
    fn write_str(&mut self, text: &str) -> fmt::Result
        ensures ok { IsOk result → self.new.items ≡ self.old.items ++ text.now }
        ensures extended { OnOk result (WithNewPass {H = H} H.real self.old.place (λ first last.
            PushesItems R.Parts.several false H.whole 1 (length text.now) text.now
            self.old self.new first last)) }
        ensures refused { OnErr result ((e : TryReserveError)
            × WithNewPass {H = H} H.real self.old.place (λ first last.
            AsksRoom R.Parts.several false H.whole 1 (length text.now)
            self.old self.new first last (Err e))) }
        ensures own { IfAsked (room_for false 1 self.old (length text.now)) (λ additional.
            (reply : Result (Unit {0}) TryReserveError) × (is_ok reply ≡ is_ok result)
            × AsksForRoom B.list B.places B.grows B.refuses self.old additional
            (size_at self.new.place) reply) }
        ensures same { OnErr result (bare self.new ≡ bare self.old) }
    {
        match self.try_extend_from_slice(text.as_bytes()) {
            Ok(()) => Ok(()),
            Err(_) => Err(fmt::Error),
        }
    }
}

impl<
    L: LayoutMut,
    R: RoleOf<Plain<u8>, B, M, A, H>,
    B: BufferMut<u8> + Drop,
    M: Drop,
    A: Allocator + Copy,
    H: Stepping,
> fmt::Write for WriteWindow<Plain<u8>, L, R, B, M, A, H>
where
    R::Parts: CopyWriterParts<Plain<u8>, B, M, A, H>,
{
    ghost write_str_gives = { λ w text v. v.items ≡ w.items ++ text };

    /// Appends the text, all of it or nothing: `try_extend_from_slice`.
    ///
    /// # Errors
    ///
    /// `fmt::Error` where `try_reserve` refuses room for as many bytes. The window is unchanged.
    ///
    /// # Allocates
    ///
    /// Where the window has too few places: as `try_reserve` does for as many bytes.
    ///
    /// # History
    ///
    /// Of a sole writer: nothing. Of one of several, on a block, where it has too few places: Alone
    /// with the answer.
    fn write_str(&mut self, text: &str) -> fmt::Result
        ensures ok { IsOk result → self.new.items ≡ self.old.items ++ text.now }
        ensures extended { OnOk result (WithNewPass {H = H} H.real self.old.place (λ first last.
            PushesItems R.Parts.several false H.whole 1 (length text.now) text.now
            self.old self.new first last)) }
        ensures refused { OnErr result ((e : TryReserveError)
            × WithNewPass {H = H} H.real self.old.place (λ first last.
            AsksRoom R.Parts.several false H.whole 1 (length text.now)
            self.old self.new first last (Err e))) }
        ensures own { IfAsked (room_for false 1 self.old (length text.now)) (λ additional.
            (reply : Result (Unit {0}) TryReserveError) × (is_ok reply ≡ is_ok result)
            × AsksForRoom B.list B.places B.grows B.refuses self.old additional
            (size_at self.new.place) reply) }
        ensures same { OnErr result (bare self.new ≡ bare self.old) }
    {
        match self.try_extend_from_slice(text.as_bytes()) {
            Ok(()) => Ok(()),
            Err(_) => Err(fmt::Error),
        }
    }
}
