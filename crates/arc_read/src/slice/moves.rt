//! Read windows that become those of another layout.
ghost use Rattle.std.specs.Prelude.{◌≡◌, IfOk, IfErr};
ghost use Rattle.arc_block.specs.LayoutFacts.{layout_facts};
ghost use Rattle.arc_parts.specs.Moves.{Moves};
ghost use Rattle.arc_block.specs.Moves.{IsRefused, layout_move};
ghost use Rattle.arc_parts.specs.Steps.{IsPassAt};
ghost use Rattle.arc_parts.specs.Window.{parts_of};
ghost use Rattle.arc_read.specs.Steps.{WithNewPass};

use super::ArcSlice;
use arc_block::layout::Layout;
use arc_buffer::buffer::Buffer;
use arc_buffer::kinds::Slice;
use arc_owners::mark::{Mark, Stepping};
use arc_owners::owners::Pass;
use std::alloc::Allocator;

impl<
    S: Slice,
    L: Layout,
    B: Buffer<S::Item> + Drop,
    M: Drop,
    A: Allocator + Copy,
    H: Mark,
> ArcSlice<S, L, B, M, A, H> {
    /// The same items, as a window under the layout `K`. Where that holds what the window stands
    /// on, it stays there, and no entry is added. Else:
    ///
    /// - An empty window on nothing goes to a native block of no places, under a layout without
    ///   static data. The pass becomes that block's.
    /// - A window on an `Arc` that is a block by itself goes to a new block, which keeps the `Arc`
    ///   and counts its owners, where the layout counts them. The pass becomes that block's.
    /// - A window on a block that counts an `Arc` leaves it for a clone of the `Arc`, where the
    ///   layout has an `Arc` as a block by itself. The pass stays that of the block that was left.
    ///
    /// # Errors
    ///
    /// The window comes back in these cases, and the pass is then as before:
    ///
    /// - on a vector, a caller's buffer or an `Arc`, where `K` has native blocks alone;
    /// - on a static slice, where `K` has no static data;
    /// - where memory for a new block is refused, or the `Arc` refuses to be cloned.
    ///
    /// # Allocates
    ///
    /// Once, for a new block.
    ///
    /// # History
    ///
    /// Down where the window leaves a block that counts an `Arc`; else nothing.
    pub fn try_with_layout_as<K: Layout>(
        self,
        pass: &mut Pass<H>,
    ) -> Result<ArcSlice<S, K, B, M, A, H>, Self>
        requires pass { IsPassAt self.place pass.old }
        ensures moved { IfOk result (λ window.
            Moves (layout_move (layout_facts K.Layout) self.place)
            S.DROPS H.whole (parts_of self) (parts_of window) pass.old pass.new) }
        ensures items { IfOk result (λ window. window.items ≡ self.items) }
        ensures refused { IfErr result (λ back. (back ≡ self)
            × IsRefused (layout_move (layout_facts K.Layout) self.place)
            × (pass.new ≡ pass.old)) }
    {
        match self.into_parts().try_with_layout_as::<K>(pass) {
            Ok(parts) => Ok(ArcSlice::from_parts(parts)),
            Err(parts) => Err(Self::from_parts(parts)),
        }
    }

    /// The same items, as a window under the layout `K`: `try_with_layout_as` with a new pass.
    ///
    /// # Errors
    ///
    /// The window comes back in these cases:
    ///
    /// - on a vector, a caller's buffer or an `Arc`, where `K` has native blocks alone;
    /// - on a static slice, where `K` has no static data;
    /// - where memory for a new block is refused, or the `Arc` refuses to be cloned.
    ///
    /// # Allocates
    ///
    /// Once, for a new block.
    ///
    /// # History
    ///
    /// Down where the window leaves a block that counts an `Arc`; else nothing.
    pub fn try_with_layout<K: Layout>(self) -> Result<ArcSlice<S, K, B, M, A, H>, Self>
    where
        H: Stepping,
        ensures moved { IfOk result (λ window. WithNewPass {H = H} H.real self.place (λ first last.
            Moves (layout_move (layout_facts K.Layout) self.place)
            S.DROPS H.whole (parts_of self) (parts_of window) first last)) }
        ensures items { IfOk result (λ window. window.items ≡ self.items) }
        ensures refused { IfErr result (λ back. (back ≡ self)
            × IsRefused (layout_move (layout_facts K.Layout) self.place)
            × WithNewPass {H = H} H.real self.place (λ first last. last ≡ first)) }
    {
        let mut pass = self.pass();
        let moved = self.try_with_layout_as(&mut pass);
        pass.show();
        moved
    }
}
