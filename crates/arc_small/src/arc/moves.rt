//! Small windows that become those of another layout.
ghost use Rattle.std.specs.Prelude.{◌≡◌, IfOk, IfErr};
ghost use Rattle.arc_block.specs.LayoutFacts.{layout_facts};
ghost use Rattle.arc_block.specs.Moves.{IsRefused};
ghost use Rattle.arc_parts.specs.Moves.{Moves};
ghost use Rattle.arc_parts.specs.Steps.{IsPassAt};
ghost use Rattle.arc_read.specs.Steps.{WithNewPass};
ghost use Rattle.arc_small.specs.Small.{small_move};

use super::SmallArcSlice;
use arc_block::layout::Layout;
use arc_buffer::buffer::Buffer;
use arc_buffer::kinds::Slice;
use arc_owners::mark::{Mark, Stepping};
use arc_owners::owners::Pass;
use either::{Left, Right};
use std::alloc::Allocator;

impl<
    S: Slice<Item = u8>,
    L: Layout,
    B: Buffer<u8> + Drop,
    M: Drop,
    A: Allocator + Copy,
    H: Mark,
> SmallArcSlice<S, L, B, M, A, H> {
    /// The same bytes, as a small window under the layout `K`. A short list stays in the window
    /// itself. A window that is read goes where `ArcSlice::try_with_layout_as` says.
    ///
    /// # Errors
    ///
    /// A window that is read comes back where `ArcSlice::try_with_layout_as` is refused; the pass
    /// is then as before. A short list is never refused.
    ///
    /// # Allocates
    ///
    /// Once for a new block, where `ArcSlice::try_with_layout_as` makes one.
    ///
    /// # History
    ///
    /// Down where a window that is read leaves a block that counts an `Arc`; else nothing.
    pub fn try_with_layout_as<K: Layout>(
        self,
        pass: &mut Pass<H>,
    ) -> Result<SmallArcSlice<S, K, B, M, A, H>, Self>
        requires pass { IsPassAt self.place pass.old }
        ensures moved { IfOk result (λ window.
            Moves (small_move (layout_facts K.Layout) self.role self.place)
            S.DROPS H.whole self window pass.old pass.new) }
        ensures items { IfOk result (λ window. window.items ≡ self.items) }
        ensures refused { IfErr result (λ back. (back ≡ self)
            × IsRefused (small_move (layout_facts K.Layout) self.role self.place)
            × (pass.new ≡ pass.old)) }
    {
        match self.into_either() {
            Left(small) => Ok(SmallArcSlice::from(small.with_layout::<K>())),
            Right(window) => match window.try_with_layout_as::<K>(pass) {
                Ok(moved) => Ok(SmallArcSlice::from(moved)),
                Err(back) => Err(Self::from(back)),
            },
        }
    }

    /// The same bytes, as a small window under the layout `K`: `try_with_layout_as` with a new
    /// pass.
    ///
    /// # Errors
    ///
    /// A window that is read comes back where `ArcSlice::try_with_layout` is refused. A short list
    /// is never refused.
    ///
    /// # Allocates
    ///
    /// Once for a new block, where `ArcSlice::try_with_layout_as` makes one.
    ///
    /// # History
    ///
    /// Down where a window that is read leaves a block that counts an `Arc`; else nothing.
    pub fn try_with_layout<K: Layout>(self) -> Result<SmallArcSlice<S, K, B, M, A, H>, Self>
    where
        H: Stepping,
        ensures moved { IfOk result (λ window. WithNewPass {H = H} H.real self.place (λ first last.
            Moves (small_move (layout_facts K.Layout) self.role self.place)
            S.DROPS H.whole self window first last)) }
        ensures items { IfOk result (λ window. window.items ≡ self.items) }
        ensures refused { IfErr result (λ back. (back ≡ self)
            × IsRefused (small_move (layout_facts K.Layout) self.role self.place)
            × WithNewPass {H = H} H.real self.place (λ first last. last ≡ first)) }
    {
        match self.into_either() {
            Left(small) => {
                Pass::<H>::none().show();
                Ok(SmallArcSlice::from(small.with_layout::<K>()))
            }
            Right(window) => match window.try_with_layout::<K>() {
                Ok(moved) => Ok(SmallArcSlice::from(moved)),
                Err(back) => Err(Self::from(back)),
            },
        }
    }
}
