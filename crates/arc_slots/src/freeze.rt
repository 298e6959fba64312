//! A window that is written becomes one that is read.
ghost use Rattle.std.specs.Prelude.{◌≡◌, ◌<◌, true, length, Some, IfOk, IfErr};
ghost use Rattle.std.specs.Vec.{vec_capacity};
ghost use Rattle.arc_block.specs.LayoutFacts.{layout_facts};
ghost use Rattle.arc_block.specs.Moves.{IsRefused, layout_move};
ghost use Rattle.arc_parts.specs.Steps.{IsPassAt};
ghost use Rattle.arc_parts.specs.Window.{parts_of};
ghost use Rattle.arc_parts.specs.Writers.{Freezes, IsWriterPlace};
ghost use Rattle.arc_commands.specs.Blocks.{is_writer};
ghost use Rattle.arc_slots.specs.Slots.{bare_held, bare_window, parts_in, role_in};
ghost use Rattle.arc_slots.specs.Slots.{row_of, stand_of, window_in};
ghost use Rattle.arc_slots.specs.Stands.{HasPassFor};
ghost use Rattle.arc_slots.specs.Writing.{FreezesBy, is_new};

use crate::passes::Passes;
use crate::slot::Slot;
use crate::window::{AnyWindow, Held};
use arc_block::layout::{Layout, LayoutMut};
use arc_buffer::buffer::BufferMut;
use arc_buffer::kinds::Slice;
use arc_kinds::kinds::{SmallOf, TableKind};
use arc_owners::mark::Whole;
use arc_owners::owners::Pass;
use arc_read::slice::ArcSlice;
use std::alloc::Allocator;

/// A window that is written, as one that is read: `try_freeze_as`.
#[tactic(auto, using(crate::proofs::Bare::frozen_windows))]
fn freeze_window<
    S: TableKind,
    L: Layout,
    B: BufferMut<S::Item> + Drop,
    M: Drop,
    A: Allocator + Copy,
>(
    window: AnyWindow<S, L, L::Writable, B, M, A>,
    pass: &mut Pass<Whole>,
) -> Result<ArcSlice<S, L, B, M, A, Whole>, AnyWindow<S, L, L::Writable, B, M, A>>
where
    L::Writable: LayoutMut,
    S::Small: SmallOf<S, L, M, A>,
    requires writes { is_writer (role_in (bare_held window)) ≡ true }
    requires pass { IsPassAt
        (window_in S.Small.seen (bare_held window)).place pass.old }
    ensures frozen { IfOk result (λ made. Freezes (layout_facts L.Layout) S.DROPS true
        (parts_in S.Small.seen (bare_held window)) (parts_of (bare_window made))
        pass.old pass.new) }
    ensures writer { IfOk result (λ _. IsWriterPlace
        (window_in S.Small.seen (bare_held window)).place) }
    ensures back { IfErr result (λ back. back ≡ window) }
    ensures refused { IfErr result (λ _. IsRefused (layout_move (layout_facts L.Layout)
        (window_in S.Small.seen (bare_held window)).place)) }
    ensures kept { IfErr result (λ _. pass.new ≡ pass.old) }
{
    match window {
        Held::Write(window) => {
            window.known_place();
            match window.try_freeze_as::<L>(pass) {
                Ok(made) => Ok(made),
                Err(window) => Err(Held::Write(window)),
            }
        }
        Held::Several(window) => {
            window.known_place();
            match window.try_freeze_as::<L>(pass) {
                Ok(made) => Ok(made),
                Err(window) => Err(Held::Several(window)),
            }
        }
        // This arm isn't reached: the window is written.
        other => Err(other),
    }
}

impl<S: TableKind, L: Layout, B: BufferMut<S::Item> + Drop, M: Drop, A: Allocator + Copy> Slot<
    S,
    L,
    B,
    M,
    A,
>
where
    L::Writable: LayoutMut,
    S::Small: SmallOf<S, L, M, A>,
{
    /// Whether a block has to be made for the window, which is written, to be read: it stands on
    /// none, and the layout has no static data.
    #[tactic(auto, using(crate::proofs::Freezing::new_is))]
    pub fn wants_block_to_read(&self) -> bool
        requires { is_writer self.now.role ≡ true }
        ensures { result ≡ is_new (layout_move (layout_facts L.Layout) (row_of self.now).place) }
    {
        match &self.window {
            Held::Write(window) => window.known_place(),
            Held::Several(window) => window.known_place(),
            Held::Read(_) | Held::Small(_) => unreachable!(),
        }
        self.block.is_none() && !L::STATIC
    }

    /// A window that is written, as one that is read. It stays where it stands, or goes to a block
    /// of no places.
    ///
    /// # Errors
    ///
    /// The window itself comes back on a block that the layout doesn't hold, and on no block, under
    /// a layout without static data, where memory for a block is refused.
    ///
    /// # Allocates
    ///
    /// Once for a window on no block, under a layout without static data.
    ///
    /// # History
    ///
    /// None. Where a block is made its history begins.
    pub fn try_freeze(self, passes: &mut Passes<A>) -> Result<Self, Self>
        requires writes { is_writer self.role ≡ true }
        requires pass { HasPassFor passes.old.of_blocks.items (stand_of (Some self)) }
        requires room { is_new (layout_move (layout_facts L.Layout) (row_of self).place) ≡ true
            → length passes.old.of_blocks.items < vec_capacity passes.old.of_blocks }
        ensures frozen { IfOk result (λ slot. FreezesBy
            (layout_move (layout_facts L.Layout) (row_of self).place) S.DROPS self slot
            passes.old.of_blocks.items passes.new.of_blocks.items) }
        ensures back { IfErr result (λ slot. (slot ≡ self)
            × (passes.new.of_blocks.items ≡ passes.old.of_blocks.items)) }
        ensures refused { IfErr result (λ _.
            IsRefused (layout_move (layout_facts L.Layout) (row_of self).place)) }
    {
        let begins = self.wants_block_to_read();
        let Slot { window, block } = self;
        let mut pass = passes.lend(block);
        match freeze_window(window, &mut pass) {
            Ok(window) => {
                let block = passes.keep(block, begins, pass);
                Ok(Slot {
                    window: Held::Read(window),
                    block,
                })
            }
            Err(window) => {
                passes.give_back(block, pass);
                Err(Slot { window, block })
            }
        }
    }
}
