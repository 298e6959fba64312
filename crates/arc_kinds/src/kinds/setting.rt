//! The setting of a table, which clauses name by one word.
ghost use Rattle.std.specs.Mem.{type_size};
ghost use Rattle.arc_block.specs.LayoutFacts.{layout_facts};
ghost use Rattle.arc_commands.specs.Changes.{Setting, setting_of};

use super::Commands;
use arc_block::layout::{Layout, LayoutMut};
use arc_buffer::kinds::Slice;
use std::alloc::Allocator;

/// The setting of a table over A, of windows of this kind under the layout L. Each kind that tables
/// have has one, under each layout. The trait has no call: clauses name the setting by it.
pub trait TableUnder<L, A>: Slice {
    /// What the layout and the kind are.
    ghost setting: { Setting Self.Item };
}

impl<S: Commands<A>, L: Layout, A: Allocator> TableUnder<L, A> for S
where
    L::Writable: LayoutMut,
{
    ghost setting = { setting_of (layout_facts L.Layout) L.Writable.ANY L.clone_wants S.DROPS
        S.boundary (type_size S.Item.row) S.Zero.zero S.Calls.calls };
}
