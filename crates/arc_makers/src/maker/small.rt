//! A small window that a command makes.
ghost use Rattle.std.specs.Prelude.{◌≡◌, ◌<◌, IfErr, IfOk, Some, true, is_some, length};
ghost use Rattle.std.specs.Vec.{vec_capacity};
ghost use Rattle.arc_block.specs.Inline.{inline_limit};
ghost use Rattle.arc_commands.specs.Additions.{Founds};
ghost use Rattle.arc_commands.specs.Seen.{seen_reply};
ghost use Rattle.arc_commands.specs.Changes.{small_row};
ghost use Rattle.arc_commands.specs.declared.command.Cmd.TheVariants as command;
ghost use Rattle.arc_makers.specs.Makers.{Makes};
ghost use Rattle.arc_slots.specs.Slots.{row_of, stand_of};

use arc_block::layout::{Layout, LayoutMut};
use arc_buffer::buffer::BufferMut;
use arc_buffer::kinds::Slice;
use arc_commands::command::Reply;
use arc_kinds::kinds::{Commands, SmallOf, Smalls, TableReply, TableUnder, known_small, vec_of};
use arc_owners::error::AllocError;
use arc_owners::owners::Pass;
use arc_slots::passes::Passes;
use arc_slots::slot::Slot;
use arc_slots::window::Held;
use arc_small::inline_limit;
use std::alloc::Allocator;

/// A small window's slot, of a window over so many items.
fn small<S: Commands<A>, L: Layout, B: BufferMut<S::Item> + Drop, M: Drop, A: Allocator + Copy>(
    alloc: A,
    items: &[S::Item],
    passes: &mut Passes<A>,
) -> Result<Slot<S, L, B, M, A>, AllocError>
where
    L::Writable: LayoutMut,
    S::Small: SmallOf<S, L, M, A>,
    requires has { S.Small.small ≡ true }
    requires legal { ∥ S.is_legal items.now ∥₁ }
    requires room { inline_limit < length items.now
        → length passes.old.of_blocks.items < vec_capacity passes.old.of_blocks }
    ensures row { IfOk result (λ slot. row_of slot ≡ small_row L.STATIC S.DROPS
        (length passes.old.of_blocks.items) items.now) }
    ensures stand { IfOk result (λ slot. Founds (stand_of (Some slot)) passes.old.of_blocks.items
        passes.new.of_blocks.items) }
    ensures refused { IfErr result (λ _. passes.new.of_blocks.items ≡ passes.old.of_blocks.items) }
{
    let mut pass = Pass::none();
    let Some(made) = S::Small::try_make_as(alloc, items, &mut pass) else {
        unreachable!()
    };
    let window = match made {
        Ok(window) => Held::Small(window),
        Err(e) => return Err(e),
    };
    if items.len() <= inline_limit() {
        return Ok(Slot {
            window,
            block: None,
        });
    }
    let block = passes.keep(None, true, pass);
    Ok(Slot { window, block })
}

/// A small window over a copy of the items.
pub(super) fn over_few<
    S: Commands<A>,
    L: Layout,
    B: BufferMut<S::Item> + Drop,
    M: Drop,
    A: Allocator + Copy,
>(
    alloc: A,
    items: S::Items,
    next: usize,
    has_room: bool,
    passes: &mut Passes<A>,
) -> (TableReply<S, B, M, A>, Option<Slot<S, L, B, M, A>>)
where
    L::Writable: LayoutMut,
    S::Small: SmallOf<S, L, M, A>,
    ensures made { Makes ⟦<S as TableUnder<L, A>>⟧.setting next (command.Small (S.items_in items))
        passes.old.of_blocks.items (seen_reply S.items_in S.items_in_box B.list result.0) result.1
        passes.new.of_blocks.items }
    ensures room { is_some result.1 ≡ true → has_room ≡ true }
{
    known_small::<S, A>();
    if !S::Small::has_small() {
        return (Reply::Kind, None);
    }
    if !has_room {
        return (Reply::Alloc, None);
    }
    let items = vec_of::<S, A>(items);
    if passes.reserve_for(items.len() > inline_limit()).is_err() {
        return (Reply::Alloc, None);
    }
    match small(alloc, &items, passes) {
        Ok(slot) => (Reply::New(next), Some(slot)),
        Err(_) => (Reply::Alloc, None),
    }
}
