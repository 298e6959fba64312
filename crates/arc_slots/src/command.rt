//! A command on the window under one number of a table.
ghost use Rattle.std.specs.Prelude.{◌≡◌, ℕ, None, Some, false, true, length, IfSome};
ghost use Rattle.std.specs.Prelude.{Err, IfErr, IfOk, IsOk};
ghost use Rattle.std.specs.Option.{option_map};
ghost use Rattle.arc_commands.specs.Seen.{map_command, seen_reply};
ghost use Rattle.arc_commands.specs.Changes.{Setting};
ghost use Rattle.arc_commands.specs.declared.command.Cmd.TheVariants as command;
ghost use Rattle.arc_commands.specs.declared.command.Reply.TheVariants as reply;
ghost use Rattle.arc_slots.specs.Answers.{Answers};
ghost use Rattle.arc_slots.specs.Places.{TakesPlaces, WrapsPlaces};
ghost use Rattle.arc_slots.specs.Slots.{row_of, stand_of};
ghost use Rattle.arc_slots.specs.Stands.{HasBlockPass, HasPassFor, LivesOn};
ghost use Rattle.arc_slots.specs.Turning.{is_turning};

use crate::part::Part;
use crate::passes::Passes;
use crate::slot::Slot;
use crate::take::Taking;
use arc_block::layout::{Layout, LayoutMut};
use arc_buffer::buffer::BufferMut;
use arc_buffer::kinds::Slice;
use arc_commands::command::{Carried, Cmd, Given, Reply};
use arc_kinds::kinds::{Commands, SmallOf, TableCmd, TableKind, TableReply, TableUnder, vec_of};
use arc_kinds::place::set_slot;
use std::alloc::Allocator;
use std::mem;
use std::sync::Wait;

/// Whether the command takes its window by value, since that may be another one afterwards, or be
/// gone.
#[inline(always)]
fn is_turning<C: Carried>(command: &Cmd<C>) -> bool
    ensures { result ≡ is_turning command.now }
{
    matches!(
        command,
        Cmd::Freeze { .. }
            | Cmd::Mut { .. }
            | Cmd::Share { .. }
            | Cmd::Unique { .. }
            | Cmd::Drop { .. }
            | Cmd::Take { .. }
            | Cmd::TakeBox { .. }
            | Cmd::TakeBuf { .. }
            | Cmd::TakeRaw { .. }
            | Cmd::TakeStatic { .. }
    )
}

/// Ends the window, if there is one, under every layout and kind, and answers `Ok`. Where there is
/// none the answer is `NoWindow`. It takes no memory.
///
/// # History
///
/// On a block that counts its owners: Down.
pub fn drop_at<
    S: TableKind,
    L: Layout,
    B: BufferMut<S::Item> + Drop,
    M: Drop,
    A: Allocator + Copy,
    G: Given,
>(place: &mut Option<Slot<S, L, B, M, A>>, passes: &mut Passes<A>) -> Reply<G>
where
    L::Writable: LayoutMut,
    S::Small: SmallOf<S, L, M, A>,
    requires pass { HasBlockPass passes.old.of_blocks.items (stand_of place.old) }
    requires lives { LivesOn passes.old.of_blocks.items (stand_of place.old) }
    ensures dropped { IfSome place.old (λ s. (setting : Setting S.Item) (next i : ℕ)
        → Answers setting next (command.Drop i) s passes.old.of_blocks.items reply.Ok
        place.new None passes.new.of_blocks.items) }
    ensures some { IfSome place.old (λ s. result ≡ reply.Ok) }
    ensures none { place.old ≡ None → (result ≡ reply.NoWindow)
        × (passes.new.of_blocks.items ≡ passes.old.of_blocks.items) }
    ensures gone { place.new ≡ None }
    ensures many { length passes.new.of_blocks.items ≡ length passes.old.of_blocks.items }
{
    let Some(slot) = mem::replace(place, None) else {
        return Reply::NoWindow;
    };
    slot.drop_window(passes);
    Reply::Ok
}

/// Carries out a command that takes the window by value: the reply, and the window that there is
/// then.
///
/// # History
///
/// What `RowAdds` says of the command and its reply.
#[inline(always)]
#[tactic(auto, using(crate::proofs::Taken::has_block, crate::proofs::Taken::has_life))]
fn turn<
    S: Commands<A>,
    L: Layout,
    B: BufferMut<S::Item> + Drop,
    M: Copy + Drop,
    A: Allocator + Copy,
>(
    slot: Slot<S, L, B, M, A>,
    command: TableCmd<S, B, M, A>,
    passes: &mut Passes<A>,
) -> (TableReply<S, B, M, A>, Option<Slot<S, L, B, M, A>>)
where
    L::Writable: LayoutMut,
    S::Small: SmallOf<S, L, M, A>,
    requires turns { is_turning command ≡ true }
    requires pass { HasPassFor passes.old.of_blocks.items (stand_of (Some slot)) }
    ensures answers { (next : ℕ) → Answers ⟦<S as TableUnder<L, A>>⟧.setting next
        (map_command S.items_in S.static_in B.list command) slot passes.old.of_blocks.items
        (seen_reply S.items_in S.items_in_box B.list result.0) result.1 None
        passes.new.of_blocks.items }
    ensures places { TakesPlaces (WrapsPlaces S.Items.wraps) B.places (λ _. Some (row_of slot))
        command result.0 }
{
    match command {
        Cmd::Freeze { .. } => slot.freeze(passes),
        Cmd::Mut { .. } => slot.make_mut(passes),
        Cmd::Share { .. } => slot.share(passes),
        Cmd::Unique { .. } => slot.make_unique(passes),
        Cmd::Take { .. } => slot.take(Taking::Vector, passes),
        Cmd::TakeBox { .. } => slot.take(Taking::Boxed, passes),
        Cmd::TakeBuf { .. } => slot.take(Taking::Buffer, passes),
        Cmd::TakeRaw { .. } => slot.take(Taking::Raw, passes),
        Cmd::TakeStatic { .. } => slot.take_static(passes),
        Cmd::Drop { .. } => {
            slot.drop_window(passes);
            (Reply::Ok, None)
        }
        // No other command takes its window by value.
        _ => unreachable!(),
    }
}

/// Carries out a command on the window in its place. It answers the window that is made beside it,
/// where there is room for that.
///
/// # Errors
///
/// The reply, where no window is made.
///
/// # Allocates
///
/// What the window's call takes, and for the pass of a first block.
///
/// # History
///
/// What `RowAdds` says of the command and its reply.
#[inline(always)]
fn answer_there<
    S: Commands<A>,
    L: Layout,
    B: BufferMut<S::Item> + Drop,
    M: Copy + Drop,
    A: Allocator + Copy,
>(
    slot: &mut Slot<S, L, B, M, A>,
    rt: &impl Wait,
    alloc: A,
    command: TableCmd<S, B, M, A>,
    has_room: bool,
    passes: &mut Passes<A>,
) -> Result<Slot<S, L, B, M, A>, TableReply<S, B, M, A>>
where
    L::Writable: LayoutMut,
    S::Small: SmallOf<S, L, M, A>,
    requires stays { is_turning command ≡ false }
    requires pass { HasPassFor passes.old.of_blocks.items (stand_of (Some slot.old)) }
    ensures made { IfOk result (λ made. (next : ℕ) → Answers ⟦<S as TableUnder<L, A>>⟧.setting next
        (map_command S.items_in S.static_in B.list command) slot.old passes.old.of_blocks.items
        (reply.New next) (Some slot.new) (Some made) passes.new.of_blocks.items) }
    ensures told { IfErr result (λ r. (next : ℕ) → Answers ⟦<S as TableUnder<L, A>>⟧.setting next
        (map_command S.items_in S.static_in B.list command) slot.old passes.old.of_blocks.items
        (seen_reply S.items_in S.items_in_box B.list r) (Some slot.new) None
        passes.new.of_blocks.items) }
    ensures room { IsOk result → has_room ≡ true }
{
    match command {
        Cmd::Clone { .. } => slot.hand_out_clone(rt, has_room, passes),
        Cmd::Sub { start, end, .. } => slot.hand_out_range(rt, start, end, has_room, passes),
        Cmd::Off { at, .. } => slot.hand_out_split(rt, Part::Back(at), has_room, passes),
        Cmd::To { at, .. } => slot.hand_out_split(rt, Part::Front(at), has_room, passes),
        Cmd::Uniq { .. } => Err(slot.uniq(passes)),
        Cmd::Show { .. } => Err(slot.show(alloc, passes)),
        Cmd::Meta { .. } => Err(slot.meta(passes)),
        Cmd::Len { .. } => Err(slot.count(passes)),
        Cmd::Room { .. } => Err(slot.room(passes)),
        Cmd::Res { additional, .. } => Err(slot.reserve(additional, passes)),
        Cmd::Push { item, .. } => Err(slot.push(item, passes)),
        Cmd::Ext { items, .. } => Err(slot.extend(vec_of::<S, A>(items), passes)),
        Cmd::Rec { additional, .. } => Err(slot.reclaim(additional, passes)),
        Cmd::Adv { by, .. } => Err(slot.skip(by, passes)),
        Cmd::Trunc { len, .. } => Err(slot.cut(len, passes)),
        Cmd::Join { .. } => Err(slot.join(passes)),
        // The others are on no window.
        _ => Err(Reply::Kind),
    }
}

/// Carries out a command on the window that is here, if there is one. It answers the window that is
/// made beside it, where there is room for that. The caller puts it under the next number, which is
/// the reply.
///
/// # Errors
///
/// The reply, where no window is made.
///
/// # Allocates
///
/// What the window's call takes, and for the pass of a first block.
///
/// # History
///
/// What `RowAdds` says of the command and its reply.
#[inline(always)]
pub fn answer<
    S: Commands<A>,
    L: Layout,
    B: BufferMut<S::Item> + Drop,
    M: Copy + Drop,
    A: Allocator + Copy,
>(
    place: &mut Option<Slot<S, L, B, M, A>>,
    rt: &impl Wait,
    alloc: A,
    command: TableCmd<S, B, M, A>,
    has_room: bool,
    passes: &mut Passes<A>,
) -> Result<Slot<S, L, B, M, A>, TableReply<S, B, M, A>>
where
    L::Writable: LayoutMut,
    S::Small: SmallOf<S, L, M, A>,
    requires pass { HasPassFor passes.old.of_blocks.items (stand_of place.old) }
    requires lives { LivesOn passes.old.of_blocks.items (stand_of place.old) }
    ensures made { IfOk result (λ made. IfSome place.old (λ s. (next : ℕ) → Answers
        ⟦<S as TableUnder<L, A>>⟧.setting next (map_command S.items_in S.static_in B.list command) s
        passes.old.of_blocks.items (reply.New next) place.new (Some made)
        passes.new.of_blocks.items)) }
    ensures told { IfErr result (λ r. IfSome place.old (λ s. (next : ℕ) → Answers
        ⟦<S as TableUnder<L, A>>⟧.setting next (map_command S.items_in S.static_in B.list command) s
        passes.old.of_blocks.items (seen_reply S.items_in S.items_in_box B.list r) place.new None
        passes.new.of_blocks.items)) }
    ensures places { IfErr result (λ r. TakesPlaces (WrapsPlaces S.Items.wraps) B.places
        (λ _. option_map row_of place.old) command r) }
    ensures none { place.old ≡ None → (result ≡ Err reply.NoWindow) × (place.new ≡ None)
        × (passes.new.of_blocks.items ≡ passes.old.of_blocks.items) }
    ensures room { IsOk result → has_room ≡ true }
{
    if is_turning(&command) {
        let Some(slot) = mem::replace(place, None) else {
            return Err(Reply::NoWindow);
        };
        let (reply, slot) = turn(slot, command, passes);
        set_slot(place, slot);
        return Err(reply);
    }
    let Some(slot) = place else {
        return Err(Reply::NoWindow);
    };
    answer_there(slot, rt, alloc, command, has_room, passes)
}
