//! The plain program that replays a run of events, and the law of all runs.
ghost use Rattle.std.specs.Prelude.{◌≡◌, ◌≤◌, IfOk};
ghost use Rattle.arc_owners.specs.history.Histories.{Beginning, Lone, Counted};
ghost use Rattle.arc_owners.specs.history.Machine.{beginning, after_events};
ghost use Rattle.arc_owners.specs.history.Worlds.{machine_of};

use super::event::Event;
use super::world::World;
use crate::error::AllocError;
use std::alloc::Allocator;

/// What a block's word, its owners and its history are after these events, from a word with a count
/// of 1 and owner 0: `after_events` in specs/. An event that isn't allowed where it comes changes
/// nothing. `MAX` is the greatest count.
///
/// Each event looks at the live owners. One that makes an owner also looks at the entries before
/// it.
///
/// # Errors
///
/// `AllocError` where memory for the lists of the answer is refused.
///
/// # Allocates
///
/// For these lists.
pub fn replay<const MAX: u64, A: Allocator + Copy>(
    alloc: A,
    events: &[Event],
) -> Result<World<A>, AllocError>
    requires { 2 ≤ MAX }
    ensures { IfOk result (λ world. machine_of world ≡ after_events MAX Counted events.now) }
{
    replay_from(alloc, true, MAX, events)
}

/// As `replay`, from the word of a lone vector, which owner 0 alone owns.
///
/// # Errors
///
/// `AllocError` where memory for the lists of the answer is refused.
///
/// # Allocates
///
/// For these lists.
pub fn replay_lone<const MAX: u64, A: Allocator + Copy>(
    alloc: A,
    events: &[Event],
) -> Result<World<A>, AllocError>
    requires { 2 ≤ MAX }
    ensures { IfOk result (λ world. machine_of world ≡ after_events MAX Lone events.now) }
{
    replay_from(alloc, false, MAX, events)
}

fn replay_from<A: Allocator + Copy>(
    alloc: A,
    counted: bool,
    most: u64,
    events: &[Event],
) -> Result<World<A>, AllocError>
    requires { 2 ≤ most }
    ensures { IfOk result (λ world.
        machine_of world ≡ after_events most (beginning counted) events.now) }
{
    let mut world = World::opening(alloc, counted)?;
    for event in events {
        world.happen(most, *event)?;
    }
    Ok(world)
}
