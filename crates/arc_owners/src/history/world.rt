//! What a run of the word machine leaves, and its one step.
ghost use Rattle.std.specs.Prelude.{◌≡◌, IsTrue, OnOk, IfOk, length};
ghost use Rattle.arc_owners.specs.history.Worlds.{machine_of};
ghost use Rattle.arc_owners.specs.history.Machine.{may_happen, changed, is_fresh, with_number};
ghost use Rattle.arc_owners.specs.history.Machine.{without_number, opening, beginning, step};

use super::entry::Entry;
use super::event::Event;
use crate::error::AllocError;
use std::alloc::{Allocator, Global};

/// The state of a block's word after a run of events, with the history that the run wrote:
/// `Machine` in specs/, which `machine_of` reads from it. The owners that have ended are those
/// whose `Down` is among the entries.
#[derive(Drop)]
pub struct World<A: Allocator = Global> {
    /// Whether the word has a count, or is still lone.
    pub counted: bool,
    /// How many owners the word counts: 1 on a lone word.
    pub count: u64,
    /// The numbers of the live owners, in the order in which they were made.
    pub live: Vec<u64, A>,
    /// The numbers of the threads that found the word lone, in the order in which they first did.
    pub ready: Vec<u64, A>,
    /// The entries of the history, oldest first.
    pub entries: Vec<Entry, A>,
}

impl<A: Allocator + Copy> World<A> {
    /// A block's word as it begins: with a count or lone, and owner 0 alone.
    pub(crate) fn opening(alloc: A, counted: bool) -> Result<Self, AllocError>
        ensures { IfOk result (λ world. machine_of world ≡ opening (beginning counted)) }
    {
        let mut live = Vec::new(alloc);
        live.push(0)?;
        Ok(World {
            counted,
            count: 1,
            live,
            ready: Vec::new(alloc),
            entries: Vec::new(alloc),
        })
    }
}

impl<A: Allocator> World<A> {
    /// Whether an owner's number is one that never was live.
    #[tactic(auto, unfolding(crate::specs::history::Machine::is_fresh))]
    fn is_fresh(&self, owner: u64) -> bool
        ensures { result ≡ is_fresh owner (machine_of self.now) }
    {
        !self.live.contains(&owner) && !self.entries.contains(&Entry::Down(owner))
    }

    /// Whether an event may happen here.
    fn may_happen(&self, most: u64, event: Event) -> bool
        ensures { result ≡ may_happen most (machine_of self.now) event }
    {
        let lives = self.live.contains(&event.by());
        // Plain values are joined by `&`, which adds no branch to the proof.
        let (lone, counted, count) = (lives & !self.counted, lives & self.counted, self.count);
        match event {
            Event::Load { .. } => lone,
            Event::ExchangeWon { thread, new, .. } => {
                lone && self.ready.contains(&thread) && self.is_fresh(new)
            }
            Event::ExchangeLost { thread, .. } => counted && self.ready.contains(&thread),
            Event::CountUp { seen, new, .. } => {
                counted & (count == seen) & (seen < most) && self.is_fresh(new)
            }
            Event::FullFound { .. } => counted & (count == most),
            Event::CountDown { seen, .. } | Event::UniquenessLoad { seen, .. } => {
                counted & (count == seen)
            }
        }
    }

    /// Makes an event, where it may happen.
    #[tactic(auto, unfolding(crate::specs::history::Machine::step))]
    pub(crate) fn happen(&mut self, most: u64, event: Event) -> Result<(), AllocError>
        requires { self.old.count ≡ length self.old.live.items }
        ensures { OnOk result (machine_of self.new ≡ step most (machine_of self.old) event) }
    {
        if self.may_happen(most, event) {
            return self.change(most, event);
        }
        Ok(())
    }

    /// Makes an event that may happen.
    fn change(&mut self, most: u64, event: Event) -> Result<(), AllocError>
        requires allowed { IsTrue (may_happen most (machine_of self.old) event) }
        requires owned { self.old.count ≡ length self.old.live.items }
        ensures { OnOk result (machine_of self.new ≡ changed (machine_of self.old) event) }
    {
        let by = event.by();
        let entry = match event {
            Event::Load { thread, .. } => return add_number(&mut self.ready, thread),
            Event::ExchangeWon { new, .. } => Entry::Promote(by, new),
            Event::ExchangeLost { .. } => Entry::Joined(by),
            Event::CountUp { new, .. } => Entry::Up(by, new),
            Event::FullFound { .. } => Entry::Full(by),
            Event::CountDown { .. } => Entry::Down(by),
            Event::UniquenessLoad { .. } => Entry::Alone(by, self.count == 1),
        };
        self.entries.push(entry)?;
        match event {
            Event::ExchangeWon { new, .. } => {
                self.live.push(new)?;
                self.counted = true;
                self.count = 2;
            }
            Event::CountUp { new, .. } => {
                self.live.push(new)?;
                self.count += 1;
            }
            Event::CountDown { .. } => {
                remove_number(&mut self.live, by);
                self.count -= 1;
            }
            _ => {}
        }
        Ok(())
    }
}

/// Puts a number among these, unless it is there.
fn add_number<A: Allocator>(numbers: &mut Vec<u64, A>, number: u64) -> Result<(), AllocError>
    ensures { OnOk result (numbers.new.items ≡ with_number number numbers.old.items) }
{
    if numbers.contains(&number) {
        return Ok(());
    }
    numbers.push(number).or(Err(AllocError))
}

/// Takes a number from these.
fn remove_number<A: Allocator>(numbers: &mut Vec<u64, A>, number: u64)
    ensures { numbers.new.items ≡ without_number number numbers.old.items }
{
    numbers.retain(|other| *other != number);
}
