//! A count by value, with its only owner.
ghost use Rattle.std.specs.Prelude.{◌≡◌};

use crate::count::tokens::{Owners, Pass, Sole};
use crate::mark::{Mark, Open, Stepping};
use std::marker::PhantomData;

/// The word of a count and its only owner, who has the block whole: 8 bytes by value. `MAX` is the
/// greatest count.
///
/// One that is dropped is a forgotten owner.
#[derive(Drop)]
pub struct SoleCount<const MAX: u64, H: Mark = Open> {
    pub(crate) owners: Owners<MAX, H>,
    pub(crate) sole: Sole<H>,
    ghost counted: { sole.right.block ≡ owners.word },
}

const _: () = prove!(size_of::<SoleCount<3>>() == 8);

impl<const MAX: u64, H: Mark> SoleCount<MAX, H> {
    ghost use Rattle.std.specs.Prelude.{◌≤◌, is_some, true, false, None};
    ghost use Rattle.arc_owners.specs.history.Histories.{Counted, IsAlone};
    ghost use Rattle.arc_owners.specs.count.Calls.{IsPassFor, IsPassOfNone, IsFirst, IsFreshPass};
    ghost use Rattle.arc_owners.specs.count.Calls.{Learns, Leaves, SeesAlone, EndsByItself};
    ghost use Rattle.arc_owners.specs.count.Calls.{EndsWithoutStep, seen, history_of, Asks};
    ghost use Rattle.arc_owners.specs.memory.SoleCounts.{count_owner};

    /// The count of a new block, which is 1, with its only owner, and a pass that has seen nothing.
    /// `MAX`, at least 2, is how many owners may live at once. It takes no memory.
    pub fn new() -> (Self, Pass<H>)
        requires { 2 ≤ MAX }
        ensures first { IsFirst MAX H.whole Counted (count_owner result.0) }
        ensures pass { IsFreshPass (count_owner result.0) result.1 }
        ensures alone { IsAlone MAX (count_owner result.0).number (seen result.1) }
    {
        let (owners, sole, pass) = Owners::<MAX, H>::new_sole();
        (SoleCount { owners, sole }, pass)
    }

    /// Shows a pass the block's whole history up to here, in which no other owner lives. It adds no
    /// entry and takes no memory.
    pub fn only(&self, pass: &mut Pass<H>)
        requires pass { IsPassFor (count_owner self.now) pass.old }
        ensures { SeesAlone (count_owner self.now) pass.old pass.new }
    {
        self.sole.only(pass);
    }

    /// Whether no other owner lives, by one load, as an owner asks to whom a value is lent. It
    /// takes no memory.
    ///
    /// # History
    ///
    /// Alone with the answer.
    #[tactic(auto, using(crate::proofs::count::Calls::asks_of))]
    pub fn is_unique_as(&self, pass: &mut Pass<H>) -> bool
        requires pass { IsPassFor (count_owner self.now) pass.old }
        ensures entry { Asks (count_owner self.now) pass.old pass.new result }
    {
        self.owners.word.load(&self.sole.right, &mut pass.trace) == 1
    }

    /// Ends this owner, the last one, without an atomic step. It takes no memory.
    ///
    /// # History
    ///
    /// Down.
    pub fn end_as(self, pass: &mut Pass<H>)
        requires pass { IsPassFor (count_owner self) pass.old }
        ensures entry { Leaves (count_owner self) pass.old pass.new true }
        ensures step { EndsWithoutStep (count_owner self).block (history_of pass.new) }
    {
        let SoleCount { owners: _, sole } = self;
        sole.end_as(pass);
    }

    /// What becomes of a sole owner that is dropped. Under `Open` it ends with a new pass, which is
    /// the second answer, and the first is `true`. Under `Whole` it is forgotten, and the pass is
    /// one of no block. It takes no memory.
    ///
    /// # History
    ///
    /// Under `Open`: Down, without an atomic step. Under `Whole`: nothing.
    pub fn let_go(self) -> (bool, Pass<H>)
        ensures forgotten { H.whole ≡ true → (result.0 ≡ false) × IsPassOfNone result.1 }
        ensures ended { H.whole ≡ false → (result.0 ≡ true)
            × EndsByItself (count_owner self) result.1 true }
    {
        let SoleCount { owners: _, sole } = self;
        let (ended, trace) = H::let_go_sole(sole.right);
        let pass = Pass {
            trace,
            mark: PhantomData,
        };
        (ended, pass)
    }

    /// From here on the first pass has seen at least what the other had. It adds no entry and takes
    /// no memory.
    pub fn learn(&self, pass: &mut Pass<H>, other: &Pass<H>)
        requires pass { IsPassFor (count_owner self.now) pass.old }
        requires other { IsPassFor (count_owner self.now) other.now }
        ensures { Learns (count_owner self.now).block pass.old other.now pass.new }
    {
        pass.learn(other);
    }
}

impl<const MAX: u64, H: Stepping> SoleCount<MAX, H> {
    ghost use Rattle.arc_owners.specs.count.Calls.{IsNewPass};
    ghost use Rattle.arc_owners.specs.memory.SoleCounts.{count_owner};

    /// A new pass of the block. It has seen at least the entry that made this owner, and nothing
    /// was made with it. It adds no entry and takes no memory.
    pub fn pass(&self) -> Pass<H>
        ensures { IsNewPass (count_owner self.now) result }
    {
        self.sole.pass()
    }
}
