//! A value in memory of its own, whose only owner has that memory.
ghost use Rattle.std.specs.Prelude.{◌≡◌};

use super::box_parts::BoxParts;
use super::box_place::BoxPlace;
use super::counted_box::{CountedBox, Housed};
use super::inner::Inner;
use crate::count::tokens::{Owners, Pass, Sole};
use crate::lifetime::LifetimeToken;
use crate::mark::{Mark, Open, Stepping};
use std::alloc::{Allocator, Global};
use std::marker::PhantomData;

/// The only owner of a value. It has the memory in which the value lies, next to the word that
/// counts the owners. It is a pointer of 8 bytes, however large the allocator is. `MAX` is the
/// greatest count.
///
/// One that is dropped ends with a new pass under the mark `Open`. Under `Whole` it is a forgotten
/// owner: the memory stays for good.
pub struct SoleBox<V: Drop, A: Allocator + Copy, const MAX: u64, H: Mark = Open> {
    pub(crate) memory: BoxPlace<Inner<Housed<V, A>>, A>,
    pub(crate) sole: Sole<H>,
    ghost greatest: { memory.value.word.most ≡ MAX },
    ghost counted: { sole.right.block ≡ memory.value.word },
    ghost homed: { memory.alloc ≡ memory.value.value.alloc },
}

const _: () = prove!(size_of::<SoleBox<u64, Global, 3>>() == 8);

/// The memory with its allocator, which lies beside the value.
pub(crate) fn housed_parts<V: Drop, A: Allocator + Copy>(
    memory: BoxPlace<Inner<Housed<V, A>>, A>,
) -> BoxParts<Inner<Housed<V, A>>, A>
    requires { memory.alloc ≡ memory.value.value.alloc }
    ensures { (result.value ≡ memory.value) × (result.alloc ≡ memory.alloc)
        × (result.at ≡ memory.at) }
{
    let alloc = memory.get().value.alloc;
    memory.with(alloc)
}

impl<V: Drop, A: Allocator + Copy, const MAX: u64, H: Mark> SoleBox<V, A, MAX, H> {
    ghost use Rattle.std.specs.Prelude.{◌≡◌, ◌≤◌, IfOk, IfErr, IfSome, is_some, true, false, None};
    ghost use Rattle.arc_owners.specs.history.Histories.{Counted, IsAlone};
    ghost use Rattle.arc_owners.specs.count.Calls.{IsPassFor, IsPassOfNone, IsFirst, IsFreshPass};
    ghost use Rattle.arc_owners.specs.count.Calls.{Learns, Leaves, SeesAlone, EndsByItself, Asks};
    ghost use Rattle.arc_owners.specs.count.Calls.{EndsWithoutStep, seen, history_of, sole_owner};
    ghost use Rattle.arc_owners.specs.memory.Boxes.{owner_in, value_of, lifetime_in, note_in};
    ghost use Rattle.arc_owners.specs.count.LentNotes.{LentNote, no_note};
    ghost use base.Fraction.{full_share};
    ghost use Rattle.arc_owners.specs.memory.Boxes.{place_in};
    ghost use Rattle.arc_owners.specs.memory.SoleBoxes.{sole_in, sole_value, LendsSoleValue};
    ghost use Rattle.arc_owners.specs.memory.SoleBoxes.{sole_place};
    ghost use types.Logic.{sem};

    /// The first and only owner of a value, with a pass of its block. `MAX`, at least 2, is how
    /// many owners may live at once.
    ///
    /// # Errors
    ///
    /// The value comes back where memory for it and the count is refused.
    ///
    /// # Allocates
    ///
    /// Once, for the value and the count together.
    pub fn new(alloc: A, value: V) -> Result<(Self, Pass<H>), V>
        requires { 2 ≤ MAX }
        ensures made { IfOk result (λ r. IsFirst MAX H.whole Counted (sole_in r.0)
            × (sole_value r.0 ≡ value)) }
        ensures pass { IfOk result (λ r. IsFreshPass (sole_in r.0) r.1) }
        ensures alone { IfOk result (λ r. IsAlone MAX (sole_in r.0).number (seen r.1)) }
        ensures refused { IfErr result (λ back. back ≡ value) }
    {
        let (owners, sole, pass) = Owners::<MAX, H>::new_sole();
        let Owners { word, mark: _ } = owners;
        let value = Housed { value, alloc };
        match Box::new(alloc, Inner { word, value }) {
            Ok(memory) => Ok((SoleBox::settled(BoxParts::of(memory), sole), pass)),
            Err(refused) => {
                let Inner { word: _, value } = refused.value;
                Err(value.value)
            }
        }
    }

    /// The only owner of the value that lies in this memory.
    pub(crate) fn settled(memory: BoxParts<Inner<Housed<V, A>>, A>, sole: Sole<H>) -> Self
        requires count { (sole.right.block ≡ memory.value.word) × (memory.value.word.most ≡ MAX) }
        requires memory { memory.alloc ≡ memory.value.value.alloc }
        ensures { (sole_in result ≡ sole_owner sole)
            × (sole_value result ≡ memory.value.value.value)
            × (sole_place result ≡ memory.at) }
    {
        let (memory, _) = BoxPlace::of(memory);
        SoleBox { memory, sole }
    }

    /// The value.
    pub fn get(&self) -> &V
        ensures { result.now ≡ sole_value self.now }
    {
        &self.memory.get().value.value
    }

    /// The value, to be changed: afterwards the same owner has what is written there. It adds no
    /// entry and takes no memory.
    pub fn get_mut(&mut self) -> &mut V
        ensures* writes_back { sem 𝓛 (LendsSoleValue V.row A.row MAX.row H.row H.Mark A.Allocator
            self.entry result) }
        ensures value { result.now ≡ sole_value self.old }
    {
        let inner = self.memory.get_mut();
        inner.value_mut().value_mut()
    }

    /// Shows a pass the block's whole history up to here, in which no other owner lives. It adds no
    /// entry and takes no memory.
    pub fn only(&self, pass: &mut Pass<H>)
        requires pass { IsPassFor (sole_in self.now) pass.old }
        ensures { SeesAlone (sole_in self.now) pass.old pass.new }
    {
        self.sole.only(pass);
    }

    /// Whether no other owner lives, by one load, as an owner asks to whom the value is lent. It
    /// takes no memory.
    ///
    /// # History
    ///
    /// Alone with the answer.
    #[tactic(auto, using(crate::proofs::count::Calls::asks_of))]
    pub fn is_unique_as(&self, pass: &mut Pass<H>) -> bool
        requires pass { IsPassFor (sole_in self.now) pass.old }
        ensures entry { Asks (sole_in self.now) pass.old pass.new result }
    {
        let word = &self.memory.get().word;
        word.load(&self.sole.right, &mut pass.trace) == 1
    }

    /// Lends the value anew, under the same history: the same owner of the same value, for a new
    /// lifetime, for which nothing else is lent. It adds no entry and takes no memory.
    pub fn lend(self) -> CountedBox<V, A, MAX, H>
        ensures same { (owner_in result ≡ sole_in self) × (value_of result ≡ sole_value self) }
        ensures noted { note_in result ≡ no_note }
        ensures place { place_in result ≡ sole_place self }
    {
        let SoleBox { memory, sole } = self;
        CountedBox::settled(housed_parts(memory), sole.lend())
    }

    /// As `lend`, for a lifetime that the owner has whole. All owners of the block have a note of
    /// what else is lent for it. It adds no entry and takes no memory.
    pub fn lend_for(self, lifetime: LifetimeToken) -> CountedBox<V, A, MAX, H>
        ghost note: { LentNote }
        requires { lifetime.share ≡ full_share }
        ensures same { (owner_in result ≡ sole_in self) × (value_of result ≡ sole_value self) }
        ensures lent { lifetime_in result ≡ lifetime.lifetime }
        ensures noted { note_in result ≡ note }
        ensures place { place_in result ≡ sole_place self }
    {
        let SoleBox { memory, sole } = self;
        CountedBox::settled(housed_parts(memory), sole.lend_for(lifetime))
    }

    /// The memory, with the word and the value in it, and the owner.
    pub(crate) fn parted(self) -> (BoxParts<Inner<Housed<V, A>>, A>, Sole<H>)
        ensures memory { (result.0.value ≡ self.memory.value) × (result.0.at ≡ self.memory.at) }
        ensures owner { result.1 ≡ self.sole }
    {
        let SoleBox { memory, sole } = self;
        (housed_parts(memory), sole)
    }

    /// The value. The memory goes to its allocator, and this owner, the last one, ends without an
    /// atomic step. It takes no memory.
    ///
    /// # History
    ///
    /// Down.
    pub fn into_value_as(self, pass: &mut Pass<H>) -> V
        requires pass { IsPassFor (sole_in self) pass.old }
        ensures entry { Leaves (sole_in self) pass.old pass.new true }
        ensures step { EndsWithoutStep (sole_in self).block (history_of pass.new) }
        ensures value { result ≡ sole_value self }
    {
        let SoleBox { memory, sole } = self;
        let memory = housed_parts(memory).into_box();
        let Inner { word: _, value } = Box::into_inner(memory);
        sole.end_as(pass);
        value.value
    }

    /// What a drop does. Under `Open` this owner ends with a new pass, which is the second answer,
    /// and the value comes out. Under `Whole` it is forgotten, with the value and the memory, and
    /// the pass is one of no block. It takes no memory.
    ///
    /// # History
    ///
    /// Under `Open`: Down, without an atomic step. Under `Whole`: nothing.
    pub fn let_go(self) -> (Option<V>, Pass<H>)
        ensures value { IfSome result.0 (λ value. value ≡ sole_value self) }
        ensures forgotten { H.whole ≡ true → (result.0 ≡ None) × IsPassOfNone result.1 }
        ensures ended { H.whole ≡ false → (is_some result.0 ≡ true)
            × EndsByItself (sole_in self) result.1 true }
    {
        let SoleBox { memory, sole } = self;
        let (ended, trace) = H::let_go_sole(sole.right);
        let pass = Pass {
            trace,
            mark: PhantomData,
        };
        if !ended {
            memory.leak();
            return (None, pass);
        }
        let memory = housed_parts(memory).into_box();
        let Inner { word: _, value } = Box::into_inner(memory);
        (Some(value.value), pass)
    }

    /// From here on the first pass has seen at least what the other had. It adds no entry and takes
    /// no memory.
    pub fn learn(&self, pass: &mut Pass<H>, other: &Pass<H>)
        requires pass { IsPassFor (sole_in self.now) pass.old }
        requires other { IsPassFor (sole_in self.now) other.now }
        ensures { Learns (sole_in self.now).block pass.old other.now pass.new }
    {
        pass.learn(other);
    }
}

impl<V: Drop, A: Allocator + Copy, const MAX: u64, H: Stepping> SoleBox<V, A, MAX, H> {
    ghost use Rattle.arc_owners.specs.count.Calls.{IsNewPass};
    ghost use Rattle.arc_owners.specs.memory.SoleBoxes.{sole_in};

    /// A new pass of the block. It has seen at least the entry that made this owner, and nothing
    /// was made with it. It adds no entry and takes no memory.
    pub fn pass(&self) -> Pass<H>
        ensures { IsNewPass (sole_in self.now) result }
    {
        self.sole.pass()
    }
}

impl<V: Drop, A: Allocator + Copy, const MAX: u64, H: Mark> Drop for SoleBox<V, A, MAX, H> {
    ghost use Rattle.std.specs.Prelude.{◌≡◌, false};
    ghost use Rattle.arc_owners.specs.count.Calls.{EndsShown};
    ghost use Rattle.arc_owners.specs.memory.SoleBoxes.{sole_in};

    fn drop(self)
        ensures ended { H.whole ≡ false → EndsShown H H.real (sole_in self) }
    {
        let (value, pass) = self.let_go();
        drop(value);
        pass.show();
    }
}
