//! The count of a block's owners: owners are made, ask whether they are alone, and end. And a value
//! that its owners share.
ghost use Rattle.std.specs.Prelude.{◌≡◌, [], ◌∷◌, IfOk, IfErr};
ghost use Rattle.arc_owners.specs.declared.history.entry.Entry.TheVariants.{Up, Full, Down};
ghost use Rattle.arc_owners.specs.count.Calls.{seen, mine};
ghost use Rattle.arc_owners.specs.memory.Boxes.{value_of};
ghost use Rattle.arc_owners.specs.memory.SoleBoxes.{sole_in, sole_value};

use arc_owners::error::CountFull;
use arc_owners::mark::{Open, Whole};
use arc_owners::owners::{CountedBox, Owners, Pass, Release, SoleBox};
use std::alloc::Global;
use std::sync::Wait;

/// A block that may have three owners at most. Two owners more are made, and a third is refused.
/// The second one ends, not as the last, and then there is room again. No other replies are
/// possible, and the history is exactly this.
pub fn worked_run<R: Wait>(rt: &R) -> Pass<Whole>
    ensures seen { seen result ≡ Up 0 1 ∷ Up 0 2 ∷ Full 0 ∷ Down 2 ∷ Up 0 3 ∷ [] }
    ensures made { mine result ≡ Up 0 1 ∷ Up 0 2 ∷ Full 0 ∷ Down 2 ∷ Up 0 3 ∷ [] }
{
    let (owners, first, mut pass) = Owners::<3, Whole>::new();
    let Ok(_second) = owners.up_as(rt, &first, &mut pass) else {
        unreachable!()
    };
    let Ok(third) = owners.up_as(rt, &first, &mut pass) else {
        unreachable!()
    };
    let Err(CountFull) = owners.up_as(rt, &first, &mut pass) else {
        unreachable!()
    };
    let Release::NotLast = owners.down_as(third, &mut pass) else {
        unreachable!()
    };
    let Ok(_fourth) = owners.up_as(rt, &first, &mut pass) else {
        unreachable!()
    };
    pass
}

/// The first of two passes of one block, which has learnt what the second has seen.
pub fn learnt() -> Pass<Open> {
    let (owners, first, mut one) = Owners::<3, Open>::new();
    let mut two = first.pass();
    owners.alone_as(&first, &mut two);
    owners.learn(&mut one, &two);
    let mut three = owners.pass(&first);
    three.learn(&one);
    three.attest();
    two.show();
    three
}

/// A block whose first owner has it to itself, lends it, and has it back to end it. The answer is
/// whether the owner was alone in between.
pub fn lent_and_ended() -> bool {
    let (owners, sole, mut pass) = Owners::<3, Whole>::new_sole();
    sole.only(&mut pass);
    let first = sole.lend();
    match owners.claim_as(first, &mut pass) {
        Ok((sole, _)) => {
            sole.end_as(&mut pass);
            true
        }
        Err(_) => false,
    }
}

/// A value in memory of its own, or the value back where memory is refused.
pub fn shared(alloc: Global, value: u64) -> Result<CountedBox<u64, Global, 3, Open>, u64>
    ensures value { IfOk result (λ owner. value_of owner ≡ value) }
    ensures back { IfErr result (λ back. back ≡ value) }
{
    match CountedBox::new(alloc, value) {
        Ok((owner, _)) => Ok(owner),
        Err(value) => Err(value),
    }
}

/// What two owners of a value get at their ends.
pub fn ended_by_two(
    first: CountedBox<u64, Global, 3, Open>,
    second: CountedBox<u64, Global, 3, Open>,
) -> [Option<u64>; 2] {
    let mut pass = first.pass();
    let mut other = second.pass();
    [first.release_as(&mut pass), second.release_as(&mut other)]
}

/// Another owner of the same value.
pub fn another(
    rt: &impl Wait,
    owner: &CountedBox<u64, Global, 3, Open>,
) -> Result<CountedBox<u64, Global, 3, Open>, CountFull>
    ensures { IfOk result (λ other. value_of other ≡ value_of owner.now) }
{
    let mut pass = owner.pass();
    owner.try_clone_as(rt, &mut pass)
}

/// The value, where no other owner lives.
pub fn taken_out(
    owner: CountedBox<u64, Global, 3, Open>,
) -> Result<u64, CountedBox<u64, Global, 3, Open>>
    ensures value { IfOk result (λ value. value ≡ value_of owner) }
    ensures back { IfErr result (λ back. value_of back ≡ value_of owner) }
{
    let mut pass = owner.pass();
    owner.try_into_value_as(&mut pass)
}

/// Puts another value in the place of the one that the only owner has.
pub fn set(sole: &mut SoleBox<u64, Global, 3, Open>, value: u64)
    ensures value { sole_value sole.new ≡ value }
    ensures owner { sole_in sole.new ≡ sole_in sole.old }
{
    *sole.get_mut() = value;
}
