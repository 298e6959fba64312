//! An owner of a counted box whose share of the lifetime is elsewhere.
ghost use Rattle.std.specs.Prelude.{◌≡◌};

use super::counted_box::{CountedBox, Housed};
use super::inner::Inner;
use super::lent_value::LentValue;
use crate::count::share_without_lifetime::ShareWithoutLifetime;
use crate::count::tokens::Pass;
use crate::count::word::WordBorrow;
use crate::lifetime::LifetimeToken;
use crate::mark::{Mark, Open, Stepping};
use std::alloc::Allocator;

/// One owner of a counted box, without its share of the lifetime for which the value is lent. It
/// doesn't read the value, and makes no step, until the share is back. It is neither copied nor
/// dropped, so no owner is lost meanwhile.
pub struct CountedBoxWithoutLifetime<V: Drop, A: Allocator + Copy, const MAX: u64, H: Mark = Open> {
    pub(crate) memory: LentValue<Inner<Housed<V, A>>, A>,
    pub(crate) lodging: WordBorrow,
    pub(crate) share: ShareWithoutLifetime<H>,
    ghost greatest: { lodging.block.most ≡ MAX },
    ghost counted: { share.right.block ≡ lodging.block },
    ghost worded: { memory.kept.value.word ≡ lodging.block },
    ghost lodged: { (lodging.at ≡ memory.at) × (lodging.lifetime ≡ share.right.lease.lifetime) },
    ghost comes_back: { (memory.kept.alloc ≡ memory.kept.value.value.alloc)
        × (memory.kept.lease ≡ share.right.lease) },
}

impl<V: Drop, A: Allocator + Copy, const MAX: u64, H: Mark> CountedBoxWithoutLifetime<
    V,
    A,
    MAX,
    H,
> {
    ghost use Rattle.arc_owners.specs.count.Calls.{IsPassFor, Learns};
    ghost use Rattle.arc_owners.specs.memory.Boxes.{owner_in, value_of, lifetime_in, note_in};
    ghost use Rattle.arc_owners.specs.memory.Boxes.{owner_in_rest, value_of_rest};
    ghost use Rattle.arc_owners.specs.memory.Boxes.{lifetime_in_rest, share_taken_from};
    ghost use Rattle.arc_owners.specs.memory.Boxes.{place_in, place_in_rest, note_in_rest};

    /// The owner, with its share of the lifetime again. It takes no memory.
    pub fn with_lifetime(self, lifetime: LifetimeToken) -> CountedBox<V, A, MAX, H>
        requires { (lifetime.lifetime ≡ lifetime_in_rest self)
            × (lifetime.share ≡ share_taken_from self) }
        ensures same { (owner_in result ≡ owner_in_rest self)
            × (value_of result ≡ value_of_rest self) }
        ensures lent { lifetime_in result ≡ lifetime_in_rest self }
        ensures noted { note_in result ≡ note_in_rest self }
        ensures place { place_in result ≡ place_in_rest self }
    {
        let CountedBoxWithoutLifetime {
            memory,
            lodging,
            share,
        } = self;
        CountedBox {
            memory,
            lodging,
            share: share.with_lifetime(lifetime),
        }
    }
    /// From here on the first pass has seen at least what the other had. It adds no entry and takes
    /// no memory.
    pub fn learn(&self, pass: &mut Pass<H>, other: &Pass<H>)
        requires pass { IsPassFor (owner_in_rest self.now) pass.old }
        requires other { IsPassFor (owner_in_rest self.now) other.now }
        ensures { Learns (owner_in_rest self.now).block pass.old other.now pass.new }
    {
        pass.learn(other);
    }
}

impl<V: Drop, A: Allocator + Copy, const MAX: u64, H: Stepping> CountedBoxWithoutLifetime<
    V,
    A,
    MAX,
    H,
> {
    ghost use Rattle.arc_owners.specs.count.Calls.{IsNewPass};
    ghost use Rattle.arc_owners.specs.memory.Boxes.{owner_in_rest};

    /// A new pass of the block. It has seen at least the entry that made this owner, and nothing
    /// was made with it. It adds no entry and takes no memory.
    pub fn pass(&self) -> Pass<H>
        ensures { IsNewPass (owner_in_rest self.now) result }
    {
        self.share.pass()
    }
}
