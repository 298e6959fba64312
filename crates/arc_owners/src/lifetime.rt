//! A lifetime for which memory is lent.
ghost use Rattle.std.specs.Prelude.{◌≡◌, ℕ, [], ◌∷◌};
ghost use base.Fraction.{full_share, left, right};
ghost use base.Fml.{Share, flft, fdead, fshr_bor};
ghost use base.SetCodes.{coded_share};

use std::marker::{Model, PhantomData};

/// A share of a lifetime, which lasts at least as long as the share is kept. It has no bytes, and
/// is neither copied nor dropped.
pub struct LifetimeToken {
    pub marker: PhantomData<()>,
    pub ghost lifetime: { ℕ },
    pub ghost share: { Share } by { coded_share },
}

impl Model for LifetimeToken {
    ghost also_owns = { λ t. flft (t.lifetime ∷ []) t.share };

    ghost also_shares = { λ t _ κ. fshr_bor κ (λ q. flft (t.lifetime ∷ []) q) };
}

/// That a lifetime has ended. What was lent for it comes back. It has no bytes.
pub struct EndedLifetime {
    pub marker: PhantomData<()>,
    pub ghost lifetime: { ℕ },
}

impl Model for EndedLifetime {
    ghost also_owns = { λ e. fdead (e.lifetime ∷ []) };
}

impl LifetimeToken {
    /// A new lifetime, all of it.
    pub fn new() -> LifetimeToken
        ensures { result.share ≡ full_share }
    {
        LifetimeToken {
            marker: PhantomData,
        }
    }

    /// Two halves of the share, for two who each hold what is lent.
    pub fn split(self) -> (LifetimeToken, LifetimeToken)
        ensures lifetime { (result.0.lifetime ≡ self.lifetime)
            × (result.1.lifetime ≡ self.lifetime) }
        ensures halves { (result.0.share ≡ left self.share)
            × (result.1.share ≡ right self.share) }
    {
        let LifetimeToken { marker: _ } = self;
        (
            LifetimeToken {
                marker: PhantomData,
            },
            LifetimeToken {
                marker: PhantomData,
            },
        )
    }

    /// The share of which these are the halves.
    pub fn join(self, other: LifetimeToken) -> LifetimeToken
        ghost whole: { Share }
        requires lifetime { other.lifetime ≡ self.lifetime }
        requires halves { (self.share ≡ left whole) × (other.share ≡ right whole) }
        ensures { (result.lifetime ≡ self.lifetime) × (result.share ≡ whole) }
    {
        let LifetimeToken { marker: _ } = self;
        let LifetimeToken { marker } = other;
        LifetimeToken { marker }
    }

    /// Ends the lifetime. Nobody else has a share of it.
    pub fn end(self) -> EndedLifetime
        requires { self.share ≡ full_share }
        ensures { result.lifetime ≡ self.lifetime }
    {
        let LifetimeToken { marker } = self;
        EndedLifetime { marker }
    }
}

impl EndedLifetime {
    /// Drops the proof, where nothing is lent that has to come back.
    pub fn forget(self) {
        let EndedLifetime { marker: _ } = self;
    }

    /// The proof twice, where two things come back.
    pub fn again(self) -> (EndedLifetime, EndedLifetime)
        ensures { (result.0.lifetime ≡ self.lifetime) × (result.1.lifetime ≡ self.lifetime) }
    {
        let EndedLifetime { marker: _ } = self;
        (
            EndedLifetime {
                marker: PhantomData,
            },
            EndedLifetime {
                marker: PhantomData,
            },
        )
    }
}

unsafe impl Send for LifetimeToken {}

unsafe impl Sync for LifetimeToken {}

unsafe impl Send for EndedLifetime {}
