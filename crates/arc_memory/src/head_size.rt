//! How large a header is.
ghost use Rattle.std.specs.Prelude.{◌≡◌, ℕ};
ghost use Rattle.std.specs.Coded.{coded×, coded_ℕ};
ghost use base.Fml.{feq};
ghost use Rattle.arc_memory.specs.Pieces.{head_size};

use std::marker::{Model, PhantomData};

/// How large a header of type X is, and to how many bytes it is aligned. It has no bytes.
#[derive(Drop)]
pub struct HeadSize<X> {
    pub(crate) marker: PhantomData<X>,
    pub ghost size: { ℕ × ℕ } by { coded× coded_ℕ coded_ℕ },
}

impl<X> Model for HeadSize<X> {
    ghost also_owns = { λ h. feq (ℕ × ℕ) h.size (head_size X.row) };

    ghost also_shares = { λ h _ κ. feq (ℕ × ℕ) h.size (head_size X.row) };
}

impl<X> HeadSize<X> {
    /// The size of such a header.
    pub fn new() -> HeadSize<X>
        ensures { result.size ≡ head_size X.row }
    {
        HeadSize {
            marker: PhantomData,
        }
    }

    /// A copy of it.
    pub fn again(&self) -> HeadSize<X>
        ensures { result.size ≡ self.now.size }
    {
        let _ = self;
        HeadSize {
            marker: PhantomData,
        }
    }
}

// It is a number.
unsafe impl<X> Send for HeadSize<X> {}

unsafe impl<X> Sync for HeadSize<X> {}
