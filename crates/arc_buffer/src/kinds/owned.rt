//! Items that are moved, and dropped one by one.
ghost use Rattle.std.specs.Prelude.{true, refl};
ghost use Rattle.arc_buffer.specs.Slice.{anywhere};
ghost use Rattle.arc_buffer.specs.Laws.{anywhere_at_ends};

use super::{AnyItems, Concatenable, Emptyable, Extendable, Slice, Subsliceable};
use std::convert::Infallible;
use std::marker::PhantomData;

/// Items of any type: each list is legal, and may be cut anywhere. A block counts how many of its
/// places are full, and each item is dropped with the block.
#[derive(Clone, Copy, Debug, PartialEq, Eq)]
pub struct Owned<T> {
    of: PhantomData<T>,
}

impl<T: Drop> Slice for Owned<T> {
    type Item = T;

    type TryFromSliceError = Infallible;

    ghost DROPS = { true };

    const DROPS: bool = true;

    ghost is_legal = { λ _. Unit {0} };

    ghost is_refused = { λ _ _. ⊥ };

    fn try_from_slice(items: &[T]) -> Result<(), Infallible> {
        let _ = items;
        Ok(())
    }
}

impl<T: Drop> Emptyable for Owned<T> {
    ghost empty_is_legal = { tt };
}

impl<T: Drop> Subsliceable for Owned<T> {
    ghost boundary = { anywhere };

    fn is_boundary(items: &[T], at: usize) -> bool {
        let _ = items;
        let _ = at;
        true
    }

    ghost ends_are_edges = { λ xs _. anywhere_at_ends xs };

    ghost range_edges = { λ _ _ _ _ _ _ _. refl };

    ghost range_is_legal = { λ _ _ _ _ _. tt };
}

impl<T: Drop> Concatenable for Owned<T> {
    ghost both_are_legal = { λ _ _ _ _. tt };
}

impl<T: Drop> Extendable for Owned<T> {
    ghost more_is_legal = { λ _ _ _. tt };
}

impl<T: Drop> AnyItems for Owned<T> {
    ghost all_are_legal = { λ _. tt };
}
