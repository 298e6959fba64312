//! Items that are plain data.
ghost use Rattle.std.specs.Prelude.{◌≡◌, false, refl};
ghost use Rattle.arc_buffer.specs.Slice.{anywhere};
ghost use Rattle.arc_buffer.specs.Laws.{anywhere_at_ends};

use super::zero_item::ZeroItem;
use super::{
    AnyItems, Concatenable, CopySlice, Emptyable, Extendable, Shareable, Slice, Subsliceable,
    Zeroable,
};
use std::convert::Infallible;
use std::marker::PhantomData;

/// Items that are plain data: each list is legal, and may be cut anywhere.
#[derive(Clone, Copy, Debug, PartialEq, Eq)]
pub struct Plain<T> {
    of: PhantomData<T>,
}

impl<T: Copy + Drop> Slice for Plain<T> {
    type Item = T;

    type TryFromSliceError = Infallible;

    ghost DROPS = { false };

    const DROPS: bool = false;

    ghost is_legal = { λ _. Unit {0} };

    ghost is_refused = { λ _ _. ⊥ };

    fn try_from_slice(items: &[T]) -> Result<(), Infallible> {
        let _ = items;
        Ok(())
    }
}

impl<T: Copy + Drop> Emptyable for Plain<T> {
    ghost empty_is_legal = { tt };
}

impl<T: Copy + Drop> Subsliceable for Plain<T> {
    ghost boundary = { anywhere };

    fn is_boundary(items: &[T], at: usize) -> bool {
        let _ = items;
        let _ = at;
        true
    }

    ghost ends_are_edges = { λ xs _. anywhere_at_ends xs };

    ghost range_edges = { λ _ _ _ _ _ _ _. refl };

    ghost range_is_legal = { λ _ _ _ _ _. tt };
}

impl<T: Copy + Drop> Concatenable for Plain<T> {
    ghost both_are_legal = { λ _ _ _ _. tt };
}

impl<T: Copy + Drop> Extendable for Plain<T> {
    ghost more_is_legal = { λ _ _ _. tt };
}

impl<T: Copy + Drop> AnyItems for Plain<T> {
    ghost all_are_legal = { λ _. tt };
}

impl<T: Copy + Drop> CopySlice for Plain<T> {}

impl<T: Copy + Drop> Shareable for Plain<T> {
    ghost drops_none = { refl };
}

impl<T: ZeroItem + Drop> Zeroable for Plain<T> {
    ghost zero_item = { T.zero_item };

    fn zero() -> T {
        T::zero()
    }

    ghost zeros_are_legal = { λ _. tt };
}
