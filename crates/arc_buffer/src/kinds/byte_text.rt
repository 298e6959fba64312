//! Bytes that are text by convention.
ghost use Rattle.std.specs.Prelude.{false, refl};
ghost use Rattle.arc_buffer.specs.Slice.{anywhere};
ghost use Rattle.arc_buffer.specs.Laws.{anywhere_at_ends};

use super::{
    AnyItems, Concatenable, CopySlice, Emptyable, Extendable, Shareable, Slice, Subsliceable,
    Zeroable,
};
use std::convert::Infallible;

/// Bytes that are text by convention: each list is legal, and may be cut anywhere.
#[derive(Clone, Copy, Debug, PartialEq, Eq)]
pub struct ByteText;

impl Slice for ByteText {
    type Item = u8;

    type TryFromSliceError = Infallible;

    ghost DROPS = { false };

    const DROPS: bool = false;

    ghost is_legal = { λ _. Unit {0} };

    ghost is_refused = { λ _ _. ⊥ };

    fn try_from_slice(items: &[u8]) -> Result<(), Infallible> {
        let _ = items;
        Ok(())
    }
}

impl Emptyable for ByteText {
    ghost empty_is_legal = { tt };
}

impl Subsliceable for ByteText {
    ghost boundary = { anywhere };

    fn is_boundary(items: &[u8], at: usize) -> bool {
        let _ = items;
        let _ = at;
        true
    }

    ghost ends_are_edges = { λ xs _. anywhere_at_ends xs };

    ghost range_edges = { λ _ _ _ _ _ _ _. refl };

    ghost range_is_legal = { λ _ _ _ _ _. tt };
}

impl Concatenable for ByteText {
    ghost both_are_legal = { λ _ _ _ _. tt };
}

impl Extendable for ByteText {
    ghost more_is_legal = { λ _ _ _. tt };
}

impl AnyItems for ByteText {
    ghost all_are_legal = { λ _. tt };
}

impl CopySlice for ByteText {}

impl Shareable for ByteText {
    ghost drops_none = { refl };
}

impl Zeroable for ByteText {
    ghost zero_item = { 0 };

    fn zero() -> u8 {
        0
    }

    ghost zeros_are_legal = { λ _. tt };
}
