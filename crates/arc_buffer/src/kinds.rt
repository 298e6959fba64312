//! Slice kinds: markers that say what a window's items are, and which lists of them are legal.
ghost use Rattle.std.specs.Prelude.{◌≡◌, ℕ, ◌+◌, ◌≤◌, ◌↔◌, ◌==◌, if◌then◌else◌, Bool, IsOk, IfErr};
ghost use Rattle.std.specs.Prelude.{false};
ghost use Rattle.std.specs.Prelude.{List, [], ◌∷◌, ◌++◌, replicate, length};
ghost use Rattle.std.specs.Mem.{type_size};
ghost use Rattle.arc_buffer.specs.Slice.{IsEdge, IsRange, sub};

use arc_owners::sizes::type_bytes;
pub use byte_text::ByteText;
pub use debug::{DebugItem, DebugSlice};
pub use owned::Owned;
pub use plain::Plain;
pub use text::{Text, cuts_into_texts};
pub use vec_in::VecIn;
pub use wraps::Wraps;
pub use zero_item::ZeroItem;

mod byte_text;
mod debug;
mod owned;
mod plain;
mod text;
mod vec_in;
mod wraps;
mod zero_item;

/// A kind of slice: the type of a window's items, and which lists of them are legal.
pub trait Slice {
    /// The items.
    type Item: Drop;

    /// Why a list isn't legal.
    type TryFromSliceError: Drop;

    /// Whether items have to be dropped one by one, so that a block counts its full places.
    ghost DROPS: { Bool };

    /// Whether items have to be dropped one by one, so that a block counts its full places: true
    /// for `Owned` alone.
    const DROPS: bool;

    /// Which lists are legal.
    ghost is_legal: { List Self.Item → Type 0 };

    /// Why a list isn't legal.
    ghost is_refused: { List Self.Item → Self.TryFromSliceError → Type 0 };

    /// Whether the list is legal. It takes no memory.
    ///
    /// # Errors
    ///
    /// Why it isn't, exactly where it isn't.
    fn try_from_slice(items: &[Self::Item]) -> Result<(), Self::TryFromSliceError>
        ensures ok { IsOk result ↔ is_legal items.now }
        ensures refused { IfErr result (λ e. is_refused items.now e) };

    /// How many places a window's first block has at least, where the window grows from nothing: 8
    /// where an item is one byte, else 4.
    fn first() -> usize
        ensures { result ≡ (if type_size Self.Item.row == 1 then 8 else 4) }
    {
        if type_bytes::<Self::Item>() == 1 {
            8
        } else {
            4
        }
    }
}

/// Kinds that have an empty window: all.
pub trait Emptyable: Slice {
    /// The empty list is legal.
    ghost empty_is_legal: { Self.is_legal [] };
}

/// Kinds whose windows can be cut: all.
pub trait Subsliceable: Slice {
    /// Whether a list may be cut at a place.
    ghost boundary: { List Self.Item → ℕ → Bool };

    /// Whether the list may be cut at `at`, which is at most its length.
    fn is_boundary(items: &[Self::Item], at: usize) -> bool
        requires { at ≤ length items.now }
        ensures { result ≡ boundary items.now at };

    /// A legal list may be cut at both ends.
    ghost ends_are_edges: { (xs : List Self.Item) → Self.is_legal xs
        → IsEdge boundary xs 0 × IsEdge boundary xs (length xs) };

    /// A range may be cut where the list may.
    ghost range_edges: { (xs : List Self.Item) (start end at : ℕ) → Self.is_legal xs
        → IsRange boundary xs start end
        → start + at ≤ end → boundary (sub xs start end) at ≡ boundary xs (start + at) };

    /// A range of a legal list is legal.
    ghost range_is_legal: { (xs : List Self.Item) (start end : ℕ)
        → Self.is_legal xs → IsRange boundary xs start end → Self.is_legal (sub xs start end) };
}

/// Kinds whose lists may follow one another: all.
pub trait Concatenable: Slice {
    /// A legal list, followed by a legal list, is legal.
    ghost both_are_legal: { (xs ys : List Self.Item) → Self.is_legal xs → Self.is_legal ys
        → Self.is_legal (xs ++ ys) };
}

/// Kinds whose lists may grow by any item: all but `Text`.
pub trait Extendable: Concatenable {
    /// A legal list, followed by an item, is legal.
    ghost more_is_legal: { (xs : List Self.Item) (x : Self.Item) → Self.is_legal xs
        → Self.is_legal (xs ++ x ∷ []) };
}

/// Kinds with a zero: text, byte text, and whole numbers.
pub trait Zeroable: Slice {
    /// The item of a list of zeros.
    ghost zero_item: { Self.Item };

    /// Zero.
    fn zero() -> Self::Item
        ensures { result ≡ zero_item };

    /// A list of zeros is legal.
    ghost zeros_are_legal: { (n : ℕ) → Self.is_legal (replicate n zero_item) };
}

/// Kinds of which each list is legal: all but `Text`.
pub trait AnyItems: Slice {
    /// Each list is legal.
    ghost all_are_legal: { (xs : List Self.Item) → Self.is_legal xs };
}

/// The kinds `Plain` and `ByteText`, whose items are copied: a window may be made of a copy of any
/// slice of items.
pub trait CopySlice: AnyItems {}

/// The kinds of which several writers may write one block: all but `Owned`, whose full places one
/// writer counts.
pub trait Shareable: Slice {
    /// Items don't have to be dropped one by one.
    ghost drops_none: { Self.DROPS ≡ false };
}
