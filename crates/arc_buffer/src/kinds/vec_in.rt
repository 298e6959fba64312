//! The vectors and boxes of a kind.
ghost use Rattle.std.specs.Prelude.{◌≡◌, ◌↔◌, List};
ghost use Rattle.std.specs.String.{string_bytes};
ghost use Rattle.std.specs.Box.{boxed_slice_items, boxed_str_bytes};
ghost use Rattle.std.specs.declared.vec.Vec.{Vec};
ghost use Rattle.std.specs.declared.boxed.BoxedSlice.{BoxedSlice};
ghost use Rattle.std.specs.Vec.{vec_items};
ghost use Rattle.std.proofs.Common.{ap};
ghost use Rattle.std.proofs.lemmas.Str.{IsUtf8-had};
ghost use Rattle.bstr.specs.Owned.{bstring_bytes};

use super::{ByteText, Owned, Plain, Slice, Text, Wraps};
use bstr::BString;
use std::alloc::{Allocator, Global};
use std::boxed::{BoxedSlice, BoxedStr};

/// Kinds that have a vector and a box of their own over an allocator: all of them, but `ByteText`
/// only over `Global`.
pub trait VecIn<A: Allocator>: Slice {
    /// A vector of the kind.
    type Vec: Wraps<Vec<Self::Item, A>>;

    /// A box of the kind.
    type Boxed: Wraps<BoxedSlice<Self::Item, A>>;

    /// The items of a vector.
    ghost list_in_vec: { Self.Vec → List Self.Item };

    /// The items of a box.
    ghost list_in_boxed: { Self.Boxed → List Self.Item };

    /// A vector has the items of the one that it wraps.
    ghost vec_list: { (v : Self.Vec) (inner : Vec Self.Item A)
        → Self.Vec.wraps v inner → inner.items ≡ list_in_vec v };

    /// A vector may wrap exactly the vectors with a legal list.
    ghost vec_legal: { (inner : Vec Self.Item A)
        → Self.Vec.may_wrap inner ↔ Self.is_legal inner.items };

    /// A box has the items of the one that it wraps.
    ghost boxed_list: { (b : Self.Boxed) (inner : BoxedSlice Self.Item A)
        → Self.Boxed.wraps b inner → boxed_slice_items inner ≡ list_in_boxed b };

    /// A box may wrap exactly the boxes with a legal list.
    ghost boxed_legal: { (inner : BoxedSlice Self.Item A)
        → Self.Boxed.may_wrap inner ↔ Self.is_legal (boxed_slice_items inner) };

    /// A truncated proof that a list is legal gives the proof itself.
    ghost legal_is_fact: { (xs : List Self.Item) → ∥ Self.is_legal xs ∥₁ → Self.is_legal xs };
}

impl<T: Copy + Drop, A: Allocator> VecIn<A> for Plain<T> {
    type Vec = Vec<T, A>;

    type Boxed = BoxedSlice<T, A>;

    ghost list_in_vec = { vec_items };

    ghost list_in_boxed = { boxed_slice_items };

    ghost vec_list = { λ _ _ same. ap vec_items same };

    ghost vec_legal = { λ _. (λ legal. legal, λ legal. legal) };

    ghost boxed_list = { λ _ _ same. ap boxed_slice_items same };

    ghost boxed_legal = { λ _. (λ legal. legal, λ legal. legal) };

    ghost legal_is_fact = { λ _ _. tt };
}

impl<T: Drop, A: Allocator> VecIn<A> for Owned<T> {
    type Vec = Vec<T, A>;

    type Boxed = BoxedSlice<T, A>;

    ghost list_in_vec = { vec_items };

    ghost list_in_boxed = { boxed_slice_items };

    ghost vec_list = { λ _ _ same. ap vec_items same };

    ghost vec_legal = { λ _. (λ legal. legal, λ legal. legal) };

    ghost boxed_list = { λ _ _ same. ap boxed_slice_items same };

    ghost boxed_legal = { λ _. (λ legal. legal, λ legal. legal) };

    ghost legal_is_fact = { λ _ _. tt };
}

impl<A: Allocator> VecIn<A> for Text {
    type Vec = String<A>;

    type Boxed = BoxedStr<A>;

    ghost list_in_vec = { string_bytes };

    ghost list_in_boxed = { boxed_str_bytes };

    ghost vec_list = { λ _ _ same. ap vec_items same };

    ghost vec_legal = { λ _. (λ legal. legal, λ legal. legal) };

    ghost boxed_list = { λ _ _ same. same };

    ghost boxed_legal = { λ _. (λ legal. legal, λ legal. legal) };

    ghost legal_is_fact = { λ xs had. IsUtf8-had xs had };
}

impl VecIn<Global> for ByteText {
    type Vec = BString;

    type Boxed = BoxedSlice<u8>;

    ghost list_in_vec = { bstring_bytes };

    ghost list_in_boxed = { boxed_slice_items };

    ghost vec_list = { λ _ _ same. same };

    ghost vec_legal = { λ _. (λ legal. legal, λ legal. legal) };

    ghost boxed_list = { λ _ _ same. ap boxed_slice_items same };

    ghost boxed_legal = { λ _. (λ legal. legal, λ legal. legal) };

    ghost legal_is_fact = { λ _ _. tt };
}
