//! What a table's commands need of a kind, beside what all its kinds have.
ghost use Rattle.std.specs.Prelude.{◌≡◌, ◌≤◌, Bool, List, Option, Some, None, true, false, is_some};
ghost use Rattle.std.specs.Prelude.{IfNone, IfOk, IfSome, OnErr, refl, replicate};
ghost use Rattle.std.specs.Vec.{vec_items};
ghost use Rattle.std.specs.String.{string_bytes};
ghost use Rattle.std.specs.declared.vec.Vec.{Vec};
ghost use Rattle.std.specs.Box.{boxed_slice_items, boxed_str_bytes};
ghost use Rattle.std.specs.declared.boxed.BoxedSlice.{BoxedSlice};
ghost use Rattle.std.proofs.Common.{ap};
ghost use Rattle.std.proofs.lemmas.Bool.{false≢true};
ghost use Rattle.std.proofs.lemmas.Str.{IsUtf8-had};
ghost use Rattle.arc_owners.specs.count.Calls.{IsPassOfNone};
ghost use Rattle.arc_parts.specs.Writers.{MakesWriter};
ghost use Rattle.arc_commands.specs.Kinds.{Kind, calls_of, has_zero};
ghost use Rattle.arc_commands.specs.Kinds.{byte_text_kind, owned_kind, plain_kind, text_kind};

use arc_block::layout::LayoutMut;
use arc_block::static_slice::StaticSlice;
use arc_buffer::buffer::BufferMut;
use arc_buffer::kinds::{
    ByteText, Emptyable, Owned, Plain, Slice, Subsliceable, Text, Wraps, Zeroable,
};
use arc_commands::command::{Carries, Cmd, Gives, Reply};
use arc_owners::error::AllocError;
use arc_owners::mark::Whole;
use arc_owners::owners::Pass;
use arc_write::slice_mut::ArcSliceMut;
pub use calls::{AllCalls, CallsOf, OwnedCalls, TextCalls};
pub use setting::TableUnder;
pub use smalls::{HasSmall, NoSmall, SmallKind, SmallOf, SmallWindow, Smalls};
use std::alloc::Allocator;
use std::boxed::{BoxedSlice, BoxedStr};
use std::sync::Arc;

/// A kind that a table's windows may have. It says whether there are small windows of it, and
/// windows of several writers.
pub trait TableKind: Subsliceable {
    /// Whether several may write one block.
    ghost SHARES: { Bool };

    /// `HasSmall` where the kind has small windows, else `NoSmall`.
    type Small: Smalls;

    /// The kind of its small windows: itself where it has some, else any of bytes.
    type Bytes: Emptyable<Item = u8>;
}

/// The kinds that a table over A may have: what its commands bring, and which of the calls that not
/// all kinds have each of them has.
pub trait Commands<A: Allocator>: Emptyable + TableKind {
    /// A list that a command brings, and a vector that is taken back: a `String` of `Text`, a `Vec`
    /// of the others.
    type Items: Wraps<Vec<Self::Item, A>> + Drop;

    /// A box that is taken back: a `BoxedStr` of `Text`, a `BoxedSlice` of the others.
    type Boxed: Wraps<BoxedSlice<Self::Item, A>> + Drop;

    /// A `'static` slice: a `&'static str` of `Text`, a `StaticSlice` of the others.
    type Static: Drop;

    /// `HasZero` where the kind has a zero, else `NoZero`.
    type Zero: ZeroOf<Self>;

    /// Its calls.
    type Calls: CallsOf<Self>;

    /// Which of the four kinds it is.
    ghost kind: { Kind };

    /// The items of a list that a command brings.
    ghost items_in: { Self.Items → List Self.Item };

    /// The items of a box.
    ghost items_in_box: { Self.Boxed → List Self.Item };

    /// The items of a `'static` slice.
    ghost static_in: { Self.Static → List Self.Item };

    /// A `'static` slice, as one of items.
    fn lasting(items: Self::Static) -> StaticSlice<Self::Item>
        ensures list { result ≡ static_in items }
        ensures legal { ∥ Self.is_legal result ∥₁ };

    /// A list has the items of the vector that it wraps.
    ghost items_are: { (items : Self.Items) (inner : Vec Self.Item A)
        → Self.Items.wraps items inner → inner.items ≡ items_in items };

    /// A list wraps only vectors of a legal list.
    ghost items_legal: { (inner : Vec Self.Item A)
        → Self.Items.may_wrap inner → Self.is_legal inner.items };

    /// A list may wrap each vector of a legal list.
    ghost items_wrap: { (inner : Vec Self.Item A)
        → Self.is_legal inner.items → Self.Items.may_wrap inner };

    /// A box has the items of the one that it wraps.
    ghost box_items_are: { (items : Self.Boxed) (inner : BoxedSlice Self.Item A)
        → Self.Boxed.wraps items inner → boxed_slice_items inner ≡ items_in_box items };

    /// A box may wrap each box of a legal list.
    ghost box_wraps: { (inner : BoxedSlice Self.Item A)
        → Self.is_legal (boxed_slice_items inner) → Self.Boxed.may_wrap inner };

    /// Each list is legal where its calls say so.
    ghost any_is_legal: { Self.Calls.calls.any_list ≡ true → (xs : List Self.Item)
        → Self.is_legal xs };

    /// A truncated proof that a list is legal gives the proof itself.
    ghost legal_is_fact: { (xs : List Self.Item) → ∥ Self.is_legal xs ∥₁ → Self.is_legal xs };

    /// Its calls say whether it has small windows.
    ghost small_is: { Self.Calls.calls.small ≡ Self.Small.small };

    /// Its calls say whether several writers may write one block.
    ghost shares_is: { Self.Calls.calls.shares ≡ Self.SHARES };

    /// Its calls are those of that kind.
    ghost calls_are: { Self.Calls.calls ≡ calls_of kind Self.Small.small };

    /// It has a zero where that kind has one.
    ghost zero_is: { is_some Self.Zero.zero ≡ has_zero kind (is_some Self.Zero.zero) };
}

/// A command on a table of windows of kind S, with callers' buffers B, metadata M, and A for
/// vectors.
pub type TableCmd<S, B, M, A> = Cmd<
    Carries<<S as Commands<A>>::Items, <S as Commands<A>>::Static, B, M, <S as Slice>::Item>,
>;

/// The reply of a table of windows of kind S, with callers' buffers B, metadata M, and A for
/// vectors and boxes.
pub type TableReply<S, B, M, A> = Reply<
    Gives<
        Vec<<S as Slice>::Item, A>,
        <S as Commands<A>>::Items,
        <S as Commands<A>>::Boxed,
        B,
        Arc<B, A>,
        StaticSlice<<S as Slice>::Item>,
        M,
    >,
>;

/// The reply of such a table that lends the items of a `Show`.
pub type LentReply<'a, S, B, M, A> = Reply<
    Gives<
        &'a [<S as Slice>::Item],
        <S as Commands<A>>::Items,
        <S as Commands<A>>::Boxed,
        B,
        Arc<B, A>,
        StaticSlice<<S as Slice>::Item>,
        M,
    >,
>;

/// The vector of a list that a command brings. Takes no memory.
pub fn vec_of<S: Commands<A>, A: Allocator>(items: S::Items) -> Vec<S::Item, A>
    ensures list { result.items ≡ S.items_in items }
    ensures legal { ∥ S.is_legal result.items ∥₁ }
{
    items.into_inner()
}

/// A vector that is taken back, of a legal list. Takes no memory.
pub fn items_of<S: Commands<A>, A: Allocator>(items: Vec<S::Item, A>) -> S::Items
    requires { ∥ S.is_legal items.items ∥₁ }
    ensures list { S.items_in result ≡ items.items }
    ensures wraps { S.Items.wraps result items }
{
    S::Items::from_inner(items)
}

/// A vector of a legal list as a box that is taken back.
pub fn box_of<S: Commands<A>, A: Allocator>(items: Vec<S::Item, A>) -> S::Boxed
    requires { ∥ S.is_legal items.items ∥₁ }
    ensures { S.items_in_box result ≡ items.items }
{
    S::Boxed::from_inner(items.into_boxed_slice())
}

/// Each list is legal, where the kind's calls say so. Does nothing: its contract is the law.
pub fn known_legal<S: Commands<A>, A: Allocator>()
    requires { S.Calls.calls.any_list ≡ true }
    ensures { (xs : List S.Item) → ∥ S.is_legal xs ∥₁ }
{}

/// Several write one block of a kind where its calls say so. Does nothing: its contract is the law.
pub fn known_shares<S: Commands<A>, A: Allocator>()
    ensures { S.Calls.calls.shares ≡ S.SHARES }
{}

/// A kind has small windows where its calls say so. Does nothing: its contract is the law.
pub fn known_small<S: Commands<A>, A: Allocator>()
    ensures { S.Calls.calls.small ≡ S.Small.small }
{}

/// Items of `Plain` that a table may have. A type without a zero becomes one by `impl TableItem for
/// Type { type Zero = NoZero; type Small = NoSmall; }`.
pub trait TableItem: Copy + Drop {
    /// `HasZero` where the type has a zero, else `NoZero`.
    type Zero: ZeroOf<Plain<Self>>;

    /// `HasSmall` of bytes, else `NoSmall`.
    type Small: Smalls;
}

/// Whether a kind S has a zero, and so windows over zeros.
pub trait ZeroOf<S: Slice> {
    /// The zero, if there is one.
    ghost zero: { Option S.Item };

    /// Whether the kind has a zero.
    fn has_zero() -> bool
        ensures { result ≡ is_some zero };

    /// A window that is written, over `count` zeros, as `ArcSliceMut::try_zeroed_as` makes it, or
    /// `None` where the kind has no zero.
    ///
    /// # Errors
    ///
    /// `AllocError` where memory for the block is refused; the pass is then as before.
    ///
    /// # Allocates
    ///
    /// Once, except for no zeros.
    ///
    /// # History
    ///
    /// Where a block is made its history begins, with the window as owner 0.
    fn try_zeroed_as<L: LayoutMut, B: BufferMut<S::Item> + Drop, M: Drop, A: Allocator + Copy>(
        alloc: A,
        count: usize,
        pass: &mut Pass<Whole>,
    ) -> Option<Result<ArcSliceMut<S, L, 1, B, M, A, Whole>, AllocError>>
        requires { IsPassOfNone pass.old }
        ensures zero { is_some result ≡ is_some zero }
        ensures made { IfSome zero (λ item. IfSome result (λ made. IfOk made (λ window.
            MakesWriter S.DROPS true (replicate count item) count window pass.old pass.new))) }
        ensures refused { IfSome result (λ made. OnErr made ((1 ≤ count)
            × (pass.new ≡ pass.old))) }
        ensures none { IfNone result (pass.new ≡ pass.old) };
}

/// The kind has a zero.
pub struct HasZero;

/// The kind has no zero.
pub struct NoZero;

impl<S: Slice> ZeroOf<S> for NoZero {
    ghost zero = { None };

    fn has_zero() -> bool {
        false
    }

    fn try_zeroed_as<L: LayoutMut, B: BufferMut<S::Item> + Drop, M: Drop, A: Allocator + Copy>(
        alloc: A,
        count: usize,
        pass: &mut Pass<Whole>,
    ) -> Option<Result<ArcSliceMut<S, L, 1, B, M, A, Whole>, AllocError>> {
        let _ = alloc;
        let _ = count;
        let _ = pass;
        None
    }
}

impl<S: Zeroable> ZeroOf<S> for HasZero
where
    S::Item: Copy,
{
    ghost zero = { Some S.zero_item };

    fn has_zero() -> bool {
        true
    }

    fn try_zeroed_as<L: LayoutMut, B: BufferMut<S::Item> + Drop, M: Drop, A: Allocator + Copy>(
        alloc: A,
        count: usize,
        pass: &mut Pass<Whole>,
    ) -> Option<Result<ArcSliceMut<S, L, 1, B, M, A, Whole>, AllocError>> {
        Some(ArcSliceMut::try_zeroed_as(alloc, count, pass))
    }
}

impl<T: TableItem> TableKind for Plain<T> {
    ghost SHARES = { true };

    type Small = T::Small;

    type Bytes = Plain<u8>;
}

impl TableKind for ByteText {
    ghost SHARES = { true };

    type Small = HasSmall;

    type Bytes = ByteText;
}

impl TableKind for Text {
    ghost SHARES = { true };

    type Small = HasSmall;

    type Bytes = Text;
}

impl<T: Drop> TableKind for Owned<T> {
    ghost SHARES = { false };

    type Small = NoSmall;

    type Bytes = Plain<u8>;
}

impl<T: TableItem, A: Allocator> Commands<A> for Plain<T> {
    type Items = Vec<T, A>;

    type Boxed = BoxedSlice<T, A>;

    type Static = StaticSlice<T>;

    type Zero = T::Zero;

    type Calls = AllCalls<T::Small>;

    ghost kind = { plain_kind };

    ghost items_in = { vec_items };

    ghost items_in_box = { boxed_slice_items };

    ghost static_in = { λ items. items };

    fn lasting(items: StaticSlice<T>) -> StaticSlice<T> {
        items
    }

    ghost items_are = { λ _ _ same. ap vec_items same };

    ghost items_legal = { λ _ legal. legal };

    ghost items_wrap = { λ _ legal. legal };

    ghost box_items_are = { λ _ _ same. ap boxed_slice_items same };

    ghost box_wraps = { λ _ legal. legal };

    ghost any_is_legal = { λ _ _. tt };

    ghost legal_is_fact = { λ _ _. tt };

    ghost small_is = { refl };

    ghost shares_is = { refl };

    ghost calls_are = { refl };

    ghost zero_is = { refl };
}

impl<A: Allocator> Commands<A> for ByteText {
    type Items = Vec<u8, A>;

    type Boxed = BoxedSlice<u8, A>;

    type Static = StaticSlice<u8>;

    type Zero = HasZero;

    type Calls = AllCalls<HasSmall>;

    ghost kind = { byte_text_kind };

    ghost items_in = { vec_items };

    ghost items_in_box = { boxed_slice_items };

    ghost static_in = { λ items. items };

    fn lasting(items: StaticSlice<u8>) -> StaticSlice<u8> {
        items
    }

    ghost items_are = { λ _ _ same. ap vec_items same };

    ghost items_legal = { λ _ legal. legal };

    ghost items_wrap = { λ _ legal. legal };

    ghost box_items_are = { λ _ _ same. ap boxed_slice_items same };

    ghost box_wraps = { λ _ legal. legal };

    ghost any_is_legal = { λ _ _. tt };

    ghost legal_is_fact = { λ _ _. tt };

    ghost small_is = { refl };

    ghost shares_is = { refl };

    ghost calls_are = { refl };

    ghost zero_is = { refl };
}

impl<A: Allocator> Commands<A> for Text {
    type Items = String<A>;

    type Boxed = BoxedStr<A>;

    type Static = &'static str;

    type Zero = HasZero;

    type Calls = TextCalls;

    ghost kind = { text_kind };

    ghost items_in = { string_bytes };

    ghost items_in_box = { boxed_str_bytes };

    ghost static_in = { λ text. text.now };

    fn lasting(items: &'static str) -> StaticSlice<u8> {
        StaticSlice::new(items.as_bytes())
    }

    ghost items_are = { λ _ _ same. ap vec_items same };

    ghost items_legal = { λ _ legal. legal };

    ghost items_wrap = { λ _ legal. legal };

    ghost box_items_are = { λ _ _ same. same };

    ghost box_wraps = { λ _ legal. legal };

    ghost any_is_legal = { λ is _. absurd (false≢true is) };

    ghost legal_is_fact = { λ xs had. IsUtf8-had xs had };

    ghost small_is = { refl };

    ghost shares_is = { refl };

    ghost calls_are = { refl };

    ghost zero_is = { refl };
}

impl<T: Drop, A: Allocator> Commands<A> for Owned<T> {
    type Items = Vec<T, A>;

    type Boxed = BoxedSlice<T, A>;

    type Static = StaticSlice<T>;

    type Zero = NoZero;

    type Calls = OwnedCalls;

    ghost kind = { owned_kind };

    ghost items_in = { vec_items };

    ghost items_in_box = { boxed_slice_items };

    ghost static_in = { λ items. items };

    fn lasting(items: StaticSlice<T>) -> StaticSlice<T> {
        items
    }

    ghost items_are = { λ _ _ same. ap vec_items same };

    ghost items_legal = { λ _ legal. legal };

    ghost items_wrap = { λ _ legal. legal };

    ghost box_items_are = { λ _ _ same. ap boxed_slice_items same };

    ghost box_wraps = { λ _ legal. legal };

    ghost any_is_legal = { λ _ _. tt };

    ghost legal_is_fact = { λ _ _. tt };

    ghost small_is = { refl };

    ghost shares_is = { refl };

    ghost calls_are = { refl };

    ghost zero_is = { refl };
}

impl TableItem for () {
    type Zero = NoZero;

    type Small = NoSmall;
}

impl TableItem for bool {
    type Zero = NoZero;

    type Small = NoSmall;
}

impl TableItem for char {
    type Zero = NoZero;

    type Small = NoSmall;
}

impl<'a, T> TableItem for &'a T {
    type Zero = NoZero;

    type Small = NoSmall;
}

impl<T: TableItem, U: TableItem> TableItem for (T, U) {
    type Zero = NoZero;

    type Small = NoSmall;
}

impl<T: TableItem, const N: usize> TableItem for [T; N] {
    type Zero = NoZero;

    type Small = NoSmall;
}

mod calls;
mod numbers;
mod setting;
mod smalls;
