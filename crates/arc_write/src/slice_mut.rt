//! `WriteWindow`, a window that is written, and `ArcSliceMut`, its name by the writer's role.
ghost use Rattle.std.specs.Prelude.{◌≡◌, [], List, None, false, true};
ghost use Rattle.arc_block.specs.LayoutFacts.{layout_facts};
ghost use Rattle.arc_block.specs.Place.{given_at, IsOnBlock};
ghost use Rattle.arc_parts.specs.Steps.{EndsShownAt};
ghost use Rattle.arc_parts.specs.Window.{IsBlockHeld};
ghost use Rattle.arc_parts.specs.Writers.{capacity_of, idle_writer, with_items, with_written};
ghost use Rattle.arc_writer_parts.specs.Roles.{HasWritersRole, StandsAsWriter};

use arc_block::layout::{DefaultLayoutMut, LayoutMut};
use arc_buffer::buffer::BufferMut;
use arc_buffer::kinds::{Emptyable, Plain, Slice, Text};
use arc_owners::mark::{Mark, Open};
use arc_writer_parts::role::{Role, RoleOf, WriterParts};
use arc_writer_parts::sole::SoleParts;
pub use into_mut::IntoMut;
use std::alloc::{Allocator, Global};
use std::marker::{Model, PhantomData};

/// A window that is written: a list with a capacity, in places of its block that no other owner
/// reaches. Or it stands on nothing, without items and places.
///
/// `R` is the writer's role: the window is its block's only owner, or one of several writers. `B`
/// is the type of callers' buffers and `M` that of their metadata.
///
/// Each call that makes a block, makes room in it or leaves it has a form that ends in `_as`. It
/// takes a pass of the block, in which contracts read what is added to the block's history. The
/// plain form is that form with a new pass. A window that stands on no block has a pass of none.
/// `try_extend` and `try_from_iter`, which go item by item, and `let_go` have the plain form alone.
///
/// A window under the mark `Open` that is dropped ends with a new pass. One under `Whole` is a
/// forgotten owner of its block.
pub struct WriteWindow<
    S: Slice,
    L: LayoutMut,
    R: RoleOf<S, B, M, A, H>,
    B: BufferMut<<S as Slice>::Item> + Drop = Vec<<S as Slice>::Item>,
    M: Drop = (),
    A: Allocator + Copy = Global,
    H: Mark = Open,
> {
    pub(crate) parts: R::Parts,
    of: PhantomData<L>,
}

/// A write window by its writer's role. Where `UNIQUE` is 1 the window is its block's only owner,
/// and where it is 0 one of several writers. No other number is a role.
pub type ArcSliceMut<
    S,
    L,
    const UNIQUE: u8,
    B = Vec<<S as Slice>::Item>,
    M = (),
    A = Global,
    H = Open,
> = WriteWindow<S, L, Role<UNIQUE>, B, M, A, H>;

/// A window that writes bytes.
pub type ArcBytesMut<L = DefaultLayoutMut, B = Vec<u8>, M = (), A = Global, H = Open> = ArcSliceMut<
    Plain<u8>,
    L,
    1,
    B,
    M,
    A,
    H,
>;

/// A window that writes text, which is always valid UTF-8.
pub type ArcStrMut<L = DefaultLayoutMut, B = Vec<u8>, M = (), A = Global, H = Open> = ArcSliceMut<
    Text,
    L,
    1,
    B,
    M,
    A,
    H,
>;

/// A window of one of several writers, over bytes.
pub type ArcBytesShared<L = DefaultLayoutMut, B = Vec<u8>, M = (), A = Global, H = Open> =
    ArcSliceMut<Plain<u8>, L, 0, B, M, A, H>;

/// A window of one of several writers, over text.
pub type ArcStrShared<L = DefaultLayoutMut, B = Vec<u8>, M = (), A = Global, H = Open> =
    ArcSliceMut<Text, L, 0, B, M, A, H>;

impl<
    S: Slice,
    L: LayoutMut,
    R: RoleOf<S, B, M, A, H>,
    B: BufferMut<S::Item> + Drop,
    M: Drop,
    A: Allocator + Copy,
    H: Mark,
> Model for WriteWindow<S, L, R, B, M, A, H> {
    ghost use Rattle.arc_block.specs.Given.{Given};
    ghost use Rattle.arc_block.specs.LayoutFacts.{layout_facts};
    ghost use Rattle.arc_parts.specs.Window.{PartsView, IsBlockHeld};

    ghost Value = { PartsView S.Item (Given B M) };

    ghost view = { λ w. R.Parts.seen w.parts };

    ghost invariant = { λ w. IsBlockHeld (layout_facts L.Layout) (R.Parts.seen w.parts).place
        × ∥ S.is_legal (R.Parts.seen w.parts).items ∥₁ };
}

impl<
    S: Slice,
    L: LayoutMut,
    R: RoleOf<S, B, M, A, H>,
    B: BufferMut<S::Item> + Drop,
    M: Drop,
    A: Allocator + Copy,
    H: Mark,
> Drop for WriteWindow<S, L, R, B, M, A, H> {
    #[inline(always)]
    fn drop(self)
        ensures ended { H.whole ≡ false → EndsShownAt H H.real self.place }
    {
        let WriteWindow { parts, of: _ } = self;
        parts.end();
    }
}

impl<
    S: Slice,
    L: LayoutMut,
    R: RoleOf<S, B, M, A, H>,
    B: BufferMut<S::Item> + Drop,
    M: Drop,
    A: Allocator + Copy,
    H: Mark,
> WriteWindow<S, L, R, B, M, A, H> {
    /// The window that is made of these parts: their list is legal for the kind, and they stand on
    /// nothing, or on a block that the layout holds. It adds no entry.
    #[inline(always)]
    pub fn from_parts(parts: R::Parts) -> Self
        requires held { IsBlockHeld (layout_facts L.Layout) (R.Parts.seen parts).place }
        requires legal { ∥ S.is_legal (R.Parts.seen parts).items ∥₁ }
        ensures { result ≡ R.Parts.seen parts }
    {
        WriteWindow {
            parts,
            of: PhantomData,
        }
    }

    /// What the window is made of. It adds no entry.
    #[inline(always)]
    pub fn into_parts(self) -> R::Parts
        ensures parts { R.Parts.seen result ≡ self }
        ensures held { IsBlockHeld (layout_facts L.Layout) (R.Parts.seen result).place }
        ensures legal { ∥ S.is_legal (R.Parts.seen result).items ∥₁ }
    {
        let WriteWindow { parts, of: _ } = self;
        parts
    }

    /// The window stands on nothing, or on a block that counts its owners and may be written. One
    /// of several writers stands on nothing, on a native block or on a vector. The window's role is
    /// that of `R`. Does nothing: its contract is the law.
    pub fn known_place(&self)
        ensures place { StandsAsWriter R.Parts.several self.now.place }
        ensures role { HasWritersRole R.Parts.several self.now.role }
    {
        self.parts.known_place();
    }

    /// On no block the window has no items and no places. Does nothing: its contract is the law.
    pub fn known_idle(&self)
        ensures items { (¬ IsOnBlock self.now.place) → self.now.items ≡ [] }
        ensures places { (¬ IsOnBlock self.now.place) → capacity_of self.now.role ≡ 0 }
    {
        self.parts.known_idle();
    }

    /// No caller gave what one of several writers stands on. Does nothing: its contract is the law.
    pub fn known_ungiven(&self)
        ensures { R.Parts.several ≡ true → given_at self.now.place ≡ None }
    {
        self.parts.known_ungiven();
    }

    /// One of several writers stays where it stands when its items are written (`as_mut_slice`).
    /// Does nothing: its contract is the law.
    #[tactic(auto, using(crate::proofs::Within::written_in_place))]
    pub fn known_written(&self)
        ensures { R.Parts.several ≡ true → (items : List S.Item)
            → with_written B.with_part self.now items ≡ with_items self.now items }
    {
        self.known_ungiven();
    }

    /// The window stands on nothing, on static data, or on a block that its layout holds, and its
    /// list is legal for the kind. Does nothing: its contract is the law.
    pub fn known_held(&self)
        ensures held { IsBlockHeld (layout_facts L.Layout) self.now.place }
        ensures legal { ∥ S.is_legal self.now.items ∥₁ }
    {
        let _ = &self.parts;
    }
}

impl<
    S: Slice,
    L: LayoutMut,
    B: BufferMut<S::Item> + Drop,
    M: Drop,
    A: Allocator + Copy,
    H: Mark,
> ArcSliceMut<S, L, 1, B, M, A, H> {
    /// A window without items and places, which stands on nothing.
    pub fn new(alloc: A) -> Self
    where
        S: Emptyable,
        ensures { result ≡ idle_writer }
    {
        Self::from_parts(SoleParts::on_nothing(alloc))
    }
}

mod buffers;
mod change;
mod cuts;
mod into_mut;
mod iterate;
mod make;
mod own;
mod read;
mod room;
mod several;
mod splits;
mod take;
mod text;
mod vectors;
mod write;
