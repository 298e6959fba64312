//! `ArcSlice`, a window that is read.
ghost use Rattle.std.specs.Prelude.{◌≡◌, [], false};
ghost use Rattle.arc_block.specs.LayoutFacts.{layout_facts};
ghost use Rattle.arc_block.specs.Place.{nowhere};
ghost use Rattle.arc_parts.specs.Steps.{EndsShownAt};
ghost use Rattle.arc_block.specs.Table.{reader};
ghost use Rattle.arc_parts.specs.Window.{IsHeld, parts_of, window_of};

use arc_block::layout::{DefaultLayout, Layout, StaticLayout};
use arc_buffer::buffer::Buffer;
use arc_buffer::kinds::{Emptyable, Plain, Slice};
use arc_owners::mark::{Mark, Open};
use arc_parts::parts::Parts;
use std::alloc::{Allocator, Global};
use std::marker::{Model, PhantomData};

/// A window that is read: a part of a block that may have other owners, or of a `'static` slice, or
/// nothing. Clones and cuts share the block and copy no item.
///
/// `B` is the type of callers' buffers and `M` that of their metadata.
///
/// Each call but `let_go` that may make a block, or add to a block's history, has a form that ends
/// in `_as`. It takes a pass, in which contracts read what is added. That is a pass of the window's
/// block, or of no block where the call makes a window of items. The plain form is that form with a
/// new pass. The plain form of `release_as` is the drop. Two windows have a pass of no block: one
/// that stands on no block, and one on an `Arc` that is a block by itself, whose owners the
/// language counts.
///
/// A window under the mark `Open` that is dropped ends with a new pass. Under `Whole` there are the
/// `_as` forms alone, and a window that is dropped is a forgotten owner of its block.
pub struct ArcSlice<
    S: Slice,
    L: Layout = DefaultLayout,
    B: Buffer<<S as Slice>::Item> + Drop = Vec<<S as Slice>::Item>,
    M: Drop = (),
    A: Allocator + Copy = Global,
    H: Mark = Open,
> {
    parts: Parts<S, B, M, A, H>,
    of: PhantomData<L>,
}

impl<S: Slice, L: Layout, B: Buffer<S::Item> + Drop, M: Drop, A: Allocator + Copy, H: Mark> Model
    for ArcSlice<S, L, B, M, A, H> {
    ghost use Rattle.std.specs.Prelude.{◌≡◌};
    ghost use Rattle.arc_block.specs.Given.{Given};
    ghost use Rattle.arc_block.specs.LayoutFacts.{layout_facts};
    ghost use Rattle.arc_block.specs.Table.{reader};
    ghost use Rattle.arc_parts.specs.Window.{IsHeld, Window, window_of};

    ghost Value = { Window S.Item (Given B M) };

    ghost view = { λ w. window_of w.parts };

    ghost invariant = { λ w. (w.parts.role ≡ reader) × IsHeld (layout_facts L.Layout) w.parts.place
        × ∥ S.is_legal w.parts.items ∥₁ };
}

impl<S: Slice, L: Layout, B: Buffer<S::Item> + Drop, M: Drop, A: Allocator + Copy, H: Mark> Drop
    for ArcSlice<S, L, B, M, A, H> {
    #[inline(always)]
    fn drop(self)
        ensures ended { H.whole ≡ false → EndsShownAt H H.real self.place }
    {
        let ArcSlice { parts, of: _ } = self;
        drop(parts);
    }
}

impl<
    S: Slice,
    L: Layout,
    B: Buffer<S::Item> + Drop,
    M: Drop,
    A: Allocator + Copy,
    H: Mark,
> ArcSlice<S, L, B, M, A, H> {
    /// A window without items, which stands on nothing.
    pub fn new(alloc: A) -> Self
    where
        S: Emptyable,
        L: StaticLayout,
        ensures { result ≡ record { items = []; place = nowhere } }
    {
        Self::from_parts(Parts::on_nothing(alloc))
    }

    /// The window that is made of these parts: those of a reader, with a list that is legal for the
    /// kind, on what the layout holds. It adds no entry.
    #[inline(always)]
    pub fn from_parts(parts: Parts<S, B, M, A, H>) -> Self
        requires role { parts.role ≡ reader }
        requires held { IsHeld (layout_facts L.Layout) parts.place }
        requires legal { ∥ S.is_legal parts.items ∥₁ }
        ensures { result ≡ window_of parts }
    {
        ArcSlice {
            parts,
            of: PhantomData,
        }
    }

    /// What the window is made of. It adds no entry.
    #[inline(always)]
    pub fn into_parts(self) -> Parts<S, B, M, A, H>
        ensures parts { result ≡ parts_of self }
        ensures held { IsHeld (layout_facts L.Layout) result.place }
        ensures legal { ∥ S.is_legal result.items ∥₁ }
    {
        let ArcSlice { parts, of: _ } = self;
        parts
    }

    /// The window's layout holds what the window stands on, and its list is legal for the kind.
    /// Does nothing: its contract is the law.
    pub fn known_held(&self)
        ensures held { IsHeld (layout_facts L.Layout) self.now.place }
        ensures legal { ∥ S.is_legal self.now.items ∥₁ }
    {
        let _ = &self.parts;
    }
}

const _: () = prove!(size_of::<ArcSlice<Plain<u8>>>() == 40);

mod buffers;
mod cuts;
mod make;
mod moves;
mod own;
mod read;
mod splits;
mod text;
mod vectors;
