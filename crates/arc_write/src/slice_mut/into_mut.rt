//! From a window that is read to one that is written.
ghost use Rattle.std.specs.Prelude.{◌≡◌, IfErr, IfOk};
ghost use Rattle.arc_block.specs.Given.{Given};
ghost use Rattle.arc_block.specs.LayoutFacts.{layout_facts};
ghost use Rattle.arc_block.specs.Moves.{layout_move};
ghost use Rattle.arc_block.specs.declared.layout.Move.TheVariants.{HandedBack};
ghost use Rattle.arc_parts.specs.Steps.{IsPassAt};
ghost use Rattle.arc_parts.specs.Window.{parts_of, Window};
ghost use Rattle.arc_parts.specs.Writers.{RefusesSole};
ghost use Rattle.arc_read.specs.Steps.{WithNewPass};
ghost use Rattle.arc_write.specs.Moves.{BecomesWriter};

use super::ArcSliceMut;
use arc_block::layout::{Layout, LayoutMut};
use arc_buffer::buffer::BufferMut;
use arc_buffer::kinds::Slice;
use arc_owners::mark::{Mark, Stepping};
use arc_owners::owners::Pass;
use arc_read::slice::ArcSlice;
use arc_writer_parts::sole::SoleParts;
use std::alloc::Allocator;

/// Windows that are read, and may become windows that are written, where no other owner of their
/// block lives: `ArcSlice`, of every kind and layout. It is a trait, since `ArcSlice` belongs to a
/// crate below.
pub trait IntoMut: Sized {
    /// The kind of slice.
    type Kind: Slice;

    /// The type of callers' buffers.
    type Buffer: BufferMut<<Self::Kind as Slice>::Item> + Drop;

    /// The type of their metadata.
    type Metadata: Drop;

    /// The allocator of the window's block.
    type Alloc: Allocator + Copy;

    /// The mark of the window's block.
    type Mark: Mark;

    /// The window's items, and where it stands.
    ghost seen: { Self → Window Self.Kind.Item (Given Self.Buffer Self.Metadata) };

    /// The same items, as their only writer under the layout `K`. This needs a block that may be
    /// written, that `K` holds and that no other owner has. The window stays where it stands. A
    /// window on no block has to be without items, and stands on nothing afterwards.
    ///
    /// A native block may be written, and a vector. A caller's buffer that was given to be read may
    /// not be, nor an `Arc`.
    ///
    /// # Errors
    ///
    /// The window comes back where its block may not be written, where `K` doesn't hold the block,
    /// where another owner lives, and where it has items of a `'static` slice.
    ///
    /// # History
    ///
    /// On a block that may be written, and that `K` holds: Alone with the answer. Else nothing.
    fn try_into_mut_as<K: LayoutMut>(
        self,
        pass: &mut Pass<Self::Mark>,
    ) -> Result<
        ArcSliceMut<Self::Kind, K, 1, Self::Buffer, Self::Metadata, Self::Alloc, Self::Mark>,
        Self,
    >
        requires pass { IsPassAt (seen self).place pass.old }
        ensures sole { IfOk result (λ sole. BecomesWriter (layout_facts K.Layout) Self.Kind.DROPS
            Self.Mark.whole (parts_of (seen self)) sole pass.old pass.new) }
        ensures items { IfOk result (λ sole. sole.items ≡ (seen self).items) }
        ensures pass { IfOk result (λ sole. IsPassAt sole.place pass.new) }
        ensures refused { IfErr result (λ back. (back ≡ self)
            × RefusesSole K.ANY (parts_of (seen self)) pass.old pass.new) }
        ensures unasked { IfErr result (λ _.
            layout_move (layout_facts K.Layout) (seen self).place ≡ HandedBack
            → pass.new ≡ pass.old) };

    /// The same items, as their only writer: `try_into_mut_as` with a new pass.
    ///
    /// # Errors
    ///
    /// The window comes back where its block may not be written, where `K` doesn't hold the block,
    /// where another owner lives, and where it has items of a `'static` slice.
    ///
    /// # History
    ///
    /// On a block that may be written, and that `K` holds: Alone with the answer. Else nothing.
    fn try_into_mut<K: LayoutMut>(
        self,
    ) -> Result<
        ArcSliceMut<Self::Kind, K, 1, Self::Buffer, Self::Metadata, Self::Alloc, Self::Mark>,
        Self,
    >
    where
        Self::Mark: Stepping,
        ensures sole { IfOk result (λ sole.
            WithNewPass {H = Self.Mark} Self.Mark.real (seen self).place (λ first last.
            BecomesWriter (layout_facts K.Layout) Self.Kind.DROPS Self.Mark.whole
            (parts_of (seen self)) sole first last)) }
        ensures items { IfOk result (λ sole. sole.items ≡ (seen self).items) }
        ensures refused { IfErr result (λ back. (back ≡ self)
            × WithNewPass {H = Self.Mark} Self.Mark.real (seen self).place (λ first last.
            RefusesSole K.ANY (parts_of (seen self)) first last)) };
}

impl<
    S: Slice,
    L: Layout,
    B: BufferMut<S::Item> + Drop,
    M: Drop,
    A: Allocator + Copy,
    H: Mark,
> IntoMut for ArcSlice<S, L, B, M, A, H> {
    type Kind = S;

    type Buffer = B;

    type Metadata = M;

    type Alloc = A;

    type Mark = H;

    ghost seen = { λ window. window };

    #[inline(always)]
    fn try_into_mut_as<K: LayoutMut>(
        self,
        pass: &mut Pass<H>,
    ) -> Result<ArcSliceMut<S, K, 1, B, M, A, H>, Self>
        requires pass { IsPassAt self.place pass.old }
        ensures sole { IfOk result (λ sole. BecomesWriter (layout_facts K.Layout) S.DROPS H.whole
            (parts_of self) sole pass.old pass.new) }
        ensures items { IfOk result (λ sole. sole.items ≡ self.items) }
        ensures pass { IfOk result (λ sole. IsPassAt sole.place pass.new) }
        ensures refused { IfErr result (λ back. (back ≡ self)
            × RefusesSole K.ANY (parts_of self) pass.old pass.new) }
        ensures unasked { IfErr result (λ _.
            layout_move (layout_facts K.Layout) self.place ≡ HandedBack → pass.new ≡ pass.old) }
    {
        match SoleParts::try_from_parts_as::<K>(self.into_parts(), pass) {
            Ok(parts) => Ok(ArcSliceMut::from_parts(parts)),
            Err(parts) => Err(ArcSlice::from_parts(parts)),
        }
    }

    #[inline(always)]
    fn try_into_mut<K: LayoutMut>(self) -> Result<ArcSliceMut<S, K, 1, B, M, A, H>, Self>
    where
        H: Stepping,
    {
        let mut pass = self.pass();
        let changed = self.try_into_mut_as(&mut pass);
        pass.show();
        changed
    }
}
