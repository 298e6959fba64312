//! Items of an iterator, pushed one by one.
ghost use Rattle.std.specs.Prelude.{◌++◌, ◌≡◌, false, IfErr, IfOk, List, OnOk, Some};
ghost use Rattle.std.specs.Iterator.{Drains, ExtendsWithItems, IsFinite, Yields, YieldsThen};
ghost use Rattle.std.specs.Iterator.Runs.{WholeRun};
ghost use Rattle.std.specs.Mem.{type_size};
ghost use Rattle.arc_block.specs.Given.{Given};
ghost use Rattle.arc_parts.specs.Window.{PartsView};
ghost use Rattle.arc_parts.specs.Writers.{idle_writer};
ghost use Rattle.arc_write.specs.Extend.{PushesEach, RefusesOne};

use crate::slice_mut::{ArcSliceMut, WriteWindow};
use arc_block::layout::LayoutMut;
use arc_buffer::buffer::BufferMut;
use arc_buffer::kinds::{Emptyable, Extendable, Slice};
use arc_owners::error::TryReserveError;
use arc_owners::mark::{Mark, Stepping};
use arc_writer_parts::role::{RoleOf, WriterParts};
use std::alloc::Allocator;

impl<
    S: Slice,
    L: LayoutMut,
    R: RoleOf<S, B, M, A, H>,
    B: BufferMut<S::Item> + Drop,
    M: Drop,
    A: Allocator + Copy,
    H: Mark,
> WriteWindow<S, L, R, B, M, A, H> {
    /// Appends the iterator's items one by one, each by `try_push` and so with a new pass.
    ///
    /// # Errors
    ///
    /// The error of `try_push` and the item, at the first item for which there is no room. The
    /// items before it stay in the window, and the iterator is asked for none after it.
    ///
    /// # Allocates
    ///
    /// Where the window has too few places for an item: as `try_reserve` does for one.
    ///
    /// # History
    ///
    /// Of a sole writer: nothing. Of one of several, on a block, at each item for which it has too
    /// few places: Alone with the answer.
    pub fn try_extend<I: IntoIterator<Item = S::Item>>(
        &mut self,
        iter: I,
    ) -> Result<(), (TryReserveError, S::Item)>
    where
        S: Extendable,
        H: Stepping,
        requires ends { (it : I.IntoIter) → I.into_iter_gives iter it
            → I.IntoIter.can_next it × IsFinite (I.IntoIter.remaining it) }
        ensures extended { OnOk result ((it : I.IntoIter) × (xs : List S.Item)
            × I.into_iter_gives iter it × Drains I.IntoIter.next_gives it xs
            × PushesEach H H.real R.Parts.several S.DROPS H.whole (type_size S.Item.row)
            B.list B.places B.grows B.refuses xs self.old self.new) }
        ensures refused { IfErr result (λ r. (it : I.IntoIter) × (xs : List S.Item)
            × (rest : I.IntoIter) × (last : PartsView S.Item (Given B M))
            × I.into_iter_gives iter it × YieldsThen I.IntoIter.next_gives it xs (Some r.1) rest
            × PushesEach H H.real R.Parts.several S.DROPS H.whole (type_size S.Item.row)
            B.list B.places B.grows B.refuses xs self.old last
            × RefusesOne H H.real R.Parts.several S.DROPS H.whole (type_size S.Item.row)
            B.list B.places B.grows B.refuses r.0 last self.new) }
        ensures items { ExtendsWithItems I.into_iter_gives I.IntoIter.next_gives
            (λ (old : PartsView S.Item (Given B M)) xs (new : PartsView S.Item (Given B M)).
            new.items ≡ old.items ++ xs) iter self.old self.new result }
        ensures runs { OnOk result ((it : I.IntoIter) × I.into_iter_gives iter it
            × WholeRun I.IntoIter.next_gives it (λ p.
            self.new.items ≡ self.old.items ++ p.items)) }
    {
        for item in iter {
            match self.try_push(item) {
                Ok(()) => {}
                Err(refused) => return Err(refused),
            }
        }
        Ok(())
    }
}

impl<
    S: Slice,
    L: LayoutMut,
    B: BufferMut<S::Item> + Drop,
    M: Drop,
    A: Allocator + Copy,
    H: Mark,
> ArcSliceMut<S, L, 1, B, M, A, H> {
    /// A window over the iterator's items: `try_extend` of a window on nothing.
    ///
    /// # Errors
    ///
    /// The window with the items before the one that was refused, the error of `try_push`, and that
    /// item.
    ///
    /// # Allocates
    ///
    /// Where the window has too few places for an item: as `try_reserve` does for one.
    pub fn try_from_iter<I: IntoIterator<Item = S::Item>>(
        alloc: A,
        iter: I,
    ) -> Result<Self, (Self, TryReserveError, S::Item)>
    where
        S: Extendable,
        H: Stepping,
        S: Emptyable,
        requires ends { (it : I.IntoIter) → I.into_iter_gives iter it
            → I.IntoIter.can_next it × IsFinite (I.IntoIter.remaining it) }
        ensures made { IfOk result (λ window. (it : I.IntoIter) × (xs : List S.Item)
            × I.into_iter_gives iter it × Drains I.IntoIter.next_gives it xs
            × PushesEach H H.real false S.DROPS H.whole (type_size S.Item.row) B.list B.places
            B.grows B.refuses xs idle_writer window) }
        ensures items { IfOk result (λ window. (it : I.IntoIter) × (xs : List S.Item)
            × I.into_iter_gives iter it × Drains I.IntoIter.next_gives it xs
            × (window.items ≡ xs)) }
        ensures runs { IfOk result (λ window. (it : I.IntoIter) × I.into_iter_gives iter it
            × WholeRun I.IntoIter.next_gives it (λ p. window.items ≡ p.items)) }
        ensures refused { IfErr result (λ r. (it : I.IntoIter) × (xs : List S.Item)
            × (rest : I.IntoIter) × (last : PartsView S.Item (Given B M))
            × I.into_iter_gives iter it × YieldsThen I.IntoIter.next_gives it xs (Some r.2) rest
            × PushesEach H H.real false S.DROPS H.whole (type_size S.Item.row) B.list B.places
            B.grows B.refuses xs idle_writer last
            × RefusesOne H H.real false S.DROPS H.whole (type_size S.Item.row) B.list B.places
            B.grows B.refuses r.1 last r.0) }
        ensures taken { IfErr result (λ r. (it : I.IntoIter) × (xs : List S.Item)
            × (rest : I.IntoIter) × I.into_iter_gives iter it
            × Yields I.IntoIter.next_gives it xs rest × (r.0.items ≡ xs)) }
    {
        let mut window = Self::new(alloc);
        match window.try_extend(iter) {
            Ok(()) => Ok(window),
            Err((e, item)) => Err((window, e, item)),
        }
    }
}
