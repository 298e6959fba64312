//! The calls of `Plain` and `ByteText`.
ghost use Rattle.std.specs.Prelude.{true};
ghost use Rattle.arc_commands.specs.Kinds.{calls_of, plain_kind};

use super::{AllCalls, CallsOf, Smalls};
use crate::place::set_slot;
use arc_block::layout::{Layout, LayoutMut};
use arc_buffer::buffer::BufferMut;
use arc_buffer::kinds::{Concatenable, CopySlice, Extendable, Shareable, Slice, Subsliceable};
use arc_owners::error::{AllocError, OwnerError, TryReserveError};
use arc_owners::mark::Whole;
use arc_owners::owners::Pass;
use arc_read::slice::ArcSlice;
use arc_write::slice_mut::ArcSliceMut;
use std::alloc::Allocator;
use std::sync::Wait;

impl<S, W: Smalls> CallsOf<S> for AllCalls<W>
where
    S: CopySlice + Extendable + Concatenable + Shareable + Subsliceable,
    S::Item: Copy,
{
    ghost calls = { calls_of plain_kind W.small };

    fn copies() -> bool {
        true
    }

    fn pushes() -> bool {
        true
    }

    fn extends() -> bool {
        true
    }

    fn any_list() -> bool {
        true
    }

    fn shares() -> bool {
        true
    }

    fn try_copy<A: Allocator>(
        alloc: A,
        items: &[S::Item],
    ) -> Option<Result<Vec<S::Item, A>, AllocError>> {
        match Vec::from_slice(alloc, items) {
            Ok(copy) => Some(Ok(copy)),
            Err(_) => Some(Err(AllocError)),
        }
    }

    fn try_read_as<L: Layout, B: BufferMut<S::Item> + Drop, M: Drop, A: Allocator + Copy>(
        alloc: A,
        items: &[S::Item],
        pass: &mut Pass<Whole>,
    ) -> Option<Result<ArcSlice<S, L, B, M, A, Whole>, AllocError>> {
        Some(ArcSlice::try_from_slice_as(alloc, items, pass))
    }

    fn try_written_as<L: LayoutMut, B: BufferMut<S::Item> + Drop, M: Drop, A: Allocator + Copy>(
        alloc: A,
        items: &[S::Item],
        pass: &mut Pass<Whole>,
    ) -> Option<Result<ArcSliceMut<S, L, 1, B, M, A, Whole>, AllocError>> {
        Some(ArcSliceMut::try_from_slice_as(alloc, items, pass))
    }

    fn try_push_as<L: LayoutMut, B: BufferMut<S::Item> + Drop, M: Drop, A: Allocator + Copy>(
        window: &mut ArcSliceMut<S, L, 1, B, M, A, Whole>,
        item: S::Item,
        pass: &mut Pass<Whole>,
    ) -> Option<Result<(), TryReserveError>> {
        match window.try_push_as(item, pass) {
            Ok(()) => Some(Ok(())),
            Err((e, _)) => Some(Err(e)),
        }
    }

    fn try_extend_as<L: LayoutMut, B: BufferMut<S::Item> + Drop, M: Drop, A: Allocator + Copy>(
        window: &mut ArcSliceMut<S, L, 1, B, M, A, Whole>,
        items: &[S::Item],
        pass: &mut Pass<Whole>,
    ) -> Option<Result<(), TryReserveError>> {
        Some(window.try_extend_from_slice_as(items, pass))
    }

    fn into_shared<L: LayoutMut, B: BufferMut<S::Item> + Drop, M: Drop, A: Allocator + Copy>(
        sole: &mut Option<ArcSliceMut<S, L, 1, B, M, A, Whole>>,
    ) -> Option<ArcSliceMut<S, L, 0, B, M, A, Whole>> {
        match sole.take()?.into_shared() {
            Ok(window) => Some(window),
            Err(window) => {
                set_slot(sole, Some(window));
                None
            }
        }
    }

    fn try_leave_vector_as<
        L: LayoutMut,
        B: BufferMut<S::Item> + Drop,
        M: Drop,
        A: Allocator + Copy,
    >(
        window: &mut ArcSliceMut<S, L, 0, B, M, A, Whole>,
        pass: &mut Pass<Whole>,
    ) -> Option<Result<Pass<Whole>, AllocError>> {
        Some(window.try_leave_vector_as(pass))
    }

    fn try_split_off_as<L: LayoutMut, B: BufferMut<S::Item> + Drop, M: Drop, A: Allocator + Copy>(
        window: &mut ArcSliceMut<S, L, 0, B, M, A, Whole>,
        rt: &impl Wait,
        at: usize,
        pass: &mut Pass<Whole>,
    ) -> Option<Result<ArcSliceMut<S, L, 0, B, M, A, Whole>, OwnerError>> {
        Some(window.try_split_off_as(rt, at, pass))
    }

    fn try_split_to_as<L: LayoutMut, B: BufferMut<S::Item> + Drop, M: Drop, A: Allocator + Copy>(
        window: &mut ArcSliceMut<S, L, 0, B, M, A, Whole>,
        rt: &impl Wait,
        at: usize,
        pass: &mut Pass<Whole>,
    ) -> Option<Result<ArcSliceMut<S, L, 0, B, M, A, Whole>, OwnerError>> {
        Some(window.try_split_to_as(rt, at, pass))
    }

    fn try_unsplit_as<L: LayoutMut, B: BufferMut<S::Item> + Drop, M: Drop, A: Allocator + Copy>(
        window: &mut ArcSliceMut<S, L, 0, B, M, A, Whole>,
        other: &mut Option<ArcSliceMut<S, L, 0, B, M, A, Whole>>,
        pass: &mut Pass<Whole>,
    ) -> Option<()> {
        match window.try_unsplit_as(other.take()?, pass) {
            Ok(()) => Some(()),
            Err(back) => {
                set_slot(other, Some(back));
                None
            }
        }
    }

    fn try_push_beside_as<L: LayoutMut, B: BufferMut<S::Item> + Drop, M: Drop, A: Allocator + Copy>(
        window: &mut ArcSliceMut<S, L, 0, B, M, A, Whole>,
        item: S::Item,
        pass: &mut Pass<Whole>,
    ) -> Option<Result<(), TryReserveError>> {
        match window.try_push_as(item, pass) {
            Ok(()) => Some(Ok(())),
            Err((e, _)) => Some(Err(e)),
        }
    }

    fn try_extend_beside_as<
        L: LayoutMut,
        B: BufferMut<S::Item> + Drop,
        M: Drop,
        A: Allocator + Copy,
    >(
        window: &mut ArcSliceMut<S, L, 0, B, M, A, Whole>,
        items: &[S::Item],
        pass: &mut Pass<Whole>,
    ) -> Option<Result<(), TryReserveError>> {
        Some(window.try_extend_from_slice_as(items, pass))
    }
}
