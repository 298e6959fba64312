//! The calls of `Owned`.
ghost use Rattle.std.specs.Prelude.{true, false};
ghost use Rattle.arc_commands.specs.Kinds.{calls_of, owned_kind};

use super::{CallsOf, OwnedCalls};
use arc_block::layout::{Layout, LayoutMut};
use arc_buffer::buffer::BufferMut;
use arc_buffer::kinds::{Extendable, Slice, Subsliceable};
use arc_owners::error::{AllocError, OwnerError, TryReserveError};
use arc_owners::mark::Whole;
use arc_owners::owners::Pass;
use arc_read::slice::ArcSlice;
use arc_write::slice_mut::ArcSliceMut;
use std::alloc::Allocator;
use std::sync::Wait;

impl<S: Extendable + Subsliceable> CallsOf<S> for OwnedCalls {
    ghost calls = { calls_of owned_kind false };

    fn copies() -> bool {
        false
    }

    fn pushes() -> bool {
        true
    }

    fn extends() -> bool {
        false
    }

    fn any_list() -> bool {
        true
    }

    fn shares() -> bool {
        false
    }

    fn try_copy<A: Allocator>(
        alloc: A,
        items: &[S::Item],
    ) -> Option<Result<Vec<S::Item, A>, AllocError>> {
        let _ = alloc;
        let _ = items;
        None
    }

    fn try_read_as<L: Layout, B: BufferMut<S::Item> + Drop, M: Drop, A: Allocator + Copy>(
        alloc: A,
        items: &[S::Item],
        pass: &mut Pass<Whole>,
    ) -> Option<Result<ArcSlice<S, L, B, M, A, Whole>, AllocError>> {
        let _ = alloc;
        let _ = items;
        let _ = pass;
        None
    }

    fn try_written_as<L: LayoutMut, B: BufferMut<S::Item> + Drop, M: Drop, A: Allocator + Copy>(
        alloc: A,
        items: &[S::Item],
        pass: &mut Pass<Whole>,
    ) -> Option<Result<ArcSliceMut<S, L, 1, B, M, A, Whole>, AllocError>> {
        let _ = alloc;
        let _ = items;
        let _ = pass;
        None
    }

    fn try_push_as<L: LayoutMut, B: BufferMut<S::Item> + Drop, M: Drop, A: Allocator + Copy>(
        window: &mut ArcSliceMut<S, L, 1, B, M, A, Whole>,
        item: S::Item,
        pass: &mut Pass<Whole>,
    ) -> Option<Result<(), TryReserveError>> {
        match window.try_push_as(item, pass) {
            Ok(()) => Some(Ok(())),
            Err((e, _)) => Some(Err(e)),
        }
    }

    fn try_extend_as<L: LayoutMut, B: BufferMut<S::Item> + Drop, M: Drop, A: Allocator + Copy>(
        window: &mut ArcSliceMut<S, L, 1, B, M, A, Whole>,
        items: &[S::Item],
        pass: &mut Pass<Whole>,
    ) -> Option<Result<(), TryReserveError>> {
        let _ = window;
        let _ = items;
        let _ = pass;
        None
    }

    fn into_shared<L: LayoutMut, B: BufferMut<S::Item> + Drop, M: Drop, A: Allocator + Copy>(
        sole: &mut Option<ArcSliceMut<S, L, 1, B, M, A, Whole>>,
    ) -> Option<ArcSliceMut<S, L, 0, B, M, A, Whole>> {
        let _ = sole;
        None
    }

    fn try_leave_vector_as<
        L: LayoutMut,
        B: BufferMut<S::Item> + Drop,
        M: Drop,
        A: Allocator + Copy,
    >(
        window: &mut ArcSliceMut<S, L, 0, B, M, A, Whole>,
        pass: &mut Pass<Whole>,
    ) -> Option<Result<Pass<Whole>, AllocError>> {
        let _ = window;
        let _ = pass;
        None
    }

    fn try_split_off_as<L: LayoutMut, B: BufferMut<S::Item> + Drop, M: Drop, A: Allocator + Copy>(
        window: &mut ArcSliceMut<S, L, 0, B, M, A, Whole>,
        rt: &impl Wait,
        at: usize,
        pass: &mut Pass<Whole>,
    ) -> Option<Result<ArcSliceMut<S, L, 0, B, M, A, Whole>, OwnerError>> {
        let _ = window;
        let _ = rt;
        let _ = at;
        let _ = pass;
        None
    }

    fn try_split_to_as<L: LayoutMut, B: BufferMut<S::Item> + Drop, M: Drop, A: Allocator + Copy>(
        window: &mut ArcSliceMut<S, L, 0, B, M, A, Whole>,
        rt: &impl Wait,
        at: usize,
        pass: &mut Pass<Whole>,
    ) -> Option<Result<ArcSliceMut<S, L, 0, B, M, A, Whole>, OwnerError>> {
        let _ = window;
        let _ = rt;
        let _ = at;
        let _ = pass;
        None
    }

    fn try_unsplit_as<L: LayoutMut, B: BufferMut<S::Item> + Drop, M: Drop, A: Allocator + Copy>(
        window: &mut ArcSliceMut<S, L, 0, B, M, A, Whole>,
        other: &mut Option<ArcSliceMut<S, L, 0, B, M, A, Whole>>,
        pass: &mut Pass<Whole>,
    ) -> Option<()> {
        let _ = window;
        let _ = other;
        let _ = pass;
        None
    }

    fn try_push_beside_as<L: LayoutMut, B: BufferMut<S::Item> + Drop, M: Drop, A: Allocator + Copy>(
        window: &mut ArcSliceMut<S, L, 0, B, M, A, Whole>,
        item: S::Item,
        pass: &mut Pass<Whole>,
    ) -> Option<Result<(), TryReserveError>> {
        let _ = window;
        let _ = item;
        let _ = pass;
        None
    }

    fn try_extend_beside_as<
        L: LayoutMut,
        B: BufferMut<S::Item> + Drop,
        M: Drop,
        A: Allocator + Copy,
    >(
        window: &mut ArcSliceMut<S, L, 0, B, M, A, Whole>,
        items: &[S::Item],
        pass: &mut Pass<Whole>,
    ) -> Option<Result<(), TryReserveError>> {
        let _ = window;
        let _ = items;
        let _ = pass;
        None
    }
}
