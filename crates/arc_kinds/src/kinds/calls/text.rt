//! The calls of `Text`.
ghost use Rattle.std.specs.Prelude.{true, false};
ghost use Rattle.arc_commands.specs.Kinds.{calls_of, text_kind};

use super::{CallsOf, TextCalls, as_text};
use crate::place::set_slot;
use arc_block::layout::{Layout, LayoutMut};
use arc_buffer::buffer::BufferMut;
use arc_buffer::kinds::{Slice, Text};
use arc_owners::error::{AllocError, OwnerError, TryReserveError};
use arc_owners::mark::Whole;
use arc_owners::owners::Pass;
use arc_read::slice::ArcSlice;
use arc_write::slice_mut::ArcSliceMut;
use std::alloc::Allocator;
use std::sync::Wait;

impl CallsOf<Text> for TextCalls {
    ghost calls = { calls_of text_kind true };

    fn copies() -> bool {
        true
    }

    fn pushes() -> bool {
        false
    }

    fn extends() -> bool {
        true
    }

    fn any_list() -> bool {
        false
    }

    fn shares() -> bool {
        true
    }

    fn try_copy<A: Allocator>(alloc: A, items: &[u8]) -> Option<Result<Vec<u8, A>, AllocError>> {
        match Vec::from_slice(alloc, items) {
            Ok(copy) => Some(Ok(copy)),
            Err(_) => Some(Err(AllocError)),
        }
    }

    fn try_read_as<L: Layout, B: BufferMut<u8> + Drop, M: Drop, A: Allocator + Copy>(
        alloc: A,
        items: &[u8],
        pass: &mut Pass<Whole>,
    ) -> Option<Result<ArcSlice<Text, L, B, M, A, Whole>, AllocError>> {
        let text = as_text(items);
        Some(ArcSlice::<Text, L, B, M, A, Whole>::try_from_str_as(alloc, text, pass))
    }

    fn try_written_as<L: LayoutMut, B: BufferMut<u8> + Drop, M: Drop, A: Allocator + Copy>(
        alloc: A,
        items: &[u8],
        pass: &mut Pass<Whole>,
    ) -> Option<Result<ArcSliceMut<Text, L, 1, B, M, A, Whole>, AllocError>> {
        let text = as_text(items);
        Some(ArcSliceMut::<Text, L, 1, B, M, A, Whole>::try_from_str_as(alloc, text, pass))
    }

    fn try_push_as<L: LayoutMut, B: BufferMut<u8> + Drop, M: Drop, A: Allocator + Copy>(
        window: &mut ArcSliceMut<Text, L, 1, B, M, A, Whole>,
        item: u8,
        pass: &mut Pass<Whole>,
    ) -> Option<Result<(), TryReserveError>> {
        let _ = window;
        let _ = item;
        let _ = pass;
        None
    }

    fn try_extend_as<L: LayoutMut, B: BufferMut<u8> + Drop, M: Drop, A: Allocator + Copy>(
        window: &mut ArcSliceMut<Text, L, 1, B, M, A, Whole>,
        items: &[u8],
        pass: &mut Pass<Whole>,
    ) -> Option<Result<(), TryReserveError>> {
        let text = as_text(items);
        Some(window.try_extend_from_str_as(text, pass))
    }

    fn into_shared<L: LayoutMut, B: BufferMut<u8> + Drop, M: Drop, A: Allocator + Copy>(
        sole: &mut Option<ArcSliceMut<Text, L, 1, B, M, A, Whole>>,
    ) -> Option<ArcSliceMut<Text, L, 0, B, M, A, Whole>> {
        match sole.take()?.into_shared() {
            Ok(window) => Some(window),
            Err(window) => {
                set_slot(sole, Some(window));
                None
            }
        }
    }

    fn try_leave_vector_as<L: LayoutMut, B: BufferMut<u8> + Drop, M: Drop, A: Allocator + Copy>(
        window: &mut ArcSliceMut<Text, L, 0, B, M, A, Whole>,
        pass: &mut Pass<Whole>,
    ) -> Option<Result<Pass<Whole>, AllocError>> {
        Some(window.try_leave_vector_as(pass))
    }

    fn try_split_off_as<L: LayoutMut, B: BufferMut<u8> + Drop, M: Drop, A: Allocator + Copy>(
        window: &mut ArcSliceMut<Text, L, 0, B, M, A, Whole>,
        rt: &impl Wait,
        at: usize,
        pass: &mut Pass<Whole>,
    ) -> Option<Result<ArcSliceMut<Text, L, 0, B, M, A, Whole>, OwnerError>> {
        Some(window.try_split_off_as(rt, at, pass))
    }

    fn try_split_to_as<L: LayoutMut, B: BufferMut<u8> + Drop, M: Drop, A: Allocator + Copy>(
        window: &mut ArcSliceMut<Text, L, 0, B, M, A, Whole>,
        rt: &impl Wait,
        at: usize,
        pass: &mut Pass<Whole>,
    ) -> Option<Result<ArcSliceMut<Text, L, 0, B, M, A, Whole>, OwnerError>> {
        Some(window.try_split_to_as(rt, at, pass))
    }

    fn try_unsplit_as<L: LayoutMut, B: BufferMut<u8> + Drop, M: Drop, A: Allocator + Copy>(
        window: &mut ArcSliceMut<Text, L, 0, B, M, A, Whole>,
        other: &mut Option<ArcSliceMut<Text, L, 0, B, M, A, Whole>>,
        pass: &mut Pass<Whole>,
    ) -> Option<()> {
        match window.try_unsplit_as(other.take()?, pass) {
            Ok(()) => Some(()),
            Err(back) => {
                set_slot(other, Some(back));
                None
            }
        }
    }

    fn try_push_beside_as<L: LayoutMut, B: BufferMut<u8> + Drop, M: Drop, A: Allocator + Copy>(
        window: &mut ArcSliceMut<Text, L, 0, B, M, A, Whole>,
        item: u8,
        pass: &mut Pass<Whole>,
    ) -> Option<Result<(), TryReserveError>> {
        let _ = window;
        let _ = item;
        let _ = pass;
        None
    }

    fn try_extend_beside_as<L: LayoutMut, B: BufferMut<u8> + Drop, M: Drop, A: Allocator + Copy>(
        window: &mut ArcSliceMut<Text, L, 0, B, M, A, Whole>,
        items: &[u8],
        pass: &mut Pass<Whole>,
    ) -> Option<Result<(), TryReserveError>> {
        let text = as_text(items);
        Some(window.try_extend_from_str_as(text, pass))
    }
}
