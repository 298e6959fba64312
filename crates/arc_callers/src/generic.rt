//! Callers that are generic: in all parameters of a reader, and in the role of a writer.
ghost use Rattle.std.specs.Prelude.{◌++◌, ◌≡◌, ◌∷◌, [], IfOk, length, OnOk};
ghost use Rattle.arc_buffer.specs.Slice.{sub};

use arc_owners::mark::Stepping;
use arc_slice::buffer::{Buffer, BufferMut, CopySlice, Plain, Subsliceable};
use arc_slice::error::{OwnerError, RangeError, TryReserveError};
use arc_slice::layout::{DefaultLayoutMut, Layout, LayoutMut};
use arc_slice::role::{CopyWriterParts, RoleOf};
use arc_slice::{ArcBytesMut, ArcBytesShared, ArcSlice, Open, WriteWindow};
use bytes::BufMut;
use std::alloc::{Allocator, Global};
use std::sync::Wait;

/// The items from `start` to before `end` of a window of any kind, under any layout, over any
/// buffer, with any metadata, in any allocator's memory.
pub fn part<
    S: Subsliceable,
    L: Layout,
    B: Buffer<S::Item> + Drop,
    M: Drop,
    A: Allocator + Copy,
    H: Stepping,
>(
    rt: &impl Wait,
    window: &ArcSlice<S, L, B, M, A, H>,
    start: usize,
    end: usize,
) -> Result<Result<ArcSlice<S, L, B, M, A, H>, OwnerError>, RangeError>
    ensures { IfOk result (λ r. IfOk r (λ part. part.items ≡ sub window.now.items start end)) }
{
    match window.check_range(start, end) {
        Ok(()) => Ok(window.try_subslice(rt, start, end)),
        Err(e) => Err(e),
    }
}

/// Whether a writer of either role has places for a line and its end; then they are appended.
pub fn line_put<R: RoleOf<Plain<u8>, Vec<u8>, (), Global, Open>>(
    window: &mut WriteWindow<Plain<u8>, DefaultLayoutMut, R>,
    line: &[u8],
) -> bool
where
    R::Parts: CopyWriterParts<Plain<u8>, Vec<u8>, (), Global, Open>,
{
    window.put_slice(line).is_ok() && window.put_u8(10).is_ok()
}

/// Puts the line by `line_put`, with a sole writer and with one of several.
pub fn lines_put(sole: &mut ArcBytesMut, several: &mut ArcBytesShared, line: &[u8]) -> [bool; 2] {
    [line_put(sole, line), line_put(several, line)]
}

/// Appends a copy of the items to a writer of either role, and answers how many items it then has:
/// of any kind, under any layout, over any buffer, with any metadata, in any allocator's memory.
pub fn counted_behind<
    S: CopySlice,
    L: LayoutMut,
    R: RoleOf<S, B, M, A, H>,
    B: BufferMut<S::Item> + Drop,
    M: Drop,
    A: Allocator + Copy,
    H: Stepping,
>(
    window: &mut WriteWindow<S, L, R, B, M, A, H>,
    items: &[S::Item],
) -> Result<usize, TryReserveError>
where
    S::Item: Copy,
    R::Parts: CopyWriterParts<S, B, M, A, H>,
    ensures items { OnOk result (window.new.items ≡ window.old.items ++ items.now) }
    ensures count { IfOk result (λ n. n ≡ length window.new.items) }
{
    match window.try_extend_from_slice(items) {
        Ok(()) => Ok(window.len()),
        Err(e) => Err(e),
    }
}

/// Appends the bytes by `counted_behind`, with a sole writer and with one of several.
pub fn counted_twice(
    sole: &mut ArcBytesMut,
    several: &mut ArcBytesShared,
    bytes: &[u8],
) -> Result<[usize; 2], TryReserveError>
    ensures items { OnOk result ((sole.new.items ≡ sole.old.items ++ bytes.now)
        × (several.new.items ≡ several.old.items ++ bytes.now)) }
    ensures counts { IfOk result (λ counts. counts
        ≡ length sole.new.items ∷ length several.new.items ∷ []) }
{
    match counted_behind(sole, bytes) {
        Ok(first) => match counted_behind(several, bytes) {
            Ok(second) => Ok([first, second]),
            Err(e) => Err(e),
        },
        Err(e) => Err(e),
    }
}
