//! Where a list may be cut: the tests that windows of all sorts make.
ghost use Rattle.std.specs.Prelude.{◌≡◌, ◌↔◌, IsOk};
ghost use Rattle.arc_buffer.specs.Slice.{IsEdge, IsRange, edge_answer, range_answer};

use arc_buffer::kinds::Subsliceable;
use arc_owners::error::RangeError;

/// Whether `start` to `end` is a range of the list.
///
/// # Errors
///
/// `OutOfRange` where the end is past the length, else `InvalidRange` where the start is past the
/// end, else `NotBoundary` where the kind may not be cut at one of them.
#[inline]
pub fn check_range<S: Subsliceable>(
    items: &[S::Item],
    start: usize,
    end: usize,
) -> Result<(), RangeError>
    ensures answer { result ≡ range_answer S.boundary items.now start end }
    ensures ok { IsOk result ↔ IsRange S.boundary items.now start end }
{
    if end > items.len() {
        return Err(RangeError::OutOfRange);
    }
    if start > end {
        return Err(RangeError::InvalidRange);
    }
    if S::is_boundary(items, start) && S::is_boundary(items, end) {
        Ok(())
    } else {
        Err(RangeError::NotBoundary)
    }
}

/// Whether the list may be cut at `at`.
///
/// # Errors
///
/// `OutOfRange` where that is past the length, else `NotBoundary` where the kind may not be cut
/// there.
#[inline]
pub fn check_at<S: Subsliceable>(items: &[S::Item], at: usize) -> Result<(), RangeError>
    ensures answer { result ≡ edge_answer S.boundary items.now at }
    ensures ok { IsOk result ↔ IsEdge S.boundary items.now at }
{
    if at > items.len() {
        return Err(RangeError::OutOfRange);
    }
    if S::is_boundary(items, at) {
        Ok(())
    } else {
        Err(RangeError::NotBoundary)
    }
}
