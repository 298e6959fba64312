//! Parts of a window that are borrowed: no owner is made, and they are copied freely.
ghost use Rattle.std.specs.Prelude.{◌≡◌, ◌≤◌, length, IfOk};
ghost use Rattle.arc_buffer.specs.Slice.{sub};
ghost use Rattle.arc_read.specs.Borrow.{borrowed_part};

use arc_slice::error::{OwnerError, RangeError};
use arc_slice::{ArcBytes, ArcBytesBorrow, ArcStr};
use std::sync::Wait;

/// The bytes from `start` to `end`, borrowed.
pub fn lent(window: &ArcBytes, start: usize, end: usize) -> &[u8]
    requires { (start ≤ end) × (end ≤ length window.now.items) }
    ensures { result.now ≡ sub window.now.items start end }
{
    window.borrow(start, end).as_slice()
}

/// A text's front up to `end`, if it may be cut there.
pub fn front(text: &ArcStr, end: usize) -> Result<&str, RangeError> {
    match text.check_range(0, end) {
        Ok(()) => Ok(text.borrow(0, end).as_str()),
        Err(e) => Err(e),
    }
}

/// The bytes from `start` to `end` of a part, borrowed from the same window.
pub fn part_of_part<'a>(
    part: ArcBytesBorrow<'a>,
    start: usize,
    end: usize,
) -> Result<ArcBytesBorrow<'a>, RangeError> {
    match part.check_range(start, end) {
        Ok(()) => Ok(part.reborrow(start, end)),
        Err(e) => Err(e),
    }
}

/// A window over the part, which lives on when the one that lent it has ended.
pub fn kept(rt: &impl Wait, part: ArcBytesBorrow<'_>) -> Result<ArcBytes, OwnerError>
    ensures { IfOk result (λ window. window.items ≡ (borrowed_part part.entry).items) }
{
    part.try_clone_arc(rt)
}
