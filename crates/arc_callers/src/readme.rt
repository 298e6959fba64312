//! A window over a copy of a text, and a part of it that lives on when the window has ended.

use arc_slice::ArcBytes;
use arc_slice::error::OwnerError;
use std::alloc::Global;
use std::sync::Wait;

pub fn hello(rt: &impl Wait, alloc: Global) -> Result<bool, OwnerError> {
    let text: ArcBytes = ArcBytes::try_from_slice(alloc, b"Hello world")?;
    if let Err(_) = text.check_range(0, 5) {
        return Ok(false);
    }
    let front = text.try_subslice(rt, 0, 5)?;
    drop(text);
    Ok(front.as_slice() == b"Hello".as_slice())
}
