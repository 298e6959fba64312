//! The leave to raise a count, which comes from the leave to wait alone.
use std::marker::PhantomData;
use std::sync::Wait;

/// That the caller may wait, and so may raise a count. It has no bytes, and each attempt to raise a
/// count takes one. So a call that takes neither `rt` nor this makes no owner, whatever pass it
/// has.
///
/// It belongs to one thread: a value that keeps one can't be sent to another.
#[derive(Clone, Copy)]
pub struct RaiseLeave {
    of: PhantomData<*const ()>,
}

impl RaiseLeave {
    /// The leave of a caller that may wait.
    #[inline(always)]
    pub fn of(rt: &impl Wait) -> Self {
        let _ = rt;
        RaiseLeave { of: PhantomData }
    }
}
