//! Where memory begins.

/// Where the memory of a block begins: an address. It owns nothing, and may go to any thread.
#[derive(Drop)]
pub struct Base<T> {
    pub at: *const T,
}

// An address gives no access to what lies there.
unsafe impl<T> Send for Base<T> {}

unsafe impl<T> Sync for Base<T> {}
