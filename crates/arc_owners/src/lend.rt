//! For callers that lend memory of their own to the owners of a block. The owners read it, and it
//! comes back at the end of their lease.

pub use crate::memory::LentValue;
