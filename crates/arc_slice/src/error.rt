//! The errors of the library's calls.

pub use arc_owners::error::{AllocError, CountFull, OwnerError, RangeError, TryReserveError};
