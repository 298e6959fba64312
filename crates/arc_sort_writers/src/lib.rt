//! Writers on each sort of block: the only owner of native memory, of a vector, or of a caller's
//! buffer, and one of several on a native block.
#![tactic(auto)]

pub mod buffer;
pub mod native;
pub mod shared;
pub mod vector;
