//! Parts of windows that are written, whatever the sort of their block.
#![tactic(auto)]

pub mod role;
pub mod shared;
pub mod sole;
