//! Blocks, the layouts that say how a window stands on one, and the table of lists.
#![tactic(auto)]

pub mod block;
pub mod layout;
pub mod static_slice;
pub mod table;
