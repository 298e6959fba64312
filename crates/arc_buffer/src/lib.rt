//! What a window's items may be.
#![tactic(auto)]

pub mod buffer;
pub mod compare;
pub mod kinds;
pub mod print;
