//! The kinds of which a table may have windows: what commands ask of each, and which of the calls
//! that not all kinds have each has.
#![tactic(auto)]

pub mod kinds;
pub mod place;
