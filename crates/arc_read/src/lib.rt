//! Read windows: shared, cut and cloned without a copy.
#![tactic(auto)]

mod adapters;
pub mod borrow;
pub mod range;
pub mod slice;
