//! The makers of a table: a slot of what a command brings.
#![tactic(auto)]

pub mod maker;
