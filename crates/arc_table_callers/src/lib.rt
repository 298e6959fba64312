//! Callers of the public calls of a table of windows, each at a concrete type. Their contracts
//! prove that the call can be made, and what is known then.
#![tactic(auto)]

pub mod steps;
