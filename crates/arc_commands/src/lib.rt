//! Commands over windows, and what a table of plain lists answers to each.
#![tactic(auto)]

pub mod command;
pub mod laws;
