//! Commands over windows, carried out as a table of plain lists.
#![tactic(auto)]

pub use arc_commands::command;
pub use arc_kinds::kinds;
pub use arc_slots::passes;

pub mod laws;
pub mod table;
