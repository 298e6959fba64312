//! The owners of a block, and the errors of all layers above.
#![tactic(auto)]

mod count;
pub mod error;
pub mod hint;
mod history;
pub mod leave;
pub mod lend;
pub mod lifetime;
pub mod lone;
pub mod mark;
mod memory;
pub mod owners;
pub mod sizes;
