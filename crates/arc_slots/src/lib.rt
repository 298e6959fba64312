//! The slots of a table of windows, and the passes of the blocks on which they stand.
#![tactic(auto)]

pub mod answer;
pub mod beside;
pub mod command;
pub mod freeze;
pub mod hand_out;
pub mod join;
pub mod list;
pub mod part;
pub mod passes;
pub mod several;
pub mod slot;
pub mod take;
pub mod window;
