//! The forms of a script: a line as a command, and a reply as a text.
#![tactic(auto)]

mod hex;
pub mod parse;
pub mod text;
