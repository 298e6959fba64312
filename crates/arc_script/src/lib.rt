//! Windows driven by a script: lines in, replies out.
#![tactic(auto)]

pub mod io;
pub mod layout;
pub mod program;
pub mod script;
pub mod storm;
