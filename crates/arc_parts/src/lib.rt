//! Parts: what a window is made of that is read; and where a writer's room comes from.
#![tactic(auto)]

pub mod parts;
pub mod room;
mod shared_buffer;
mod storage;
