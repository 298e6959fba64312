//! Callers of the public calls of windows, each at least once at a concrete type. Their contracts
//! prove that the call can be made, and what is known then. And whole examples: a codec, a queue,
//! an editor.
#![tactic(auto)]

pub mod adapters;
pub mod borrows;
pub mod buffers;
pub mod editor;
pub mod encoder;
pub mod frames;
pub mod generic;
pub mod items;
pub mod layouts;
pub mod owners;
pub mod page;
pub mod queue;
pub mod reader_passes;
pub mod readers;
pub mod readme;
pub mod several_passes;
pub mod several_writers;
pub mod sizes;
pub mod small;
pub mod taking_back;
pub mod threads;
pub mod words;
pub mod writer_passes;
pub mod writers;
