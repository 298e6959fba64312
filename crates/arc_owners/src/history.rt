//! Owner histories: the events that threads make on a block's word, the entries that they write,
//! and the plain program that replays them.

mod entry;
mod event;
mod laws;
mod replays;
mod world;

pub use entry::Entry;
pub use event::Event;
pub use laws::{is_run, keeps};
pub use replays::{replay, replay_lone};
pub use world::World;
