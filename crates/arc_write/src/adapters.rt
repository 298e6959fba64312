//! Traits of std and of the kit's crates on write windows.

mod buf;
mod buf_mut;
mod compare;
mod debug;
mod display;
mod format;
mod hash;
mod hex;
mod io;
mod put;
mod views;
