//! Traits of std and of the kit's crates on small windows.

mod buf;
mod compare;
mod debug;
mod display;
mod hash;
mod hex;
mod read;
mod views;
