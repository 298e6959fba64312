//! Write windows: lists with a capacity, which are changed in their block's places.
#![tactic(auto)]

mod adapters;
pub mod slice_mut;
