//! Windows into shared memory, which are cut and cloned without a copy. These are the names that a
//! user imports. Those that the Rust crate has too stand at its paths.
#![tactic(auto)]

pub use arc_owners::mark::{Mark, Open, Whole};
pub use arc_owners::owners::Pass;
pub use arc_read::borrow::ArcSliceBorrow;
pub use arc_read::slice::ArcSlice;
pub use arc_write::slice_mut::{
    ArcBytesMut, ArcBytesShared, ArcSliceMut, ArcStrMut, ArcStrShared, IntoMut, WriteWindow,
};
pub use borrow::{ArcByteTextBorrow, ArcBytesBorrow, ArcStrBorrow};
pub use slice::{ArcByteText, ArcBytes, ArcStr};

mod borrow;
pub mod buffer;
pub mod error;
pub mod inlined;
pub mod layout;
pub mod role;
mod slice;
