//! Small windows: short lists of bytes, which lie in the window itself.
#![tactic(auto)]

pub use arc::SmallArcSlice;
pub use limit::inline_limit;
pub use names::{
    SmallArcByteText, SmallArcBytes, SmallArcStr, SmallByteText, SmallBytes, SmallStr,
};
pub use slice::SmallSlice;

mod adapters;
mod arc;
mod limit;
mod names;
mod slice;
