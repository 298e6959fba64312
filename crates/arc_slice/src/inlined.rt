//! Lists of up to 30 bytes in the value itself, and windows that may be such a list.

pub use arc_small::{
    SmallArcByteText, SmallArcBytes, SmallArcSlice, SmallArcStr, SmallByteText, SmallBytes,
    SmallSlice, SmallStr,
};
