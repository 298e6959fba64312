//! Short names of windows.

use arc_block::layout::DefaultLayout;
use arc_buffer::kinds::{ByteText, Plain, Text};
use arc_owners::mark::Open;
use arc_read::slice::ArcSlice;
use std::alloc::Global;

/// A window that reads bytes.
pub type ArcBytes<L = DefaultLayout, B = Vec<u8>, M = (), A = Global, H = Open> = ArcSlice<
    Plain<u8>,
    L,
    B,
    M,
    A,
    H,
>;

/// A window that reads text, which is always valid UTF-8.
pub type ArcStr<L = DefaultLayout, B = Vec<u8>, M = (), A = Global, H = Open> = ArcSlice<
    Text,
    L,
    B,
    M,
    A,
    H,
>;

/// A window that reads bytes that are text by convention.
pub type ArcByteText<L = DefaultLayout, B = Vec<u8>, M = (), A = Global, H = Open> = ArcSlice<
    ByteText,
    L,
    B,
    M,
    A,
    H,
>;
