//! Short names of small windows.

use super::{SmallArcSlice, SmallSlice};
use arc_block::layout::DefaultLayout;
use arc_buffer::kinds::{ByteText, Plain, Text};
use arc_owners::mark::Open;
use std::alloc::Global;

/// A short list of bytes.
pub type SmallBytes<L = DefaultLayout> = SmallSlice<Plain<u8>, L>;

/// A short text, which is always valid UTF-8.
pub type SmallStr<L = DefaultLayout> = SmallSlice<Text, L>;

/// A short list of bytes that are text by convention.
pub type SmallByteText<L = DefaultLayout> = SmallSlice<ByteText, L>;

/// A small window over bytes.
pub type SmallArcBytes<L = DefaultLayout, B = Vec<u8>, M = (), A = Global, H = Open> =
    SmallArcSlice<Plain<u8>, L, B, M, A, H>;

/// A small window over text, which is always valid UTF-8.
pub type SmallArcStr<L = DefaultLayout, B = Vec<u8>, M = (), A = Global, H = Open> = SmallArcSlice<
    Text,
    L,
    B,
    M,
    A,
    H,
>;

/// A small window over bytes that are text by convention.
pub type SmallArcByteText<L = DefaultLayout, B = Vec<u8>, M = (), A = Global, H = Open> =
    SmallArcSlice<ByteText, L, B, M, A, H>;
