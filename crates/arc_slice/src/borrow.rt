//! Short names of parts that are borrowed.

use arc_block::layout::DefaultLayout;
use arc_buffer::kinds::{ByteText, Plain, Text};
use arc_owners::mark::Open;
use arc_read::borrow::ArcSliceBorrow;
use std::alloc::Global;

/// A part of the bytes of a window, borrowed.
pub type ArcBytesBorrow<'a, L = DefaultLayout, B = Vec<u8>, M = (), A = Global, H = Open> =
    ArcSliceBorrow<'a, Plain<u8>, L, B, M, A, H>;

/// A part of the text of a window, borrowed.
pub type ArcStrBorrow<'a, L = DefaultLayout, B = Vec<u8>, M = (), A = Global, H = Open> =
    ArcSliceBorrow<'a, Text, L, B, M, A, H>;

/// A part of the byte text of a window, borrowed.
pub type ArcByteTextBorrow<'a, L = DefaultLayout, B = Vec<u8>, M = (), A = Global, H = Open> =
    ArcSliceBorrow<'a, ByteText, L, B, M, A, H>;
