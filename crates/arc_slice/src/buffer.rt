//! The kinds of slices, with their traits, and callers' buffers.

pub use arc_buffer::buffer::{
    AsMutBuffer, AsRefBuffer, BorrowMetadata, Buffer, BufferMut, Lend, LendMut,
};
pub use arc_buffer::kinds::{
    AnyItems, ByteText, Concatenable, CopySlice, DebugItem, DebugSlice, Emptyable, Extendable,
    Owned, Plain, Shareable, Slice, Subsliceable, Text, VecIn, Wraps, ZeroItem, Zeroable,
};
