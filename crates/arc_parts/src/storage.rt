//! What parts stand on.
use arc_block::static_slice::StaticItems;

/// What a window stands on: nothing, a `'static` slice, a native block or one of a caller's making,
/// as one of its owners, or an `Arc` of a caller's buffer that is a block by itself.
///
/// Each variant begins with the place where items begin, also where there are none. So a read is
/// the same sum and difference for all, but for the items of an `Arc`, and the compiler makes one
/// of them.
#[derive(Drop)]
pub enum Storage<T, N, B, R> {
    /// Nothing. There are no items.
    Nothing(StaticItems<T>),
    /// A `'static` slice.
    Static(StaticItems<T>),
    /// A native block.
    Native(N),
    /// A block of a caller's making.
    Block(B),
    /// An `Arc` that is a block by itself.
    Raw(R),
}
