//! What a block keeps beside the count of its owners.
ghost use Rattle.std.specs.Prelude.{◌≡◌};
ghost use Rattle.arc_block.specs.Block.{vector, raw, IsBuffer};
ghost use Rattle.arc_block.specs.declared.block.content.Content.TheVariants.{Buffer, Raw};
ghost use Rattle.arc_block.specs.Contents.{content_sort, content_items, IsVecOf};

use arc_buffer::buffer::Buffer;
use arc_memory::Native;
use arc_owners::owners::Shows;
use std::alloc::Allocator;
use std::sync::Arc;

/// A caller's buffer as it was given: with metadata or without, to be read only or to be written.
#[derive(Drop)]
pub struct CallersBuffer<B, M> {
    pub buffer: B,
    pub metadata: Option<M>,
    pub writable: bool,
}

/// What a block of a caller's making keeps beside the count of its owners, by its sort.
#[derive(Drop)]
pub enum Content<T: Drop, B, M, A: Allocator> {
    /// A vector's places, with the items in them.
    Vector(Native<T, A>),
    /// A caller's buffer.
    Buffer(CallersBuffer<B, M>),
    /// The language's `Arc` of a caller's buffer.
    Raw(Arc<B, A>),
}

impl<T: Drop, B: Buffer<T>, M, A: Allocator> Shows<T> for Content<T, B, M, A> {
    ghost shown = { content_items B.list };

    #[inline(always)]
    fn show(&self) -> &[T] {
        match self {
            Content::Vector(memory) => memory.as_slice(),
            Content::Buffer(held) => held.buffer.as_slice(),
            Content::Raw(shared) => shared.as_slice(),
        }
    }
}

impl<T: Drop, B: Drop, M: Drop, A: Allocator> Content<T, B, M, A> {
    ghost use Rattle.std.specs.Borrow.{sem};
    ghost use Rattle.arc_block.specs.LendsBuffers.{LendsBuffer, KeepsBuffer};

    /// The vector, with its items.
    pub fn into_vec(self) -> Vec<T, A>
        requires { content_sort self ≡ vector }
        ensures { IsVecOf self result }
    {
        match self {
            Content::Vector(memory) => memory.into_vec(),
            _ => unreachable!(),
        }
    }

    /// The buffer, with its metadata.
    pub fn into_buffer(self) -> CallersBuffer<B, M>
        requires { IsBuffer (content_sort self) }
        ensures { self ≡ Buffer result }
    {
        match self {
            Content::Buffer(held) => held,
            _ => unreachable!(),
        }
    }

    /// The `Arc`.
    pub fn into_raw(self) -> Arc<B, A>
        requires { content_sort self ≡ raw }
        ensures { self ≡ Raw result }
    {
        match self {
            Content::Raw(shared) => shared,
            _ => unreachable!(),
        }
    }

    /// The caller's buffer, to be changed in its place.
    pub fn buffer_mut(&mut self) -> &mut B
        requires { IsBuffer (content_sort self.old) }
        ensures* writes_back { sem 𝓛 (LendsBuffer T.row B.row M.row A.row A.Allocator
            self.entry result) }
        ensures value { KeepsBuffer self.old result.now }
    {
        match self {
            Content::Buffer(held) => &mut held.buffer,
            _ => unreachable!(),
        }
    }
}
