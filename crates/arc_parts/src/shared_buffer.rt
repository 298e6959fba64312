//! An `Arc` of a caller's buffer that is a block by itself.
ghost use Rattle.std.specs.Prelude.{◌≡◌, ◌≤◌, IfOk, IfSome, IfNone, Some, None, length};
ghost use Rattle.std.specs.Arc.{arc_value};
ghost use Rattle.arc_buffer.specs.Slice.{sub};
ghost use Rattle.arc_block.specs.Metadata.{IsOwnMetadata};
ghost use Rattle.arc_parts.specs.Window.{raw_view};

use arc_block::static_slice::StaticItems;
use arc_buffer::buffer::{BorrowMetadata, Buffer};
use std::alloc::{AllocError, Allocator};
use std::marker::{Model, PhantomData};
use std::sync::Arc;

/// An `Arc` of a caller's buffer that is a block by itself: the language counts its owners.
/// Contracts see the buffer, and its items.
///
/// Its first field is a place where no items lie. So the other layouts, whose windows never stand
/// on it, read a window's items without a test of what it stands on.
#[derive(Drop)]
pub struct SharedBuffer<T, B: Buffer<T> + Drop, M: Drop, A: Allocator> {
    pub(crate) none: StaticItems<T>,
    shared: Arc<B, A>,
    // The type of metadata, of which an `Arc` has none.
    marker: PhantomData<M>,
}

impl<T, B: Buffer<T> + Drop, M: Drop, A: Allocator> Model for SharedBuffer<T, B, M, A> {
    ghost use Rattle.std.specs.Arc.{arc_value};
    ghost use Rattle.arc_block.specs.Given.{Given};
    ghost use Rattle.arc_parts.specs.Window.{RawView, raw_view};

    ghost Value = { RawView T (Given B M) };

    ghost view = { λ s. raw_view B.list (arc_value s.shared) };
}

impl<T, B: Buffer<T> + Drop, M: Drop, A: Allocator> SharedBuffer<T, B, M, A> {
    /// The `Arc`, as a block by itself.
    pub(crate) fn new(shared: Arc<B, A>) -> Self
        ensures { result ≡ raw_view B.list (arc_value shared) }
    {
        SharedBuffer {
            none: StaticItems::none(),
            shared,
            marker: PhantomData,
        }
    }

    /// The items are the buffer's. Does nothing: its contract is the law.
    pub(crate) fn known_given(&self)
        ensures { B.list self.now.given.buffer ≡ self.now.items }
    {
        let _ = &self.shared;
    }

    /// `None`: there is no metadata.
    pub(crate) fn metadata(&self) -> Option<&M>
        ensures some { IfSome result (λ m. self.now.given.metadata ≡ Some m.now) }
        ensures none { IfNone result (self.now.given.metadata ≡ None) }
    {
        let _ = &self.shared;
        None
    }

    /// How many items there are.
    pub(crate) fn len(&self) -> usize
        ensures { result ≡ length self.now.items }
    {
        self.shared.as_slice().len()
    }

    /// The items from `start` to before `end`, which the buffer is asked for.
    pub(crate) fn range(&self, start: usize, end: usize) -> &[T]
        requires { (start ≤ end) × (end ≤ length self.now.items) }
        ensures { result.now ≡ sub self.now.items start end }
    {
        &self.shared.as_slice()[..end][start..]
    }

    /// A clone of the `Arc`. It takes no memory.
    ///
    /// # Errors
    ///
    /// `AllocError` where the `Arc` has as many owners as it may have.
    pub(crate) fn try_clone(&self) -> Result<Self, AllocError>
        ensures { IfOk result (λ other. other ≡ self.now) }
    {
        let shared = Arc::try_clone(&self.shared)?;
        Ok(SharedBuffer {
            none: StaticItems::none(),
            shared,
            marker: PhantomData,
        })
    }

    /// The `Arc`.
    pub(crate) fn into_arc(self) -> Arc<B, A>
        ensures { raw_view B.list (arc_value result) ≡ self }
    {
        let SharedBuffer {
            none: _,
            shared,
            marker: _,
        } = self;
        shared
    }

    /// The metadata that lies in the buffer.
    pub(crate) fn borrowed_metadata(&self) -> &B::Metadata
    where
        B: BorrowMetadata,
        ensures { IsOwnMetadata B.list B.metadata (Some self.now.given) self.now.items result.now }
    {
        self.shared.borrow_metadata()
    }
}
