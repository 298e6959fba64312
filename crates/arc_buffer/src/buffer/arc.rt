//! Buffers behind an `Arc`, which are read only.
ghost use Rattle.std.specs.Prelude.{◌≡◌, false, length};
ghost use Rattle.std.specs.Arc.{arc_value};

use super::{BorrowMetadata, Buffer};
use std::alloc::Allocator;
use std::sync::Arc;

impl<T, B: Buffer<T>, A: Allocator> Buffer<T> for Arc<B, A> {
    ghost list = { λ b. B.list (arc_value b) };

    ghost places = { λ b. length (B.list (arc_value b)) };

    fn as_slice(&self) -> &[T] {
        (**self).as_slice()
    }

    ghost says_unique = { λ _ answer. answer ≡ false };

    /// False: a borrowed `Arc` can't find out whether it is the only one.
    fn is_unique(&self) -> bool {
        false
    }
}

impl<B: BorrowMetadata, A: Allocator> BorrowMetadata for Arc<B, A> {
    type Metadata = B::Metadata;

    ghost metadata = { λ b. B.metadata (arc_value b) };

    fn borrow_metadata(&self) -> &B::Metadata {
        (**self).borrow_metadata()
    }
}
