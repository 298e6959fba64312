//! Boxed slices as buffers.
ghost use Rattle.std.specs.Prelude.{◌≡◌, true, length};
ghost use Rattle.std.specs.Box.{boxed_slice_items};

use super::Buffer;
use std::alloc::Allocator;
use std::boxed::BoxedSlice;

impl<T, A: Allocator> Buffer<T> for BoxedSlice<T, A> {
    ghost list = { boxed_slice_items };

    ghost places = { λ b. length (boxed_slice_items b) };

    fn as_slice(&self) -> &[T] {
        &self[..]
    }

    ghost says_unique = { λ _ answer. answer ≡ true };

    /// True: its items are its own.
    fn is_unique(&self) -> bool {
        true
    }
}
