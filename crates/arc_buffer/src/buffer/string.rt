//! Strings as buffers of bytes.
ghost use Rattle.std.specs.Prelude.{◌≡◌, true, length};
ghost use Rattle.std.specs.String.{string_bytes};

use super::Buffer;
use std::alloc::Allocator;

impl<A: Allocator> Buffer<u8> for String<A> {
    ghost list = { string_bytes };

    ghost places = { λ s. length (string_bytes s) };

    fn as_slice(&self) -> &[u8] {
        self.as_bytes()
    }

    ghost says_unique = { λ _ answer. answer ≡ true };

    /// True: its items are its own.
    fn is_unique(&self) -> bool {
        true
    }
}
