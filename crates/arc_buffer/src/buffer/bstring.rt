//! Byte strings as buffers of bytes.
ghost use Rattle.std.specs.Prelude.{◌≡◌, true, length};
ghost use Rattle.bstr.specs.Owned.{bstring_bytes};

use super::Buffer;
use bstr::BString;

impl Buffer<u8> for BString {
    ghost list = { bstring_bytes };

    ghost places = { λ s. length (bstring_bytes s) };

    fn as_slice(&self) -> &[u8] {
        self.as_bytes()
    }

    ghost says_unique = { λ _ answer. answer ≡ true };

    /// True: its items are its own.
    fn is_unique(&self) -> bool {
        true
    }
}
