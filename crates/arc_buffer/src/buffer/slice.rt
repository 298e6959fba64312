//! Borrowed slices as buffers, `'static` ones above all.
ghost use Rattle.std.specs.Prelude.{◌≡◌, false, length};

use super::Buffer;

impl<'a, T> Buffer<T> for &'a [T] {
    ghost list = { λ s. s.now };

    ghost places = { λ s. length s.now };

    fn as_slice(&self) -> &[T] {
        self
    }

    ghost says_unique = { λ _ answer. answer ≡ false };

    /// False: the lender of the slice has it too.
    fn is_unique(&self) -> bool {
        false
    }
}
