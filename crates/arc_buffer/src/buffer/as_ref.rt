//! A buffer of a type that shows items. It is read only.
ghost use Rattle.std.specs.Prelude.{◌≡◌, false, length};

use super::{BorrowMetadata, Buffer, Lend};

/// A buffer of a type that shows items. It is read only.
#[derive(Drop)]
pub struct AsRefBuffer<B>(pub B);

impl<T, B: Lend<T>> Buffer<T> for AsRefBuffer<B> {
    ghost list = { λ b. B.lent b.0 };

    ghost places = { λ b. length (B.lent b.0) };

    fn as_slice(&self) -> &[T] {
        self.0.lend()
    }

    ghost says_unique = { λ _ answer. answer ≡ false };

    /// False: what others have of the value isn't known.
    fn is_unique(&self) -> bool {
        false
    }
}

impl<B: BorrowMetadata> BorrowMetadata for AsRefBuffer<B> {
    type Metadata = B::Metadata;

    ghost metadata = { λ b. B.metadata b.0 };

    fn borrow_metadata(&self) -> &B::Metadata {
        self.0.borrow_metadata()
    }
}
