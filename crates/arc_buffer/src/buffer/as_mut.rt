//! A buffer of a type whose items can be written. It never grows.
ghost use Rattle.std.specs.Prelude.{◌≡◌, false, length, Err};
ghost use Rattle.std.proofs.Common.{ap, ◌∙◌};
ghost use Rattle.arc_owners.specs.declared.error.TryReserveError.TheVariants.{Unsupported};
ghost use Rattle.arc_buffer.specs.Buffers.{unsupported_names_no_owner, written_long};

use super::{BorrowMetadata, Buffer, BufferMut, LendMut};
use arc_owners::error::TryReserveError;
use std::marker::Model;

/// A buffer of a type whose items can be written. It never grows: it has as many places as items.
#[derive(Drop)]
pub struct AsMutBuffer<B> {
    inner: B,
}

impl<B> Model for AsMutBuffer<B> {
    ghost Value = { B };

    ghost view = { λ b. b.inner };
}

impl<B> AsMutBuffer<B> {
    /// Wraps a value.
    pub fn new(buffer: B) -> AsMutBuffer<B>
        ensures { result ≡ buffer }
    {
        AsMutBuffer { inner: buffer }
    }

    /// The value that is wrapped.
    pub fn into_inner(self) -> B
        ensures { result ≡ self }
    {
        self.inner
    }
}

impl<T, B: LendMut<T>> Buffer<T> for AsMutBuffer<B> {
    ghost list = { B.lent };

    ghost places = { λ b. length (B.lent b) };

    fn as_slice(&self) -> &[T] {
        self.inner.lend()
    }

    ghost says_unique = { λ _ answer. answer ≡ false };

    /// False: what others have of the value isn't known.
    fn is_unique(&self) -> bool {
        false
    }
}

impl<T, B: LendMut<T>> BufferMut<T> for AsMutBuffer<B> {
    ghost with_list = { B.with_lent };

    fn as_mut_slice(&mut self) -> &mut [T] {
        self.inner.lend_mut()
    }

    ghost with_part = { B.with_lent_part };

    fn as_mut_part(&mut self, start: usize, end: usize) -> &mut [T] {
        self.inner.lend_mut_part(start, end)
    }

    fn capacity(&self) -> usize {
        self.inner.lend().len()
    }

    ghost refuses = { λ _ _ e. e ≡ Unsupported };

    ghost grows = { λ _ _ _. ⊥ };

    /// Refuses always, also for no place, since the buffer never grows.
    ///
    /// # Errors
    ///
    /// `Unsupported`.
    fn try_reserve(&mut self, additional: usize) -> Result<(), TryReserveError>
        ensures refused { result ≡ Err Unsupported }
        ensures same { self.new ≡ self.old }
    {
        let _ = additional;
        Err(TryReserveError::Unsupported)
    }

    /// Refuses always, since each place has an item.
    ///
    /// # Errors
    ///
    /// The item comes back.
    fn try_push(&mut self, item: T) -> Result<(), T>
        ensures full { result ≡ Err item }
        ensures same { self.new ≡ self.old }
    {
        Err(item)
    }

    ghost keeps = { λ b xs same.
        (B.agrees b xs same, ap length (B.agrees b xs same) ∙ same) };

    ghost keeps_part = { λ b start xs. (
      B.agrees_part b start xs,
      ap length (B.agrees_part b start xs) ∙ written_long (B.lent b) start xs,
    ) };

    ghost names_no_owner = { λ _ _. unsupported_names_no_owner };
}

impl<B: BorrowMetadata> BorrowMetadata for AsMutBuffer<B> {
    type Metadata = B::Metadata;

    ghost metadata = { B.metadata };

    fn borrow_metadata(&self) -> &B::Metadata {
        self.inner.borrow_metadata()
    }
}
