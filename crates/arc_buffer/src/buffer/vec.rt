//! Vectors as buffers.
ghost use Rattle.std.specs.Prelude.{◌≡◌, ◌≤◌, ◌<◌, ◌+◌, ◌++◌, ◌∷◌, [], length, refl, true, OnOk};
ghost use Rattle.std.specs.Prelude.{OnErr, IfErr};
ghost use Rattle.std.specs.Vec.{vec_items, vec_capacity, with_items, with_items_from};
ghost use Rattle.std.proofs.Common.{sym, ◌∙◌};
ghost use Rattle.std.proofs.lemmas.List.{with_items_is};
ghost use Rattle.arc_buffer.specs.Buffers.{vec_refusal, vec_names_no_owner, vec_written};

use super::{Buffer, BufferMut};
use arc_owners::error::TryReserveError;
use std::alloc::Allocator;

impl<T, A: Allocator> Buffer<T> for Vec<T, A> {
    ghost list = { vec_items };

    ghost places = { vec_capacity };

    fn as_slice(&self) -> &[T] {
        Vec::as_slice(self)
    }

    ghost says_unique = { λ _ answer. answer ≡ true };

    /// True: its items are its own.
    fn is_unique(&self) -> bool {
        true
    }
}

impl<T, A: Allocator> BufferMut<T> for Vec<T, A> {
    ghost with_list = { with_items };

    fn as_mut_slice(&mut self) -> &mut [T] {
        Vec::as_mut_slice(self)
    }

    ghost with_part = { with_items_from };

    fn as_mut_part(&mut self, start: usize, end: usize) -> &mut [T] {
        self.slice_mut(start..end)
    }

    fn capacity(&self) -> usize {
        Vec::capacity(self)
    }

    ghost refuses = { λ v additional e. (vec_capacity v < length (vec_items v) + additional)
        × (e ≡ vec_refusal (length (vec_items v) + additional)) };

    ghost grows = { λ v additional places. length (vec_items v) + additional ≤ places };

    /// Makes room for `additional` items more than there are. The list stays the same.
    ///
    /// # Errors
    ///
    /// Only where it has too few places: `CapacityOverflow` where it would need more than
    /// `isize::MAX` places, else `AllocError`. It then has as many places as before.
    ///
    /// # Allocates
    ///
    /// Where it has too few places, as the vector does.
    fn try_reserve(&mut self, additional: usize) -> Result<(), TryReserveError> {
        let len = self.len();
        match self.reserve(additional) {
            Ok(()) => Ok(()),
            Err(_) if additional > isize::MAX as usize - len => {
                Err(TryReserveError::CapacityOverflow)
            }
            Err(_) => Err(TryReserveError::AllocError),
        }
    }

    fn try_push(&mut self, item: T) -> Result<(), T>
        ensures ok { OnOk result ((length (vec_items self.old) < vec_capacity self.old)
            × (vec_items self.new ≡ vec_items self.old ++ item ∷ [])) }
        ensures full { IfErr result (λ back. (vec_capacity self.old ≡ length (vec_items self.old))
            × (back ≡ item) × (vec_items self.new ≡ vec_items self.old)) }
        ensures places { vec_capacity self.new ≡ vec_capacity self.old }
    {
        if self.len() == Vec::capacity(self) {
            return Err(item);
        }
        self.push_reserved(item);
        Ok(())
    }

    ghost keeps = { λ v xs same. (with_items_is v xs (same ∙ sym v.ok.0), refl) };

    ghost keeps_part = { λ v start xs. (vec_written v start xs, refl) };

    ghost names_no_owner = { λ v additional refused.
        vec_names_no_owner (length (vec_items v) + additional) refused.1 };
}
