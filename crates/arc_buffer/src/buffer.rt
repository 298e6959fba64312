//! Callers' buffers: lists that are read, and lists with places that are written.
ghost use Rattle.std.specs.Prelude.{◌≡◌, ◌≤◌, ◌<◌, ◌+◌, ◌++◌, ◌∷◌, ℕ, Bool, List, [], length};
ghost use Rattle.std.specs.Prelude.{IfErr, OnOk, OnErr};
ghost use Rattle.arc_owners.specs.declared.error.TryReserveError.{TryReserveError};
ghost use Rattle.std.specs.Borrow.{Array, Lends, sem};
ghost use Rattle.arc_buffer.specs.Buffers.{written_from};
ghost use Rattle.arc_buffer.specs.Slice.{sub};
ghost use Rattle.arc_owners.specs.declared.error.TryReserveError.TheVariants as reserve;

use arc_owners::error::TryReserveError;
pub use as_mut::AsMutBuffer;
pub use as_ref::AsRefBuffer;
pub use lend::{Lend, LendMut};
pub use metadata::BorrowMetadata;

mod arc;
mod as_mut;
mod as_ref;
mod boxed;
mod bstring;
mod lend;
mod metadata;
mod slice;
mod string;
mod vec;

/// A caller's buffer of items. Its list stays the same while nobody writes.
pub trait Buffer<T> {
    /// Its items.
    ghost list: { Self → List T };

    /// How many places it has: as many as items, where it is only read.
    ghost places: { Self → ℕ };

    /// Its items.
    fn as_slice(&self) -> &[T]
        ensures value { result.now ≡ list self.now }
        ensures bound { length (list self.now) ≤ places self.now };

    /// What `is_unique` may answer.
    ghost says_unique: { Self → Bool → Type 0 };

    /// Whether no other owner has a part of the buffer, as the buffer says.
    fn is_unique(&self) -> bool
        ensures { says_unique self.now result };
}

/// A buffer that may be written, with room for more items.
pub trait BufferMut<T>: Buffer<T> {
    /// The same buffer with other items.
    ghost with_list: { Self → List T → Self };

    /// Its items, to be changed in their places.
    fn as_mut_slice(&mut self) -> &mut [T]
        ensures* writes_back { sem 𝓛 (Lends Self.row (Array T.row 0) self.entry result
            (with_list self.old)) }
        ensures value { result.now ≡ Self.list self.old };

    /// The same buffer with other items from a place on.
    ghost with_part: { Self → ℕ → List T → Self };

    /// The items from `start` to before `end`, to be changed in their places. A buffer lends its
    /// parts itself, since what is written in a part of a lent slice can't be handed on with the
    /// slice.
    fn as_mut_part(&mut self, start: usize, end: usize) -> &mut [T]
        requires range { (start ≤ end) × (end ≤ length (Self.list self.old)) }
        ensures* writes_back { sem 𝓛 (Lends Self.row (Array T.row 0) self.entry result
            (with_part self.old start)) }
        ensures value { result.now ≡ sub (Self.list self.old) start end };

    /// How many places it has.
    fn capacity(&self) -> usize
        ensures value { result ≡ Self.places self.now }
        ensures bound { length (Self.list self.now) ≤ result };

    /// With which errors it may refuse to make room for so many items more.
    ghost refuses: { Self → ℕ → TryReserveError → Type 0 };

    /// How many places it may have after it made room for so many items more.
    ghost grows: { Self → (additional places : ℕ) → Type 0 };

    /// Makes room for `additional` items more than there are. The list stays the same.
    ///
    /// # Errors
    ///
    /// `AllocError`, `Unsupported` or `CapacityOverflow`, as the buffer says. It then has as many
    /// places as before.
    ///
    /// # Allocates
    ///
    /// Where it has too few places, as the buffer does.
    fn try_reserve(&mut self, additional: usize) -> Result<(), TryReserveError>
        ensures list { Self.list self.new ≡ Self.list self.old }
        ensures ok { OnOk result (length (Self.list self.old) + additional ≤ Self.places self.new) }
        ensures grown { OnOk result (grows self.old additional (Self.places self.new)) }
        ensures refused { IfErr result (λ e. refuses self.old additional e) }
        ensures back { OnErr result (Self.places self.new ≡ Self.places self.old) };

    /// Appends an item, where there is a place for it. It takes no memory.
    ///
    /// # Errors
    ///
    /// The item comes back where each place has one.
    fn try_push(&mut self, item: T) -> Result<(), T>
        ensures ok { OnOk result ((length (Self.list self.old) < Self.places self.old)
            × (Self.list self.new ≡ Self.list self.old ++ item ∷ [])) }
        ensures full { IfErr result (λ back. (Self.places self.old ≡ length (Self.list self.old))
            × (back ≡ item) × (Self.list self.new ≡ Self.list self.old)) }
        ensures places { Self.places self.new ≡ Self.places self.old };

    /// A buffer whose items are written has the list that is written, and as many places as before.
    ghost keeps: { (b : Self) (xs : List T) → length xs ≡ length (Self.list b)
        → (Self.list (with_list b xs) ≡ xs) × (Self.places (with_list b xs) ≡ Self.places b) };

    /// A buffer whose items are written from a place on has the list that is written there, as far
    /// as its items go.
    ghost keeps_part: { (b : Self) (start : ℕ) (xs : List T)
        → (Self.list (with_part b start xs) ≡ written_from (Self.list b) start xs)
        × (Self.places (with_part b start xs) ≡ Self.places b) };

    /// A buffer never refuses with `NotUnique`, since it has no other owners.
    ghost names_no_owner: { (b : Self) (additional : ℕ)
        → refuses b additional reserve.NotUnique → ⊥ };
}
