//! Traits of a caller's type that lends its items, to be read or to be written.
ghost use Rattle.std.specs.Borrow.{Array, Lends, sem};
ghost use Rattle.std.specs.Prelude.{◌≡◌, ◌≤◌, ℕ, List, length};
ghost use Rattle.arc_buffer.specs.Buffers.{written_from};
ghost use Rattle.arc_buffer.specs.Slice.{sub};

/// A type that lends its items to be read, as `AsRef` does. Its list stays the same while nobody
/// writes.
pub trait Lend<T> {
    /// The items that it lends.
    ghost lent: { Self → List T };

    /// The items that it lends.
    fn lend(&self) -> &[T]
        ensures { result.now ≡ lent self.now };
}

/// A type that lends its items to be written too, as `AsMut` does. What is read and what is written
/// is one list.
pub trait LendMut<T>: Lend<T> {
    /// The same value with other items.
    ghost with_lent: { Self → List T → Self };

    /// The items that it lends, to be changed in their places.
    fn lend_mut(&mut self) -> &mut [T]
        ensures* writes_back { sem 𝓛 (Lends Self.row (Array T.row 0) self.entry result
            (with_lent self.old)) }
        ensures value { result.now ≡ Self.lent self.old };

    /// The same value with other items from a place on.
    ghost with_lent_part: { Self → ℕ → List T → Self };

    /// The items from `start` to before `end`, to be changed in their places.
    fn lend_mut_part(&mut self, start: usize, end: usize) -> &mut [T]
        requires range { (start ≤ end) × (end ≤ length (Self.lent self.old)) }
        ensures* writes_back { sem 𝓛 (Lends Self.row (Array T.row 0) self.entry result
            (with_lent_part self.old start)) }
        ensures value { result.now ≡ sub (Self.lent self.old) start end };

    /// After a write from one of its places on, it lends what is written there, as far as its items
    /// go.
    ghost agrees_part: { (b : Self) (start : ℕ) (xs : List T)
        → Self.lent (with_lent_part b start xs) ≡ written_from (Self.lent b) start xs };

    /// After a write in its places, it lends what is written.
    ghost agrees: { (b : Self) (xs : List T) → length xs ≡ length (Self.lent b)
        → Self.lent (with_lent b xs) ≡ xs };
}
