//! Values that show a slice.
ghost use Rattle.std.specs.Prelude.{◌≡◌, List};

/// A value that shows a slice: always the same list, while nobody writes.
pub trait Shows<T> {
    /// The list that it shows.
    ghost shown: { Self → List T };

    /// The slice that it shows.
    fn show(&self) -> &[T]
        ensures { result.now ≡ shown self.now };
}
