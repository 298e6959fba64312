//! Metadata that lies in a buffer.
ghost use Rattle.std.specs.Prelude.{◌≡◌};

/// A buffer that has metadata of its own.
pub trait BorrowMetadata {
    /// The metadata.
    type Metadata;

    /// Its metadata.
    ghost metadata: { Self → Self.Metadata };

    /// Its metadata.
    fn borrow_metadata(&self) -> &Self::Metadata
        ensures { result.now ≡ metadata self.now };
}
