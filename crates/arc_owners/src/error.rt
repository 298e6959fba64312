//! The errors of all layers, which return these and no others.
ghost use Rattle.std.specs.Prelude.{◌≡◌};
ghost use Rattle.arc_owners.specs.declared.error.OwnerError.TheVariants as owner;
ghost use Rattle.arc_owners.specs.declared.error.TryReserveError.TheVariants as reserve;

use std::alloc;
use thiserror::Error;

/// A request for memory is refused, or its size can't be asked for.
#[derive(Clone, Copy, Debug, PartialEq, Eq, Error)]
#[error("allocation error")]
pub struct AllocError;

impl From<alloc::AllocError> for AllocError {
    fn from(_: alloc::AllocError) -> Self {
        AllocError
    }
}

impl<T: Drop> From<alloc::AllocFailed<T>> for AllocError {
    fn from(_: alloc::AllocFailed<T>) -> Self {
        AllocError
    }
}

/// As many owners of the block live as its count can count.
#[derive(Clone, Copy, Debug, PartialEq, Eq, Error)]
#[error("count full")]
pub struct CountFull;

/// Why no other owner of a window's block is made.
#[derive(Clone, Copy, Debug, PartialEq, Eq, Error)]
pub enum OwnerError {
    /// A request for memory is refused.
    #[error("allocation error")]
    AllocError,
    /// As many owners live as the count can count.
    #[error("count full")]
    CountFull,
}

impl From<AllocError> for OwnerError {
    ghost from_gives = { λ _ e. e ≡ owner.AllocError };

    fn from(_: AllocError) -> Self {
        OwnerError::AllocError
    }
}

impl From<alloc::AllocError> for OwnerError {
    ghost from_gives = { λ _ e. e ≡ owner.AllocError };

    fn from(_: alloc::AllocError) -> Self {
        OwnerError::AllocError
    }
}

impl From<CountFull> for OwnerError {
    ghost from_gives = { λ _ e. e ≡ owner.CountFull };

    fn from(_: CountFull) -> Self {
        OwnerError::CountFull
    }
}

/// Why there is no room for more items.
#[derive(Clone, Copy, Debug, PartialEq, Eq, Error)]
pub enum TryReserveError {
    /// Another owner of the block lives.
    #[error("not unique")]
    NotUnique,
    /// The block can't grow, or items behind the window are in the way.
    #[error("unsupported")]
    Unsupported,
    /// A request for memory is refused.
    #[error("allocation error")]
    AllocError,
    /// The room asked for is more than a block can have.
    #[error("capacity overflow")]
    CapacityOverflow,
}

impl From<AllocError> for TryReserveError {
    ghost from_gives = { λ _ e. e ≡ reserve.AllocError };

    fn from(_: AllocError) -> Self {
        TryReserveError::AllocError
    }
}

impl From<alloc::AllocError> for TryReserveError {
    ghost from_gives = { λ _ e. e ≡ reserve.AllocError };

    fn from(_: alloc::AllocError) -> Self {
        TryReserveError::AllocError
    }
}

/// Why a window can't be cut so.
#[derive(Clone, Copy, Debug, PartialEq, Eq, Error)]
pub enum RangeError {
    /// It goes past the length.
    #[error("out of range")]
    OutOfRange,
    /// Its start is past its end.
    #[error("invalid range")]
    InvalidRange,
    /// It begins or ends inside a character.
    #[error("not a char boundary")]
    NotBoundary,
}
