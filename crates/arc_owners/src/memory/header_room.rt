//! A place for a header, in which nothing lies.
ghost use Rattle.std.specs.Prelude.{◌≡◌};
ghost use mir.Raw.{raw};
ghost use denote.Param.{layout};
ghost use denote.RawPtr.{room_for};

use super::box_parts::BoxParts;
use std::marker::Model;
use std_alloc::vec::Lodged;

/// A place in which nothing lies, and in which a value of type X fits, in memory that somebody else
/// frees: a pointer. It is neither copied nor dropped.
pub struct HeaderRoom<X> {
    pub at: *mut X,
}

impl<X> Model for HeaderRoom<X> {
    ghost also_owns = { λ r. room_for (raw (layout X.row)) r.at };
}

impl<X> HeaderRoom<X> {
    /// Puts a value there.
    pub(crate) fn hold(self, value: X) -> BoxParts<X, Lodged>
        ensures { (result.value ≡ value) × (result.at ≡ self.at) }
    {
        let HeaderRoom { at } = self;
        unsafe {
            at.write(value);
        }
        let alloc = Lodged;
        BoxParts { at, alloc }
    }

    /// The place of a value as an empty room, and the value.
    pub(crate) fn of(parts: BoxParts<X, Lodged>) -> (HeaderRoom<X>, X)
        ensures { (result.0.at ≡ parts.at) × (result.1 ≡ parts.value) }
    {
        let BoxParts { at, alloc: _ } = parts;
        let value = unsafe { at.read() };
        (HeaderRoom { at }, value)
    }
}

unsafe impl<X> Send for HeaderRoom<X> {}

// A `&` to it gives access to nothing.
unsafe impl<X> Sync for HeaderRoom<X> {}
