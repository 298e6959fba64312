//! A place that a window may take.
ghost use Rattle.std.specs.Prelude.{◌≡◌, None};

use std::mem;

/// Puts a slot, if there is one, into a place that has none.
pub fn set_slot<X>(place: &mut Option<X>, slot: Option<X>)
    requires { place.old ≡ None }
    ensures { place.new ≡ slot }
{
    let left = mem::replace(place, slot);
    let None = left else { unreachable!() };
}
