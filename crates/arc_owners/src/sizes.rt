//! How many bytes a value of any type takes.
ghost use Rattle.std.specs.Prelude.{◌≡◌};
ghost use Rattle.std.specs.Mem.{type_size};
ghost use prog.Memory.{capped};

use std::mem::size_of;

/// How many bytes a value of type X takes, as one word, whatever X is: of a size that is no word
/// it answers the greatest word.
#[inline(always)]
pub fn type_bytes<X>() -> usize
    ensures { result ≡ capped (type_size X.row) }
{
    size_of::<X>()
}
