//! Room for more items: where it comes from.
ghost use Rattle.std.specs.Prelude.{◌≡◌, ◌≤◌, ◌+◌, ◌-◌, true, false, not};
ghost use Rattle.std.specs.Mem.{type_size};
ghost use Rattle.arc_block.specs.Block.{memory_info, memory_sort};
ghost use Rattle.arc_parts.specs.Room.{growth, vector_room, is_too_large, room_in as room_by};
ghost use Rattle.arc_parts.specs.Room.{IfBehind, IfGrowth, IfFront, IfOwn};

use arc_buffer::kinds::Slice;
use arc_owners::error::TryReserveError;
use arc_owners::sizes::type_bytes;

/// Where room for more items comes from.
#[derive(Drop)]
pub enum Room {
    /// The window has the places.
    Spare,
    /// A new block of this many places.
    Fresh(usize),
    /// The block's places behind the window.
    Behind,
    /// All places of the block, after the items are moved to its front.
    Front,
    /// The block, which grows to this many places.
    Growth(usize),
    /// The caller's buffer, which is asked for room for this many items more.
    Own(usize),
    /// Nowhere, for this reason.
    Refused(TryReserveError),
}

/// The greatest number of places to which a block grows, and of bytes.
pub const MOST: usize = 9223372036854775807;

/// Whether a block may have this many places, also by their bytes.
fn has_room<T>(places: usize) -> bool
    ensures { result ≡ not (is_too_large (type_size T.row) places) }
{
    match places.checked_mul(type_bytes::<T>()) {
        Some(bytes) => places <= MOST && bytes <= MOST,
        None => false,
    }
}

/// Room by growth of a block of `size` places, for `additional` items behind `end`.
fn growth_to<T>(is_vector: bool, size: usize, end: usize, additional: usize) -> Room
    ensures room { result ≡ growth (memory_sort is_vector) (type_size T.row) size end additional }
    ensures memory { IfOwn result ⊥ }
{
    let Some(needed) = end.checked_add(additional) else {
        return Room::Refused(TryReserveError::CapacityOverflow);
    };
    let doubled = size.checked_mul(2).unwrap_or(0);
    let places = if doubled < needed { needed } else { doubled };
    if is_vector {
        return vector_growth::<T>(places, needed);
    }
    match places.checked_mul(type_bytes::<T>()) {
        Some(bytes) if needed <= MOST && bytes <= MOST => Room::Growth(places),
        _ => Room::Refused(TryReserveError::CapacityOverflow),
    }
}

/// Room by growth of a vector to `places`, or to the `needed` places where `places` are too many.
fn vector_growth<T>(places: usize, needed: usize) -> Room
    ensures room { result ≡ vector_room (type_size T.row) places needed }
    ensures memory { IfOwn result ⊥ }
{
    if !has_room::<T>(needed) {
        return Room::Refused(TryReserveError::CapacityOverflow);
    }
    Room::Growth(if has_room::<T>(places) {
        places
    } else {
        needed
    })
}

/// Where a writer of `len` items at `offset`, in a block of `size` places of which `full` are full,
/// has room for `additional` more. The block is a vector, or a native one.
pub fn room_in<S: Slice>(
    is_vector: bool,
    size: usize,
    full: usize,
    offset: usize,
    len: usize,
    additional: usize,
) -> Room
    requires within { (offset + len ≤ full) × (full ≤ size) }
    ensures room { result ≡ room_by {M = Unit {0}} S.DROPS (type_size S.Item.row)
        (memory_info (memory_sort is_vector) S.DROPS size full) offset len additional }
    ensures behind { IfBehind result ((additional ≤ size - offset - len)
        × (S.DROPS ≡ true → offset + len ≡ full)) }
    ensures grows { IfGrowth result (λ places. (size ≤ places)
        × (offset + len + additional ≤ places)) }
    ensures front { IfFront result ((S.DROPS ≡ false) × (len + additional ≤ size)) }
    ensures memory { IfOwn result ⊥ }
{
    if S::DROPS && offset + len != full {
        return Room::Refused(TryReserveError::Unsupported);
    }
    if additional <= size - offset - len {
        return Room::Behind;
    }
    if !S::DROPS && len <= offset && additional <= size - len {
        return Room::Front;
    }
    growth_to::<S::Item>(is_vector, size, offset + len, additional)
}
