//! Writers of items of any type. The code that makes room and pushes items knows of the type only
//! that its values can be dropped, or copied.
ghost use Rattle.std.specs.Prelude.{◌≡◌, ◌≤◌, ◌+◌, ◌++◌, ◌∷◌, [], length, IfErr, OnErr, OnOk};
ghost use Rattle.arc_parts.specs.Writers.{capacity_of};

use arc_slice::ArcSliceMut;
use arc_slice::buffer::{Owned, Plain, Slice};
use arc_slice::error::TryReserveError;
use arc_slice::layout::DefaultLayoutMut;

/// Makes room for so many items more, of any kind: whether that took no memory, and then whether
/// there is room.
pub fn room_made<S: Slice>(
    window: &mut ArcSliceMut<S, DefaultLayoutMut, 1>,
    more: usize,
) -> (bool, Result<(), TryReserveError>)
    ensures { OnOk result.1 (length window.new.items + more ≤ capacity_of window.new.role) }
{
    (window.try_reclaim(more), window.try_reserve(more))
}

/// Appends an item, once there is room for two. Where there is none it comes back.
pub fn pushed<T: Drop>(
    window: &mut ArcSliceMut<Owned<T>, DefaultLayoutMut, 1>,
    item: T,
) -> Result<(), (TryReserveError, T)>
    ensures made { OnOk result (window.new.items ≡ window.old.items ++ item ∷ []) }
    ensures refused { IfErr result (λ r. (r.1 ≡ item) × (window.new.items ≡ window.old.items)) }
{
    match window.try_reserve(2) {
        Ok(()) => window.try_push(item),
        Err(e) => Err((e, item)),
    }
}

/// Appends an item that is copied to one of several writers, once there is room for two.
pub fn pushed_beside<T: Copy + Drop>(
    window: &mut ArcSliceMut<Plain<T>, DefaultLayoutMut, 0>,
    item: T,
) -> Result<(), (TryReserveError, T)>
    ensures made { OnOk result (window.new.items ≡ window.old.items ++ item ∷ []) }
    ensures refused { OnErr result (window.new.items ≡ window.old.items) }
{
    match window.try_reserve(2) {
        Ok(()) => window.try_push(item),
        Err(e) => Err((e, item)),
    }
}
