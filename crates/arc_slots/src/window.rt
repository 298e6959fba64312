//! The window of a slot, whatever its role.
ghost use Rattle.std.specs.Prelude.{◌≡◌, Bool, true, false, IfErr, IfOk};
ghost use Rattle.arc_owners.specs.count.Calls.{Leaves};
ghost use Rattle.arc_buffer.specs.Slice.{IsRange, sub};
ghost use Rattle.arc_block.specs.Place.{at_owner};
ghost use Rattle.arc_parts.specs.Steps.{IsPassAt, Refuses, Shares};
ghost use Rattle.arc_commands.specs.Blocks.{is_writer};
ghost use Rattle.arc_read.specs.Cuts.{sub_place};
ghost use Rattle.arc_slots.specs.Slots.{as_held, bare_held, bare_read, role_fits};
ghost use Rattle.arc_slots.specs.Slots.{role_in, window_in};

use arc_block::layout::{Layout, LayoutMut};
use arc_buffer::buffer::BufferMut;
use arc_buffer::kinds::Slice;
use arc_kinds::kinds::{SmallOf, SmallWindow, TableKind};
use arc_owners::error::OwnerError;
use arc_owners::mark::Whole;
use arc_owners::owners::Pass;
use arc_read::slice::ArcSlice;
use arc_write::slice_mut::ArcSliceMut;
use std::alloc::Allocator;
use std::sync::Wait;

/// A window of a slot, by its role.
pub enum Held<R, W, V, K> {
    /// One that is read.
    Read(R),
    /// A sole writer's.
    Write(W),
    /// One of several writers'.
    Several(V),
    /// A small one.
    Small(K),
}

/// The window of a slot. K is a writer's layout.
pub type AnyWindow<S, L, K, B, M, A> = Held<
    ArcSlice<S, L, B, M, A, Whole>,
    ArcSliceMut<S, K, 1, B, M, A, Whole>,
    ArcSliceMut<S, K, 0, B, M, A, Whole>,
    SmallWindow<S, L, M, A>,
>;

/// A window that isn't written: one that is read, or a small one. Clones and cuts of a slot's
/// window are of this type, which is smaller than what a slot holds.
pub enum ReadOnly<R, K> {
    /// One that is read.
    Read(R),
    /// A small one.
    Small(K),
}

/// The type of clones and cuts of a slot's window.
pub type ReadOnlyWindow<S, L, B, M, A> = ReadOnly<
    ArcSlice<S, L, B, M, A, Whole>,
    SmallWindow<S, L, M, A>,
>;

/// A clone or cut, as a slot holds it.
#[inline(always)]
pub(crate) fn hold_window<
    S: TableKind,
    L: Layout,
    K: LayoutMut,
    B: BufferMut<S::Item> + Drop,
    M: Drop,
    A: Allocator + Copy,
>(window: ReadOnlyWindow<S, L, B, M, A>) -> AnyWindow<S, L, K, B, M, A>
where
    S::Small: SmallOf<S, L, M, A>,
    ensures { bare_held result ≡ as_held (bare_read window) }
{
    match window {
        ReadOnly::Read(window) => Held::Read(window),
        ReadOnly::Small(window) => Held::Small(window),
    }
}

/// Another window with the same items, by `try_clone_as` of a reader's or of a small one.
#[inline(always)]
#[tactic(auto, using(crate::proofs::Bare::cloned_windows))]
pub(crate) fn clone_window<
    S: TableKind,
    L: Layout,
    K: LayoutMut,
    B: BufferMut<S::Item> + Drop,
    M: Drop,
    A: Allocator + Copy,
>(
    window: &AnyWindow<S, L, K, B, M, A>,
    rt: &impl Wait,
    pass: &mut Pass<Whole>,
) -> Result<ReadOnlyWindow<S, L, B, M, A>, OwnerError>
where
    S::Small: SmallOf<S, L, M, A>,
    requires cuts { is_writer (role_in (bare_held window.now)) ≡ false }
    requires fits { role_fits (bare_held window.now) ≡ true }
    requires pass { IsPassAt (window_in S.Small.seen (bare_held window.now)).place
        pass.old }
    ensures items { IfOk result (λ made.
        (window_in S.Small.seen (as_held (bare_read made))).items
        ≡ (window_in S.Small.seen (bare_held window.now)).items) }
    ensures role { IfOk result (λ made.
        role_in (as_held (bare_read made)) ≡ role_in (bare_held window.now)) }
    ensures place { IfOk result (λ made. Shares
        (window_in S.Small.seen (bare_held window.now)).place pass.old pass.new
        (window_in S.Small.seen (as_held (bare_read made))).place) }
    ensures refused { IfErr result (λ e. Refuses L.clone_wants
        (window_in S.Small.seen (bare_held window.now)).place
        pass.old pass.new e) }
{
    match window {
        Held::Read(window) => match window.try_clone_as(rt, pass) {
            Ok(made) => Ok(ReadOnly::Read(made)),
            Err(e) => Err(e),
        },
        Held::Small(window) => match S::Small::try_clone_as(window, rt, pass) {
            Ok(made) => Ok(ReadOnly::Small(made)),
            Err(e) => Err(e),
        },
        Held::Write(_) | Held::Several(_) => unreachable!(),
    }
}

/// A window over the items from `start` to `end`, by `try_subslice_as` of a reader's or of a small
/// one.
#[inline(always)]
#[tactic(auto, using(crate::proofs::Bare::cut_windows))]
pub(crate) fn cut_window<
    S: TableKind,
    L: Layout,
    K: LayoutMut,
    B: BufferMut<S::Item> + Drop,
    M: Drop,
    A: Allocator + Copy,
>(
    window: &AnyWindow<S, L, K, B, M, A>,
    rt: &impl Wait,
    start: usize,
    end: usize,
    pass: &mut Pass<Whole>,
) -> Result<ReadOnlyWindow<S, L, B, M, A>, OwnerError>
where
    S::Small: SmallOf<S, L, M, A>,
    requires cuts { is_writer (role_in (bare_held window.now)) ≡ false }
    requires fits { role_fits (bare_held window.now) ≡ true }
    requires range { IsRange S.boundary
        (window_in S.Small.seen (bare_held window.now)).items start end }
    requires pass { IsPassAt (window_in S.Small.seen (bare_held window.now)).place
        pass.old }
    ensures items { IfOk result (λ made.
        (window_in S.Small.seen (as_held (bare_read made))).items
        ≡ sub (window_in S.Small.seen (bare_held window.now)).items start end) }
    ensures role { IfOk result (λ made.
        role_in (as_held (bare_read made)) ≡ role_in (bare_held window.now)) }
    ensures place { IfOk result (λ made. Shares (sub_place L.STATIC
        (window_in S.Small.seen (bare_held window.now)) start end)
        pass.old pass.new
        (window_in S.Small.seen (as_held (bare_read made))).place) }
    ensures refused { IfErr result (λ e. Refuses L.clone_wants (sub_place L.STATIC
        (window_in S.Small.seen (bare_held window.now)) start end)
        pass.old pass.new e) }
{
    match window {
        Held::Read(window) => match window.try_subslice_as(rt, start, end, pass) {
            Ok(made) => Ok(ReadOnly::Read(made)),
            Err(e) => Err(e),
        },
        Held::Small(window) => match S::Small::try_subslice_as(window, rt, start, end, pass) {
            Ok(made) => Ok(ReadOnly::Small(made)),
            Err(e) => Err(e),
        },
        Held::Write(_) | Held::Several(_) => unreachable!(),
    }
}

/// Ends a window.
#[tactic(auto, using(crate::proofs::Bare::ended_windows))]
pub(crate) fn end_window<
    S: TableKind,
    L: Layout,
    K: LayoutMut,
    B: BufferMut<S::Item> + Drop,
    M: Drop,
    A: Allocator + Copy,
>(window: AnyWindow<S, L, K, B, M, A>, pass: &mut Pass<Whole>)
where
    S::Small: SmallOf<S, L, M, A>,
    requires { IsPassAt (window_in S.Small.seen (bare_held window)).place pass.old }
    ensures { at_owner (window_in S.Small.seen (bare_held window)).place
        (pass.new ≡ pass.old) (λ o. (last : Bool) × Leaves o pass.old pass.new last) }
{
    match window {
        Held::Read(window) => window.release_as(pass),
        Held::Write(window) => window.release_as(pass),
        Held::Several(window) => window.release_as(pass),
        Held::Small(window) => {
            let mut place = Some(window);
            S::Small::release_as(&mut place, pass);
        }
    }
}
