//! The calls that not all kinds have, and which kind has which.
ghost use Rattle.std.specs.Prelude.{◌≡◌, ◌≤◌, ◌∷◌, [], Err, true, false, length, is_some, refl};
ghost use Rattle.std.specs.Prelude.{◌&&◌, IfNone, IfSome, None};
ghost use Rattle.std.specs.Prelude.{IfOk, IfErr, OnErr, OnOk};
ghost use Rattle.std.specs.Mem.{type_size};
ghost use Rattle.std.specs.Str.{IsUtf8};
ghost use Rattle.arc_owners.specs.count.Calls.{IsPassOfNone};
ghost use Rattle.arc_owners.specs.declared.mark.Whole.{Whole as whole_mark};
ghost use Rattle.arc_block.specs.Table.{bare};
ghost use Rattle.arc_parts.specs.Shared.{CanSplit, IsOneBlock, LeavesAt, MakesSharedRoom};
ghost use Rattle.arc_parts.specs.Shared.{PushesShared, RefusesSplitAt, SplitsWriterOff};
ghost use Rattle.arc_parts.specs.Shared.{SplitsWriterTo, as_shared, asks_alone, can_join};
ghost use Rattle.arc_parts.specs.Shared.{LeavesVector, is_vector_at, joined_row};
ghost use Rattle.arc_parts.specs.Steps.{Begins, IsPassAt, Makes};
ghost use Rattle.arc_parts.specs.Window.{IsOfBuffer, NeedsBlock};
ghost use Rattle.arc_parts.specs.Writers.{MakesRoom, MakesWriter, Pushes, capacity_of};
ghost use Rattle.arc_parts.specs.Writers.{room_for};
ghost use Rattle.arc_commands.specs.Changes.{Calls};
ghost use Rattle.arc_kinds.specs.Passes.{is_any};

use super::smalls::Smalls;
use arc_block::layout::{Layout, LayoutMut};
use arc_buffer::buffer::BufferMut;
use arc_buffer::kinds::{
    Concatenable, CopySlice, Extendable, Shareable, Slice, Subsliceable, Text,
};
use arc_owners::error::{AllocError, OwnerError, TryReserveError};
use arc_owners::mark::Whole;
use arc_owners::owners::Pass;
use arc_read::slice::ArcSlice;
use arc_write::slice_mut::ArcSliceMut;
use std::alloc::Allocator;
use std::marker::PhantomData;
use std::str;
use std::sync::Wait;

/// Which calls a kind S has, of those that not all kinds have, and the calls themselves. A call
/// that the kind hasn't is answered `None`, and changes nothing.
pub trait CallsOf<S: Subsliceable> {
    /// Which calls the kind has.
    ghost calls: { Calls };

    /// Whether windows over a copy of a list are made.
    fn copies() -> bool
        ensures { result ≡ calls.copies };

    /// Whether one item may be appended.
    fn pushes() -> bool
        ensures { result ≡ calls.pushes };

    /// Whether a copy of items may be appended.
    fn extends() -> bool
        ensures { result ≡ calls.extends };

    /// Whether each list is legal: then a window may be made of a caller's buffer.
    fn any_list() -> bool
        ensures { result ≡ calls.any_list };

    /// Whether several writers may write one block.
    fn shares() -> bool
        ensures { result ≡ calls.shares };

    /// A vector with a copy of the items.
    ///
    /// # Errors
    ///
    /// `AllocError` where memory for it is refused.
    ///
    /// # Allocates
    ///
    /// Once, unless there are no items.
    fn try_copy<A: Allocator>(
        alloc: A,
        items: &[S::Item],
    ) -> Option<Result<Vec<S::Item, A>, AllocError>>
        ensures call { is_some result ≡ calls.copies }
        ensures copied { IfSome result (λ made. IfOk made (λ copy. copy.items ≡ items.now)) };

    /// A window that is read, over a copy of the items, as `ArcSlice::try_from_slice_as` makes it.
    /// The items are legal.
    ///
    /// # Errors
    ///
    /// `AllocError` where memory for a block is refused; the pass is then as before.
    ///
    /// # Allocates
    ///
    /// Once, where a block is needed.
    ///
    /// # History
    ///
    /// Where a block is made its history begins, with the window as owner 0.
    fn try_read_as<L: Layout, B: BufferMut<S::Item> + Drop, M: Drop, A: Allocator + Copy>(
        alloc: A,
        items: &[S::Item],
        pass: &mut Pass<Whole>,
    ) -> Option<Result<ArcSlice<S, L, B, M, A, Whole>, AllocError>>
        requires legal { ∥ S.is_legal items.now ∥₁ }
        requires pass { IsPassOfNone pass.old }
        ensures call { is_some result ≡ calls.copies }
        ensures ok { IfSome result (λ made. IfOk made (λ window.
            Makes L.STATIC S.DROPS true items.now window)) }
        ensures pass { IfSome result (λ made. IfOk made (λ window.
            Begins window pass.old pass.new)) }
        ensures refused { IfSome result (λ made. OnErr made (NeedsBlock L.STATIC items.now
            × (pass.new ≡ pass.old))) }
        ensures none { IfNone result (pass.new ≡ pass.old) };

    /// A window that is written, over a copy of the items, as `ArcSliceMut::try_from_slice_as`
    /// makes it. The items are legal.
    ///
    /// # Errors
    ///
    /// `AllocError` where memory for the block is refused; the pass is then as before.
    ///
    /// # Allocates
    ///
    /// Once, except for no items.
    ///
    /// # History
    ///
    /// Where a block is made its history begins, with the window as owner 0.
    fn try_written_as<L: LayoutMut, B: BufferMut<S::Item> + Drop, M: Drop, A: Allocator + Copy>(
        alloc: A,
        items: &[S::Item],
        pass: &mut Pass<Whole>,
    ) -> Option<Result<ArcSliceMut<S, L, 1, B, M, A, Whole>, AllocError>>
        requires legal { ∥ S.is_legal items.now ∥₁ }
        requires pass { IsPassOfNone pass.old }
        ensures call { is_some result ≡ calls.copies }
        ensures made { IfSome result (λ made. IfOk made (λ window. MakesWriter S.DROPS true
            items.now (length items.now) window pass.old pass.new)) }
        ensures refused { IfSome result (λ made. OnErr made ((1 ≤ length items.now)
            × (pass.new ≡ pass.old))) }
        ensures none { IfNone result (pass.new ≡ pass.old) };

    /// Appends an item to a sole writer's window, once there is room. A refused item is dropped.
    ///
    /// # Errors
    ///
    /// Where the window has too few places, in this order: `Unsupported` where items that are
    /// dropped one by one end before the block's full places, the refusal of a caller's buffer,
    /// `CapacityOverflow` where the block would have to grow to more than 2^63 - 1 places or bytes,
    /// and `AllocError` where memory is refused. The window is unchanged.
    ///
    /// # Allocates
    ///
    /// Once, where a first block is made or the block grows.
    ///
    /// # History
    ///
    /// None. Where a first block is made, the pass becomes that block's.
    fn try_push_as<L: LayoutMut, B: BufferMut<S::Item> + Drop, M: Drop, A: Allocator + Copy>(
        window: &mut ArcSliceMut<S, L, 1, B, M, A, Whole>,
        item: S::Item,
        pass: &mut Pass<Whole>,
    ) -> Option<Result<(), TryReserveError>>
        requires pass { IsPassAt window.old.place pass.old }
        ensures call { is_some result ≡ calls.pushes }
        ensures pushed { IfSome result (λ done. OnOk done (Pushes S.DROPS true
            (room_for S.DROPS (type_size S.Item.row) (bare window.old) 1) (item ∷ [])
            (bare window.old) (bare window.new) pass.old pass.new)) }
        ensures refused { IfSome result (λ done. IfErr done (λ e. MakesRoom S.DROPS true
            (room_for S.DROPS (type_size S.Item.row) (bare window.old) 1)
            (bare window.old) (bare window.new) pass.old pass.new (Err e))) }
        ensures none { IfNone result ((window.new ≡ window.old) × (pass.new ≡ pass.old)) };

    /// Appends a copy of the items, which are legal, to a sole writer's window, once there is room.
    ///
    /// # Errors
    ///
    /// Where the window has too few places, in this order: `Unsupported` where items that are
    /// dropped one by one end before the block's full places, the refusal of a caller's buffer,
    /// `CapacityOverflow` where the block would have to grow to more than 2^63 - 1 places or bytes,
    /// and `AllocError` where memory is refused. The window is unchanged.
    ///
    /// # Allocates
    ///
    /// Once, where a first block is made or the block grows.
    ///
    /// # History
    ///
    /// None. Where a first block is made, the pass becomes that block's.
    fn try_extend_as<L: LayoutMut, B: BufferMut<S::Item> + Drop, M: Drop, A: Allocator + Copy>(
        window: &mut ArcSliceMut<S, L, 1, B, M, A, Whole>,
        items: &[S::Item],
        pass: &mut Pass<Whole>,
    ) -> Option<Result<(), TryReserveError>>
        requires legal { ∥ S.is_legal items.now ∥₁ }
        requires pass { IsPassAt window.old.place pass.old }
        ensures call { is_some result ≡ calls.extends }
        ensures extended { IfSome result (λ done. OnOk done (Pushes S.DROPS true
            (room_for S.DROPS (type_size S.Item.row) (bare window.old) (length items.now)) items.now
            (bare window.old) (bare window.new) pass.old pass.new)) }
        ensures refused { IfSome result (λ done. IfErr done (λ e. MakesRoom S.DROPS true
            (room_for S.DROPS (type_size S.Item.row) (bare window.old) (length items.now))
            (bare window.old) (bare window.new) pass.old pass.new (Err e))) }
        ensures none { IfNone result ((window.new ≡ window.old) × (pass.new ≡ pass.old)) };

    /// Takes a sole writer's window out of its place, as that of one of several writers. Over a
    /// caller's buffer it answers `None`, and the window stays in its place. It adds no entry and
    /// takes no memory.
    fn into_shared<L: LayoutMut, B: BufferMut<S::Item> + Drop, M: Drop, A: Allocator + Copy>(
        sole: &mut Option<ArcSliceMut<S, L, 1, B, M, A, Whole>>,
    ) -> Option<ArcSliceMut<S, L, 0, B, M, A, Whole>>
        ensures call { IfSome result (λ _. calls.shares ≡ true) }
        ensures there { IfSome result (λ _. is_some sole.old ≡ true) }
        ensures shared { IfSome result (λ window. IfSome sole.old (λ w.
            (window ≡ as_shared w) × (¬ IsOfBuffer w.place))) }
        ensures taken { IfSome result (λ _. sole.new ≡ None) }
        ensures kept { IfNone result (sole.new ≡ sole.old) }
        ensures refused { IfNone result (calls.shares ≡ true
            → IfSome sole.old (λ w. IsOfBuffer w.place)) };

    /// Moves a window of one of several writers from its vector to a native block with as many
    /// places, and answers the new block's pass.
    ///
    /// # Errors
    ///
    /// `AllocError` where memory for the native block is refused. The window is unchanged.
    ///
    /// # Allocates
    ///
    /// Once.
    ///
    /// # History
    ///
    /// Down of the vector's owner, without an atomic step. The new block's history begins.
    fn try_leave_vector_as<
        L: LayoutMut,
        B: BufferMut<S::Item> + Drop,
        M: Drop,
        A: Allocator + Copy,
    >(
        window: &mut ArcSliceMut<S, L, 0, B, M, A, Whole>,
        pass: &mut Pass<Whole>,
    ) -> Option<Result<Pass<Whole>, AllocError>>
        requires vector { is_vector_at window.old.place ≡ true }
        requires pass { IsPassAt window.old.place pass.old }
        ensures call { is_some result ≡ calls.shares }
        ensures moved { IfSome result (λ made. IfOk made (λ new. LeavesVector false true
            window.old window.new pass.old pass.new new)) }
        ensures refused { IfSome result (λ made. OnErr made ((window.new ≡ window.old)
            × (pass.new ≡ pass.old))) }
        ensures none { IfNone result ((window.new ≡ window.old) × (pass.new ≡ pass.old)) };

    /// Splits a window of one of several writers: hands out the places behind the first `at`, with
    /// the items that lie there. The places of a vector are moved to a native block first, of which
    /// the pass becomes one.
    ///
    /// # Errors
    ///
    /// On a native block `CountFull`, exactly where `MAX_OWNERS` owners live, and on a vector
    /// `AllocError`, where memory for the native block is refused. The window is unchanged.
    ///
    /// # Allocates
    ///
    /// Once, on a vector.
    ///
    /// # History
    ///
    /// On a native block: Up, or Full where it is refused. On a vector: Down, without an atomic
    /// step, and Up in the new block.
    fn try_split_off_as<L: LayoutMut, B: BufferMut<S::Item> + Drop, M: Drop, A: Allocator + Copy>(
        window: &mut ArcSliceMut<S, L, 0, B, M, A, Whole>,
        rt: &impl Wait,
        at: usize,
        pass: &mut Pass<Whole>,
    ) -> Option<Result<ArcSliceMut<S, L, 0, B, M, A, Whole>, OwnerError>>
        requires at { CanSplit S.boundary window.old.items (capacity_of window.old.role) at }
        requires pass { IsPassAt window.old.place pass.old }
        ensures call { is_some result ≡ calls.shares }
        ensures made { IfSome result (λ made. IfOk made (λ back.
            SplitsWriterOff whole_mark is_any false true at
            window.old window.new back pass.old pass.new)) }
        ensures kept { IfSome result (λ made. IfErr made (λ _. window.new ≡ window.old)) }
        ensures refused { IfSome result (λ made. IfErr made
            (RefusesSplitAt window.old.place pass.old pass.new)) }
        ensures none { IfNone result ((window.new ≡ window.old) × (pass.new ≡ pass.old)) };

    /// Splits a window of one of several writers: hands out the first `at` places, with the items
    /// that lie there. The places of a vector are moved to a native block first, of which the pass
    /// becomes one.
    ///
    /// # Errors
    ///
    /// On a native block `CountFull`, exactly where `MAX_OWNERS` owners live, and on a vector
    /// `AllocError`, where memory for the native block is refused. The window is unchanged.
    ///
    /// # Allocates
    ///
    /// Once, on a vector.
    ///
    /// # History
    ///
    /// On a native block: Up, or Full where it is refused. On a vector: Down, without an atomic
    /// step, and Up in the new block.
    fn try_split_to_as<L: LayoutMut, B: BufferMut<S::Item> + Drop, M: Drop, A: Allocator + Copy>(
        window: &mut ArcSliceMut<S, L, 0, B, M, A, Whole>,
        rt: &impl Wait,
        at: usize,
        pass: &mut Pass<Whole>,
    ) -> Option<Result<ArcSliceMut<S, L, 0, B, M, A, Whole>, OwnerError>>
        requires at { CanSplit S.boundary window.old.items (capacity_of window.old.role) at }
        requires pass { IsPassAt window.old.place pass.old }
        ensures call { is_some result ≡ calls.shares }
        ensures made { IfSome result (λ made. IfOk made (λ front.
            SplitsWriterTo whole_mark is_any false true at
            window.old front window.new pass.old pass.new)) }
        ensures kept { IfSome result (λ made. IfErr made (λ _. window.new ≡ window.old)) }
        ensures refused { IfSome result (λ made. IfErr made
            (RefusesSplitAt window.old.place pass.old pass.new)) }
        ensures none { IfNone result ((window.new ≡ window.old) × (pass.new ≡ pass.old)) };

    /// Puts the other window's places behind this one's, where this one is full and the other
    /// begins where it ends, or where both stand on nothing. Else it answers `None`, and the other
    /// window stays in its place.
    ///
    /// # History
    ///
    /// Joined on a block: Down of the other owner. Else nothing.
    fn try_unsplit_as<L: LayoutMut, B: BufferMut<S::Item> + Drop, M: Drop, A: Allocator + Copy>(
        window: &mut ArcSliceMut<S, L, 0, B, M, A, Whole>,
        other: &mut Option<ArcSliceMut<S, L, 0, B, M, A, Whole>>,
        pass: &mut Pass<Whole>,
    ) -> Option<()>
        requires block { IfSome other.old (λ w. IsOneBlock window.old.place w.place) }
        requires pass { IsPassAt window.old.place pass.old }
        ensures call { IfSome result (λ _. calls.shares ≡ true) }
        ensures there { IfSome result (λ _. is_some other.old ≡ true) }
        ensures joined { IfSome result (λ _. IfSome other.old (λ w.
            (can_join window.old w ≡ true) × (window.new ≡ joined_row window.old w)
            × LeavesAt w.place pass.old pass.new)) }
        ensures taken { IfSome result (λ _. other.new ≡ None) }
        ensures kept { IfNone result ((window.new ≡ window.old) × (other.new ≡ other.old)
            × (pass.new ≡ pass.old)) }
        ensures refused { IfNone result (calls.shares ≡ true → IfSome other.old (λ w.
            can_join window.old w ≡ false)) };

    /// Appends an item to a window of one of several writers, once there is room. A refused item is
    /// dropped.
    ///
    /// # Errors
    ///
    /// Where the window has too few places, in this order: `NotUnique` where another owner of the
    /// block lives, `CapacityOverflow` where the block would have to grow to more than 2^63 - 1
    /// places or bytes, and `AllocError` where memory is refused. The window is unchanged.
    ///
    /// # Allocates
    ///
    /// Once, where a first block is made or the block grows.
    ///
    /// # History
    ///
    /// On a block, where the window has too few places: Alone with the answer. Where a first block
    /// is made, the pass becomes that block's.
    fn try_push_beside_as<L: LayoutMut, B: BufferMut<S::Item> + Drop, M: Drop, A: Allocator + Copy>(
        window: &mut ArcSliceMut<S, L, 0, B, M, A, Whole>,
        item: S::Item,
        pass: &mut Pass<Whole>,
    ) -> Option<Result<(), TryReserveError>>
        requires pass { IsPassAt window.old.place pass.old }
        ensures call { is_some result ≡ calls.pushes && calls.shares }
        ensures pushed { IfSome result (λ done. OnOk done (PushesShared
            (asks_alone (bare window.old) 1) true
            (room_for false (type_size S.Item.row) (bare window.old) 1) (item ∷ [])
            (bare window.old) (bare window.new) pass.old pass.new)) }
        ensures refused { IfSome result (λ done. IfErr done (λ e. MakesSharedRoom
            (asks_alone (bare window.old) 1) true
            (room_for false (type_size S.Item.row) (bare window.old) 1)
            (bare window.old) (bare window.new) pass.old pass.new (Err e))) }
        ensures none { IfNone result ((window.new ≡ window.old) × (pass.new ≡ pass.old)) };

    /// Appends a copy of the items, which are legal, to a window of one of several writers, once
    /// there is room.
    ///
    /// # Errors
    ///
    /// Where the window has too few places, in this order: `NotUnique` where another owner of the
    /// block lives, `CapacityOverflow` where the block would have to grow to more than 2^63 - 1
    /// places or bytes, and `AllocError` where memory is refused. The window is unchanged.
    ///
    /// # Allocates
    ///
    /// Once, where a first block is made or the block grows.
    ///
    /// # History
    ///
    /// On a block, where the window has too few places: Alone with the answer. Where a first block
    /// is made, the pass becomes that block's.
    fn try_extend_beside_as<
        L: LayoutMut,
        B: BufferMut<S::Item> + Drop,
        M: Drop,
        A: Allocator + Copy,
    >(
        window: &mut ArcSliceMut<S, L, 0, B, M, A, Whole>,
        items: &[S::Item],
        pass: &mut Pass<Whole>,
    ) -> Option<Result<(), TryReserveError>>
        requires legal { ∥ S.is_legal items.now ∥₁ }
        requires pass { IsPassAt window.old.place pass.old }
        ensures call { is_some result ≡ calls.extends && calls.shares }
        ensures extended { IfSome result (λ done. OnOk done (PushesShared
            (asks_alone (bare window.old) (length items.now)) true
            (room_for false (type_size S.Item.row) (bare window.old) (length items.now)) items.now
            (bare window.old) (bare window.new) pass.old pass.new)) }
        ensures refused { IfSome result (λ done. IfErr done (λ e. MakesSharedRoom
            (asks_alone (bare window.old) (length items.now)) true
            (room_for false (type_size S.Item.row) (bare window.old) (length items.now))
            (bare window.old) (bare window.new) pass.old pass.new (Err e))) }
        ensures none { IfNone result ((window.new ≡ window.old) × (pass.new ≡ pass.old)) };
}

/// The calls of `Plain` and `ByteText`: all of them. W says whether the kind has small windows.
pub struct AllCalls<W: Smalls> {
    of: PhantomData<W>,
}

/// The calls of `Text`. It is copied and appended as text, and no byte is pushed.
pub struct TextCalls;

/// The calls of `Owned`. Items are moved and pushed, and never copied.
pub struct OwnedCalls;

/// The items of a legal list of `Text`, as a `str`.
pub(super) fn as_text(items: &[u8]) -> &str
    requires { ∥ IsUtf8 items.now ∥₁ }
    ensures { result.now ≡ items.now }
{
    unsafe { str::from_utf8_unchecked(items) }
}

mod all;
mod owned;
mod text;
