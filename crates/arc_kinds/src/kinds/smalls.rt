//! Small windows of the kinds that have them.
ghost use Rattle.std.specs.Prelude.{◌≡◌, ◌<◌, ◌↔◌, [], ℕ, Bool, true, false, length, drop, is_some};
ghost use Rattle.std.specs.Prelude.{IfErr, IfNone, IfOk, IfSome, IsOk, None, OnErr};
ghost use Rattle.arc_owners.specs.count.Calls.{IsPassOfNone, Leaves};
ghost use Rattle.arc_buffer.specs.Slice.{IsEdge, IsRange, edge_answer, range_answer, sub};
ghost use Rattle.std.specs.declared.alloc.Global.{Global};
ghost use Rattle.std.specs.declared.vec.Vec.{Vec};
ghost use Rattle.arc_block.specs.Given.{Given};
ghost use Rattle.arc_block.specs.Inline.{inline_limit};
ghost use Rattle.arc_block.specs.Place.{at_owner, moved, nowhere};
ghost use Rattle.arc_parts.specs.Steps.{Begins, IsPassAt, Refuses, Shares};
ghost use Rattle.arc_block.specs.Table.{bare, inline};
ghost use Rattle.arc_parts.specs.Window.{PartsView, window_of};
ghost use Rattle.arc_read.specs.Cuts.{sub_place};
ghost use Rattle.arc_small.specs.Small.{MakesSmall};

use super::TableKind;
use super::calls::as_text;
use arc_block::layout::Layout;
use arc_buffer::kinds::{ByteText, Emptyable, Plain, Subsliceable, Text};
use arc_owners::error::{AllocError, OwnerError, RangeError};
use arc_owners::mark::Whole;
use arc_owners::owners::Pass;
use arc_small::SmallArcSlice;
use std::alloc::Allocator;
use std::sync::Wait;

/// Whether a kind has small windows. `HasSmall` has them, and `NoSmall` hasn't.
pub trait Smalls {
    /// Whether the kind has small windows.
    ghost small: { Bool };

    /// Whether the kind has small windows.
    fn has_small() -> bool
        ensures { result ≡ small };
}

/// A small window of the kind S. It stands on no caller's buffer.
pub type SmallWindow<S, L, M, A> = SmallArcSlice<<S as TableKind>::Bytes, L, Vec<u8>, M, A, Whole>;

/// The calls of the small windows of a kind S.
pub trait SmallOf<S: TableKind, L: Layout, M: Drop, A: Allocator + Copy>: Smalls {
    /// The row of a small window, without a caller's buffer, of which it has none; or nothing where
    /// the kind has no small windows.
    ghost seen: { PartsView ℕ (Given (Vec ℕ Global) M) → PartsView S.Item M };

    /// A small window over a copy of the items, as `SmallArcSlice::try_from_slice_as` makes it, or
    /// `None` where the kind has no small windows. The items are legal.
    ///
    /// # Errors
    ///
    /// `AllocError` where memory for a block is refused; the pass is then as before.
    ///
    /// # Allocates
    ///
    /// Once, where there are more items than `inline_limit()`.
    ///
    /// # History
    ///
    /// Where a block is made its history begins, with the window as owner 0.
    fn try_make_as(
        alloc: A,
        items: &[S::Item],
        pass: &mut Pass<Whole>,
    ) -> Option<Result<SmallWindow<S, L, M, A>, AllocError>>
        requires legal { ∥ S.is_legal items.now ∥₁ }
        requires pass { IsPassOfNone pass.old }
        ensures has { is_some result ≡ Self.small }
        ensures made { IfSome result (λ made. IfOk made (λ window.
            MakesSmall L.STATIC S.DROPS true items.now (seen window))) }
        ensures pass { IfSome result (λ made. IfOk made (λ window.
            Begins (window_of (seen window)) pass.old pass.new)) }
        ensures refused { IfSome result (λ made. OnErr made
            ((inline_limit < length items.now) × (pass.new ≡ pass.old))) }
        ensures none { IfNone result (pass.new ≡ pass.old) };

    /// The items of a small window.
    fn as_slice(window: &SmallWindow<S, L, M, A>) -> &[S::Item]
        ensures { result.now ≡ (seen window.now).items };

    /// Whether `start` to `end` is a range of a small window.
    ///
    /// # Errors
    ///
    /// `OutOfRange` where the end is past the length, else `InvalidRange` where the start is past
    /// the end, else `NotBoundary` where the kind may not be cut at one of them.
    fn check_range(
        window: &SmallWindow<S, L, M, A>,
        start: usize,
        end: usize,
    ) -> Result<(), RangeError>
        ensures answer { result ≡ range_answer S.boundary (seen window.now).items start end }
        ensures ok { IsOk result ↔ IsRange S.boundary (seen window.now).items start end };

    /// Whether a small window may be cut at `at`.
    ///
    /// # Errors
    ///
    /// `OutOfRange` where that is past the length, else `NotBoundary` where the kind may not be cut
    /// there.
    fn check_at(window: &SmallWindow<S, L, M, A>, at: usize) -> Result<(), RangeError>
        ensures answer { result ≡ edge_answer S.boundary (seen window.now).items at }
        ensures ok { IsOk result ↔ IsEdge S.boundary (seen window.now).items at };

    /// Takes the first `by` items off a small window. It stays where it stands.
    fn advance(window: &mut SmallWindow<S, L, M, A>, by: usize)
        requires { IsEdge S.boundary (seen window.old).items by }
        ensures { seen window.new ≡ record {
          items = drop by (seen window.old).items;
          place = moved by (seen window.old).place;
          role = (seen window.old).role;
        } };

    /// Another small window with the same items: a copy of a short list, else one owner more of the
    /// block. It takes no memory.
    ///
    /// # Errors
    ///
    /// None for a short list. Else `CountFull` on a block that counts its owners, exactly where
    /// `MAX_OWNERS` of them live, and `AllocError` on an `Arc` that is a block by itself, where
    /// that refuses to be cloned.
    ///
    /// # History
    ///
    /// On a block that counts its owners: Up, or Full where it is refused.
    fn try_clone_as(
        window: &SmallWindow<S, L, M, A>,
        rt: &impl Wait,
        pass: &mut Pass<Whole>,
    ) -> Result<SmallWindow<S, L, M, A>, OwnerError>
        requires pass { IsPassAt (seen window.now).place pass.old }
        ensures items { IfOk result (λ made. (seen made).items ≡ (seen window.now).items) }
        ensures place { IfOk result (λ made.
            Shares (seen window.now).place pass.old pass.new (seen made).place) }
        ensures refused { IfErr result (λ e.
            Refuses L.clone_wants (seen window.now).place pass.old pass.new e) };

    /// A small window over the items from `start` to before `end`: a copy of a part of a short
    /// list, else one owner more of the block. Without items, under a layout that has static data,
    /// it stands on nothing. It takes no memory.
    ///
    /// # Errors
    ///
    /// Those of `try_clone_as`, where the part stands on a block.
    ///
    /// # History
    ///
    /// Where the part stands on a block that counts its owners: Up, or Full where it is refused.
    fn try_subslice_as(
        window: &SmallWindow<S, L, M, A>,
        rt: &impl Wait,
        start: usize,
        end: usize,
        pass: &mut Pass<Whole>,
    ) -> Result<SmallWindow<S, L, M, A>, OwnerError>
        requires range { IsRange S.boundary (seen window.now).items start end }
        requires pass { IsPassAt (seen window.now).place pass.old }
        ensures items { IfOk result (λ made.
            (seen made).items ≡ sub (seen window.now).items start end) }
        ensures place { IfOk result (λ made.
            Shares (sub_place L.STATIC (window_of (seen window.now)) start end)
            pass.old pass.new (seen made).place) }
        ensures refused { IfErr result (λ e.
            Refuses L.clone_wants (sub_place L.STATIC (window_of (seen window.now)) start end)
            pass.old pass.new e) };

    /// Ends the small window that is in its place, and leaves `None` there. The last owner gives
    /// its block back.
    ///
    /// # History
    ///
    /// On a block that counts its owners: Down.
    fn release_as(window: &mut Option<SmallWindow<S, L, M, A>>, pass: &mut Pass<Whole>)
        requires there { is_some window.old ≡ true }
        requires pass { IfSome window.old (λ w. IsPassAt (seen w).place pass.old) }
        ensures ended { IfSome window.old (λ w. at_owner (seen w).place (pass.new ≡ pass.old) (λ o.
            (last : Bool) × Leaves o pass.old pass.new last)) }
        ensures gone { window.new ≡ None };
}

/// A kind of bytes that has small windows.
pub trait SmallKind: Subsliceable<Item = u8> {
    /// A small window over a copy of the bytes, which are legal: in the window itself where they
    /// are at most `inline_limit()`, else on a new native block. The pass, which is of no block,
    /// becomes the block's.
    ///
    /// # Errors
    ///
    /// `AllocError` where memory for a block is refused; the pass is then as before.
    ///
    /// # Allocates
    ///
    /// Once, where there are more bytes than `inline_limit()`.
    ///
    /// # History
    ///
    /// Where a block is made its history begins, with the window as owner 0.
    fn try_small_as<L: Layout, M: Drop, A: Allocator + Copy>(
        alloc: A,
        items: &[u8],
        pass: &mut Pass<Whole>,
    ) -> Result<SmallArcSlice<Self, L, Vec<u8>, M, A, Whole>, AllocError>
        requires legal { ∥ Self.is_legal items.now ∥₁ }
        requires pass { IsPassOfNone pass.old }
        ensures made { IfOk result (λ window.
            MakesSmall L.STATIC Self.DROPS true items.now window) }
        ensures pass { IfOk result (λ window. Begins (window_of window) pass.old pass.new) }
        ensures refused { OnErr result ((inline_limit < length items.now)
            × (pass.new ≡ pass.old)) };
}

/// The kind, which is one of bytes, has small windows.
pub struct HasSmall;

/// The kind has no small windows.
pub struct NoSmall;

impl SmallKind for Plain<u8> {
    fn try_small_as<L: Layout, M: Drop, A: Allocator + Copy>(
        alloc: A,
        items: &[u8],
        pass: &mut Pass<Whole>,
    ) -> Result<SmallArcSlice<Plain<u8>, L, Vec<u8>, M, A, Whole>, AllocError> {
        SmallArcSlice::try_from_slice_as(alloc, items, pass)
    }
}

impl SmallKind for ByteText {
    fn try_small_as<L: Layout, M: Drop, A: Allocator + Copy>(
        alloc: A,
        items: &[u8],
        pass: &mut Pass<Whole>,
    ) -> Result<SmallArcSlice<ByteText, L, Vec<u8>, M, A, Whole>, AllocError> {
        SmallArcSlice::try_from_slice_as(alloc, items, pass)
    }
}

impl SmallKind for Text {
    fn try_small_as<L: Layout, M: Drop, A: Allocator + Copy>(
        alloc: A,
        items: &[u8],
        pass: &mut Pass<Whole>,
    ) -> Result<SmallArcSlice<Text, L, Vec<u8>, M, A, Whole>, AllocError> {
        let text = as_text(items);
        SmallArcSlice::<Text, L, Vec<u8>, M, A, Whole>::try_from_str_as(alloc, text, pass)
    }
}

impl Smalls for HasSmall {
    ghost small = { true };

    fn has_small() -> bool {
        true
    }
}

impl Smalls for NoSmall {
    ghost small = { false };

    fn has_small() -> bool {
        false
    }
}

impl<
    S: SmallKind + Emptyable + TableKind<Bytes = S>,
    L: Layout,
    M: Drop,
    A: Allocator + Copy,
> SmallOf<S, L, M, A> for HasSmall {
    ghost seen = { bare };

    #[tactic(auto, using(crate::proofs::Bare::bare_small, crate::proofs::Bare::owner_bare))]
    fn try_make_as(
        alloc: A,
        items: &[u8],
        pass: &mut Pass<Whole>,
    ) -> Option<Result<SmallArcSlice<S, L, Vec<u8>, M, A, Whole>, AllocError>> {
        Some(S::try_small_as(alloc, items, pass))
    }

    fn as_slice(window: &SmallArcSlice<S, L, Vec<u8>, M, A, Whole>) -> &[u8] {
        window.as_slice()
    }

    fn check_range(
        window: &SmallArcSlice<S, L, Vec<u8>, M, A, Whole>,
        start: usize,
        end: usize,
    ) -> Result<(), RangeError> {
        window.check_range(start, end)
    }

    fn check_at(
        window: &SmallArcSlice<S, L, Vec<u8>, M, A, Whole>,
        at: usize,
    ) -> Result<(), RangeError> {
        window.check_at(at)
    }

    #[tactic(auto, using(crate::proofs::Bare::bare_advanced))]
    fn advance(window: &mut SmallArcSlice<S, L, Vec<u8>, M, A, Whole>, by: usize) {
        window.advance(by);
    }

    #[inline(always)]
    #[tactic(auto, using(crate::proofs::Bare::bare_shares, crate::proofs::Bare::bare_refuses, crate::proofs::Bare::pass_back))]
    fn try_clone_as(
        window: &SmallArcSlice<S, L, Vec<u8>, M, A, Whole>,
        rt: &impl Wait,
        pass: &mut Pass<Whole>,
    ) -> Result<SmallArcSlice<S, L, Vec<u8>, M, A, Whole>, OwnerError> {
        window.try_clone_as(rt, pass)
    }

    #[inline(always)]
    #[tactic(auto, using(crate::proofs::Bare::bare_part_shares, crate::proofs::Bare::bare_part_refuses, crate::proofs::Bare::pass_back))]
    fn try_subslice_as(
        window: &SmallArcSlice<S, L, Vec<u8>, M, A, Whole>,
        rt: &impl Wait,
        start: usize,
        end: usize,
        pass: &mut Pass<Whole>,
    ) -> Result<SmallArcSlice<S, L, Vec<u8>, M, A, Whole>, OwnerError> {
        window.try_subslice_as(rt, start, end, pass)
    }

    #[inline(always)]
    #[tactic(auto, using(crate::proofs::Bare::owner_bare, crate::proofs::Bare::pass_back))]
    fn release_as(
        window: &mut Option<SmallArcSlice<S, L, Vec<u8>, M, A, Whole>>,
        pass: &mut Pass<Whole>,
    ) {
        if let Some(window) = window.take() {
            window.release_as(pass);
        }
    }
}

// A table of such a kind makes no small window and so has none. The row of one is therefore defined
// as nothing.
impl<S: TableKind, L: Layout, M: Drop, A: Allocator + Copy> SmallOf<S, L, M, A> for NoSmall {
    ghost seen = { λ window. record { items = []; place = nowhere; role = inline } };

    fn try_make_as(
        alloc: A,
        items: &[S::Item],
        pass: &mut Pass<Whole>,
    ) -> Option<Result<SmallWindow<S, L, M, A>, AllocError>> {
        let _ = alloc;
        let _ = items;
        let _ = pass;
        None
    }

    fn as_slice(window: &SmallWindow<S, L, M, A>) -> &[S::Item] {
        let _ = window;
        &[]
    }

    fn check_range(
        window: &SmallWindow<S, L, M, A>,
        start: usize,
        end: usize,
    ) -> Result<(), RangeError> {
        let _ = window;
        if end > 0 {
            return Err(RangeError::OutOfRange);
        }
        if start > end {
            return Err(RangeError::InvalidRange);
        }
        if S::is_boundary(&[], start) && S::is_boundary(&[], end) {
            Ok(())
        } else {
            Err(RangeError::NotBoundary)
        }
    }

    fn check_at(window: &SmallWindow<S, L, M, A>, at: usize) -> Result<(), RangeError> {
        let _ = window;
        if at > 0 {
            return Err(RangeError::OutOfRange);
        }
        if S::is_boundary(&[], at) {
            Ok(())
        } else {
            Err(RangeError::NotBoundary)
        }
    }

    fn advance(window: &mut SmallWindow<S, L, M, A>, by: usize) {
        let _ = window;
        let _ = by;
    }

    fn try_clone_as(
        window: &SmallWindow<S, L, M, A>,
        rt: &impl Wait,
        pass: &mut Pass<Whole>,
    ) -> Result<SmallWindow<S, L, M, A>, OwnerError> {
        let _ = window;
        let _ = rt;
        let _ = pass;
        Ok(SmallArcSlice::new())
    }

    fn try_subslice_as(
        window: &SmallWindow<S, L, M, A>,
        rt: &impl Wait,
        start: usize,
        end: usize,
        pass: &mut Pass<Whole>,
    ) -> Result<SmallWindow<S, L, M, A>, OwnerError> {
        let _ = window;
        let _ = rt;
        let _ = start;
        let _ = end;
        let _ = pass;
        Ok(SmallArcSlice::new())
    }

    fn release_as(window: &mut Option<SmallWindow<S, L, M, A>>, pass: &mut Pass<Whole>) {
        drop(window.take());
        let _ = pass;
    }
}
