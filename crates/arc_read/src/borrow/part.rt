//! Parts of a read window that are borrowed: made, read, tested, borrowed again, and made windows.
ghost use Rattle.std.specs.Prelude.{◌≡◌, ◌↔◌, IsOk, IfOk, IfErr};
ghost use Rattle.arc_buffer.specs.Slice.{IsRange, range_answer};
ghost use Rattle.arc_parts.specs.Steps.{IsPassAt, Shares, Refuses};
ghost use Rattle.arc_read.specs.Borrow.{borrowed_part, clone_place};
ghost use Rattle.arc_read.specs.Cuts.{cut_window};
ghost use Rattle.arc_read.specs.Steps.{WithNewPass};

use super::ArcSliceBorrow;
use crate::range;
use crate::slice::ArcSlice;
use arc_block::layout::Layout;
use arc_buffer::buffer::Buffer;
use arc_buffer::kinds::{Subsliceable, Text};
use arc_owners::error::{OwnerError, RangeError};
use arc_owners::mark::{Mark, Stepping};
use arc_owners::owners::Pass;
use std::alloc::Allocator;
use std::str;
use std::sync::Wait;

impl<
    S: Subsliceable,
    L: Layout,
    B: Buffer<S::Item> + Drop,
    M: Drop,
    A: Allocator + Copy,
    H: Mark,
> ArcSlice<S, L, B, M, A, H> {
    /// The items from `start` to before `end`, borrowed. No owner is made, and no entry is added.
    #[inline(always)]
    pub fn borrow(&self, start: usize, end: usize) -> ArcSliceBorrow<'_, S, L, B, M, A, H>
        requires { IsRange S.boundary self.now.items start end }
        ensures { borrowed_part result ≡ cut_window self.now start end }
    {
        ArcSliceBorrow {
            window: self,
            start,
            end,
        }
    }
}

impl<
    'a,
    S: Subsliceable,
    L: Layout,
    B: Buffer<S::Item> + Drop,
    M: Drop,
    A: Allocator + Copy,
    H: Mark,
> ArcSliceBorrow<'a, S, L, B, M, A, H> {
    /// The items.
    #[inline(always)]
    pub fn as_slice(&self) -> &'a [S::Item]
        ensures { result.now ≡ (borrowed_part self.now).items }
    {
        &self.window.as_slice()[..self.end][self.start..]
    }

    /// The items, which are a legal list of the kind.
    pub(crate) fn as_legal_slice(&self) -> &'a [S::Item]
        ensures items { result.now ≡ (borrowed_part self.now).items }
        ensures legal { ∥ S.is_legal result.now ∥₁ }
    {
        self.window.has_part(self.start, self.end);
        self.as_slice()
    }

    /// Whether `start` to `end` is a range of the part.
    ///
    /// # Errors
    ///
    /// `OutOfRange` where the end is past the length, else `InvalidRange` where the start is past
    /// the end, else `NotBoundary` where the kind may not be cut at one of them.
    pub fn check_range(&self, start: usize, end: usize) -> Result<(), RangeError>
        ensures answer { result
            ≡ range_answer S.boundary (borrowed_part self.now).items start end }
        ensures ok { IsOk result ↔ IsRange S.boundary (borrowed_part self.now).items start end }
    {
        range::check_range::<S>(self.as_slice(), start, end)
    }

    /// The items from `start` to before `end` of the part, borrowed from the same window.
    pub fn reborrow(&self, start: usize, end: usize) -> ArcSliceBorrow<'a, S, L, B, M, A, H>
        requires { IsRange S.boundary (borrowed_part self.now).items start end }
        ensures { borrowed_part result ≡ cut_window (borrowed_part self.now) start end }
    {
        self.window.has_part(self.start, self.end);
        ArcSliceBorrow {
            window: self.window,
            start: self.start + start,
            end: self.start + end,
        }
    }

    /// A window over the part. On a block it is one owner more. Without items, under a layout that
    /// has static data, it stands on nothing, and no entry is added.
    ///
    /// It copies no item and takes no memory. It takes `rt` since an attempt that another thread
    /// disturbs is tried again.
    ///
    /// # Errors
    ///
    /// Those of `ArcSlice::try_clone_as`, where the new window stands on a block.
    ///
    /// # History
    ///
    /// Where the new window stands on a block that counts its owners: Up, or Full where it is
    /// refused.
    #[inline(always)]
    pub fn try_clone_arc_as(
        self,
        rt: &impl Wait,
        pass: &mut Pass<H>,
    ) -> Result<ArcSlice<S, L, B, M, A, H>, OwnerError>
        requires pass { IsPassAt (borrowed_part self).place pass.old }
        ensures items { IfOk result (λ window. window.items ≡ (borrowed_part self.entry).items) }
        ensures place { IfOk result (λ window.
            Shares (clone_place L.STATIC (borrowed_part self.entry))
            pass.old pass.new window.place) }
        ensures refused { IfErr result (λ e.
            Refuses L.clone_wants (clone_place L.STATIC (borrowed_part self.entry))
            pass.old pass.new e) }
    {
        self.window.try_subslice_as(rt, self.start, self.end, pass)
    }

    /// A window over the part: `try_clone_arc_as` with a new pass of the window's block.
    ///
    /// # Errors
    ///
    /// Those of `ArcSlice::try_clone`, where the new window stands on a block.
    ///
    /// # History
    ///
    /// Where the new window stands on a block that counts its owners: Up, or Full where it is
    /// refused.
    #[inline(always)]
    pub fn try_clone_arc(self, rt: &impl Wait) -> Result<ArcSlice<S, L, B, M, A, H>, OwnerError>
    where
        H: Stepping,
        ensures items { IfOk result (λ window. window.items ≡ (borrowed_part self.entry).items) }
        ensures place { IfOk result (λ window.
            WithNewPass {H = H} H.real (borrowed_part self.entry).place (λ first last.
            Shares (clone_place L.STATIC (borrowed_part self.entry)) first last window.place)) }
        ensures refused { IfErr result (λ e.
            WithNewPass {H = H} H.real (borrowed_part self.entry).place (λ first last.
            Refuses L.clone_wants (clone_place L.STATIC (borrowed_part self.entry)) first last e)) }
    {
        self.window.try_subslice(rt, self.start, self.end)
    }
}

impl<'a, L: Layout, B: Buffer<u8> + Drop, M: Drop, A: Allocator + Copy, H: Mark> ArcSliceBorrow<
    'a,
    Text,
    L,
    B,
    M,
    A,
    H,
> {
    /// The text.
    pub fn as_str(&self) -> &'a str
        ensures { result.now ≡ (borrowed_part self.now).items }
    {
        self.window.has_part(self.start, self.end);
        unsafe { str::from_utf8_unchecked(self.as_slice()) }
    }
}
