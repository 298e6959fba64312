//! `SmallArcSlice`, a list of bytes that lies in the window itself where it is short, and else a
//! window that is read.
ghost use Rattle.std.specs.Prelude.{◌≡◌, [], false};
ghost use Rattle.arc_parts.specs.Steps.{EndsShownAt};
ghost use Rattle.arc_parts.specs.Window.{parts_of};
ghost use Rattle.arc_small.specs.Small.{inline_row, row_of};

use super::slice::SmallSlice;
use arc_block::layout::{DefaultLayout, Layout};
use arc_buffer::buffer::Buffer;
use arc_buffer::kinds::{Emptyable, Plain, Slice};
use arc_owners::mark::{Mark, Open};
use arc_read::slice::ArcSlice;
use either::{Either, Left, Right};
use std::alloc::{Allocator, Global};
use std::marker::Model;

/// A list of bytes. It lies in the window itself where it was copied there and has at most
/// `inline_limit()` bytes; else this is a window that is read. A list in the window takes no
/// memory, and its clones and cuts read and change no count.
pub struct SmallArcSlice<
    S: Slice<Item = u8>,
    L: Layout = DefaultLayout,
    B: Buffer<u8> + Drop = Vec<u8>,
    M: Drop = (),
    A: Allocator + Copy = Global,
    H: Mark = Open,
> {
    either: Either<SmallSlice<S, L>, ArcSlice<S, L, B, M, A, H>>,
}

impl<
    S: Slice<Item = u8>,
    L: Layout,
    B: Buffer<u8> + Drop,
    M: Drop,
    A: Allocator + Copy,
    H: Mark,
> Model for SmallArcSlice<S, L, B, M, A, H> {
    ghost use Rattle.std.specs.Prelude.{ℕ};
    ghost use Rattle.arc_block.specs.Given.{Given};
    ghost use Rattle.arc_parts.specs.Window.{PartsView};
    ghost use Rattle.arc_small.specs.Small.{row_of};

    ghost Value = { PartsView ℕ (Given B M) };

    ghost view = { λ w. row_of w.either };
}

const _: () = prove!(size_of::<SmallArcSlice<Plain<u8>>>() == 48);

impl<
    S: Slice<Item = u8>,
    L: Layout,
    B: Buffer<u8> + Drop,
    M: Drop,
    A: Allocator + Copy,
    H: Mark,
> Drop for SmallArcSlice<S, L, B, M, A, H> {
    #[inline(always)]
    fn drop(self)
        ensures ended { H.whole ≡ false → EndsShownAt H H.real self.place }
    {
        let SmallArcSlice { either } = self;
        match either {
            Left(_) => {}
            Right(window) => drop(window),
        }
    }
}

impl<
    S: Slice<Item = u8>,
    L: Layout,
    B: Buffer<u8> + Drop,
    M: Drop,
    A: Allocator + Copy,
    H: Mark,
> SmallArcSlice<S, L, B, M, A, H> {
    ghost use Rattle.std.specs.Borrow.{sem};
    ghost use Rattle.arc_small.specs.Lends.{lends_either};

    /// A window without bytes. Under every layout its list lies in the window itself.
    pub fn new() -> Self
    where
        S: Emptyable,
        ensures { result ≡ inline_row [] }
    {
        SmallArcSlice {
            either: Left(SmallSlice::empty()),
        }
    }

    /// The short list, or the window that is read.
    #[inline(always)]
    pub fn as_either(&self) -> &Either<SmallSlice<S, L>, ArcSlice<S, L, B, M, A, H>>
        ensures { row_of result.now ≡ self.now }
    {
        &self.either
    }

    /// The short list, or the window that is read, to be changed. Once the borrow ends, the window
    /// is what was written there last. The call adds no entry.
    #[inline(always)]
    pub fn as_either_mut(&mut self) -> &mut Either<SmallSlice<S, L>, ArcSlice<S, L, B, M, A, H>>
        ensures* writes_back { sem 𝓛 (lends_either S.row L.row B.row M.row A.row H.row
            S.TryFromSliceError.row L.Writable.row S.Slice L.Layout B.Buffer A.Allocator H.Mark
            self.entry result) }
        ensures value { row_of result.now ≡ self.old }
    {
        &mut self.either
    }

    /// The short list, or the window that is read, by value. It adds no entry.
    #[inline(always)]
    pub fn into_either(self) -> Either<SmallSlice<S, L>, ArcSlice<S, L, B, M, A, H>>
        ensures { row_of result ≡ self }
    {
        let SmallArcSlice { either } = self;
        either
    }
}

impl<
    S: Slice<Item = u8>,
    L: Layout,
    B: Buffer<u8> + Drop,
    M: Drop,
    A: Allocator + Copy,
    H: Mark,
> From<SmallSlice<S, L>> for SmallArcSlice<S, L, B, M, A, H> {
    ghost from_gives = { λ small window. window ≡ inline_row small.items };

    fn from(small: SmallSlice<S, L>) -> Self {
        SmallArcSlice {
            either: Left(small),
        }
    }
}

impl<
    S: Slice<Item = u8>,
    L: Layout,
    B: Buffer<u8> + Drop,
    M: Drop,
    A: Allocator + Copy,
    H: Mark,
> From<ArcSlice<S, L, B, M, A, H>> for SmallArcSlice<S, L, B, M, A, H> {
    ghost from_gives = { λ window small. small ≡ parts_of window };

    fn from(window: ArcSlice<S, L, B, M, A, H>) -> Self {
        SmallArcSlice {
            either: Right(window),
        }
    }
}

mod cuts;
mod make;
mod moves;
mod read;
mod text;
mod vectors;
