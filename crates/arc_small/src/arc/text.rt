//! Small windows over text.
ghost use Rattle.std.specs.Prelude.{◌≡◌, ◌<◌, false, length, IfOk, OnErr};
ghost use Rattle.arc_owners.specs.count.Calls.{IsPassOfNone};
ghost use Rattle.arc_block.specs.Place.{nowhere, static_data};
ghost use Rattle.arc_parts.specs.Steps.{Begins};
ghost use Rattle.arc_block.specs.Table.{reader};
ghost use Rattle.arc_parts.specs.Window.{window_of};
ghost use Rattle.arc_read.specs.Steps.{WithNewPass};
ghost use Rattle.arc_block.specs.Inline.{inline_limit};
ghost use Rattle.arc_small.specs.Small.{MakesSmall};

use super::super::slice::SmallSlice;
use super::SmallArcSlice;
use arc_block::layout::{Layout, StaticLayout};
use arc_buffer::buffer::Buffer;
use arc_buffer::kinds::Text;
use arc_owners::error::AllocError;
use arc_owners::mark::{Mark, Stepping};
use arc_owners::owners::Pass;
use arc_read::slice::ArcSlice;
use either::{Left, Right};
use std::alloc::Allocator;

impl<L: Layout, B: Buffer<u8> + Drop, M: Drop, A: Allocator + Copy, H: Mark> SmallArcSlice<
    Text,
    L,
    B,
    M,
    A,
    H,
> {
    /// A window over a copy of the text: in the window itself where it is at most `inline_limit()`
    /// bytes, else on a new native block with exactly a place for each byte. Of a new block the
    /// window is owner 0, and the pass, which was of no block, becomes the block's.
    ///
    /// # Errors
    ///
    /// `AllocError` where memory for a block is refused; the pass is then as before.
    ///
    /// # Allocates
    ///
    /// Once, where there are more bytes than `inline_limit()`.
    pub fn try_from_str_as(alloc: A, text: &str, pass: &mut Pass<H>) -> Result<Self, AllocError>
        requires pass { IsPassOfNone pass.old }
        ensures ok { IfOk result (λ window. MakesSmall L.STATIC false H.whole text.now window) }
        ensures pass { IfOk result (λ window. Begins (window_of window) pass.old pass.new) }
        ensures refused { OnErr result ((inline_limit < length text.now)
            × (pass.new ≡ pass.old)) }
    {
        if let Some(small) = SmallSlice::new_str(text) {
            return Ok(Self::from(small));
        }
        match ArcSlice::try_from_str_as(alloc, text, pass) {
            Ok(window) => Ok(Self::from(window)),
            Err(e) => Err(e),
        }
    }

    /// The bytes as a `str`.
    pub fn as_str(&self) -> &str
        ensures { result.now ≡ self.now.items }
    {
        match &self.either {
            Left(small) => small.as_str(),
            Right(window) => window.as_str(),
        }
    }

    /// A window over a `'static` text, which is never copied. It is no owner: its clones and cuts
    /// add no entry and are never refused.
    pub fn from_static_str(alloc: A, text: &'static str) -> Self
    where
        L: StaticLayout,
        ensures { result ≡ record { items = text.now; place = static_data; role = reader } }
    {
        Self::from(ArcSlice::from_static_str(alloc, text))
    }

    /// A window over a copy of the text, in the window itself where it is at most `inline_limit()`
    /// bytes: `try_from_str_as` with a new pass.
    ///
    /// # Errors
    ///
    /// `AllocError` where memory for a block is refused.
    ///
    /// # Allocates
    ///
    /// Once, where there are more bytes than `inline_limit()`.
    pub fn try_from_str(alloc: A, text: &str) -> Result<Self, AllocError>
    where
        H: Stepping,
        ensures ok { IfOk result (λ window. MakesSmall L.STATIC false H.whole text.now window) }
        ensures pass { IfOk result (λ window.
            WithNewPass {M = M} {H = H} H.real nowhere (λ first last.
            Begins (window_of window) first last)) }
        ensures refused { OnErr result (inline_limit < length text.now) }
    {
        let mut pass = Pass::none();
        let made = Self::try_from_str_as(alloc, text, &mut pass);
        pass.show();
        made
    }
}
