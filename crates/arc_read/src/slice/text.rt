//! Windows over text and byte text.
ghost use Rattle.std.specs.Prelude.{◌≡◌, false, drop, IsOk, IfOk, IfErr, OnErr};
ghost use Rattle.std.specs.Str.{IsUtf8, valid_up_to, error_len};
ghost use Rattle.std.specs.Str.Lossy.{utf8_valid_len, utf8_error_len};
ghost use Rattle.arc_owners.specs.count.Calls.{IsPassOfNone};
ghost use Rattle.arc_block.specs.Place.{nowhere, static_data};
ghost use Rattle.arc_parts.specs.Window.{NeedsBlock};
ghost use Rattle.arc_parts.specs.Steps.{Makes, Begins};
ghost use Rattle.arc_read.specs.Steps.{WithNewPass};

use super::ArcSlice;
use arc_block::layout::{Layout, StaticLayout};
use arc_block::static_slice::StaticSlice;
use arc_buffer::buffer::Buffer;
use arc_buffer::kinds::{ByteText, Plain, Slice, Text};
use arc_owners::error::AllocError;
use arc_owners::mark::{Mark, Stepping};
use arc_owners::owners::Pass;
use arc_parts::parts::Parts;
use std::alloc::Allocator;
use std::convert::Infallible;
use std::str;
use std::str::Utf8Error;

impl<L: Layout, B: Buffer<u8> + Drop, M: Drop, A: Allocator + Copy, H: Mark> ArcSlice<
    Text,
    L,
    B,
    M,
    A,
    H,
> {
    /// A window over a copy of the text, on a new native block with exactly a place for each byte.
    /// Without text, under a layout that has static data, it stands on nothing. Of a new block the
    /// window is owner 0, and the pass, which was of no block, becomes the block's.
    ///
    /// # Errors
    ///
    /// `AllocError` where memory for a block is refused; the pass is then as before.
    ///
    /// # Allocates
    ///
    /// Once, where a block is needed.
    pub fn try_from_str_as(alloc: A, text: &str, pass: &mut Pass<H>) -> Result<Self, AllocError>
        requires pass { IsPassOfNone pass.old }
        ensures ok { IfOk result (λ window. Makes L.STATIC false H.whole text.now window) }
        ensures pass { IfOk result (λ window. Begins window pass.old pass.new) }
        ensures refused { OnErr result (NeedsBlock L.STATIC text.now × (pass.new ≡ pass.old)) }
    {
        Self::try_from_legal_slice_as(alloc, text.as_bytes(), pass)
    }

    /// The items as a `str`.
    pub fn as_str(&self) -> &str
        ensures { result.now ≡ self.now.items }
    {
        let _ = &self.parts;
        unsafe { str::from_utf8_unchecked(self.as_slice()) }
    }

    /// The same window, over bytes. It adds no entry.
    pub fn into_arc_slice(self) -> ArcSlice<Plain<u8>, L, B, M, A, H>
        ensures { result ≡ self }
    {
        self.into_kind()
    }

    /// The same window, over text. It adds no entry.
    ///
    /// # Errors
    ///
    /// The error and the window over bytes come back exactly where these aren't valid UTF-8.
    pub fn try_from_arc_slice(
        bytes: ArcSlice<Plain<u8>, L, B, M, A, H>,
    ) -> Result<Self, (Utf8Error, ArcSlice<Plain<u8>, L, B, M, A, H>)>
        ensures ok { IfOk result (λ text. (text ≡ bytes) × IsUtf8 bytes.items) }
        ensures back { IfErr result (λ r. (r.1 ≡ bytes) × ¬ (IsUtf8 bytes.items)) }
        ensures error { IfErr result (λ r. (valid_up_to r.0 ≡ utf8_valid_len bytes.items)
            × (error_len r.0 ≡ utf8_error_len (drop (valid_up_to r.0) bytes.items))) }
    {
        match Text::try_from_slice(bytes.as_slice()) {
            Ok(()) => Ok(bytes.into_kind()),
            Err(error) => Err((error, bytes)),
        }
    }

    /// A window over a `'static` text. It is no owner: its clones and cuts add no entry and are
    /// never refused.
    pub fn from_static_str(alloc: A, text: &'static str) -> Self
    where
        L: StaticLayout,
        ensures { result ≡ record { items = text.now; place = static_data } }
    {
        Self::from_parts(Parts::on_static(alloc, StaticSlice::new(text.as_bytes())))
    }

    /// A window over a copy of the text: `try_from_str_as` with a new pass.
    ///
    /// # Errors
    ///
    /// `AllocError` where memory for a block is refused.
    ///
    /// # Allocates
    ///
    /// Once, where a block is needed.
    pub fn try_from_str(alloc: A, text: &str) -> Result<Self, AllocError>
    where
        H: Stepping,
        ensures ok { IfOk result (λ window. Makes L.STATIC false H.whole text.now window) }
        ensures pass { IfOk result (λ window.
            WithNewPass {M = M} {H = H} H.real nowhere (λ first last. Begins window first last)) }
        ensures refused { OnErr result (NeedsBlock L.STATIC text.now) }
    {
        let mut pass = Pass::none();
        let made = Self::try_from_str_as(alloc, text, &mut pass);
        pass.show();
        made
    }
}

impl<L: Layout, B: Buffer<u8> + Drop, M: Drop, A: Allocator + Copy, H: Mark> ArcSlice<
    ByteText,
    L,
    B,
    M,
    A,
    H,
> {
    /// The same window, over bytes. It adds no entry.
    pub fn into_arc_slice(self) -> ArcSlice<Plain<u8>, L, B, M, A, H>
        ensures { result ≡ self }
    {
        self.into_kind()
    }

    /// The same window, over byte text. It adds no entry, and is never refused.
    pub fn try_from_arc_slice(
        bytes: ArcSlice<Plain<u8>, L, B, M, A, H>,
    ) -> Result<Self, (Infallible, ArcSlice<Plain<u8>, L, B, M, A, H>)>
        ensures { IfOk result (λ text. text ≡ bytes) }
    {
        Ok(bytes.into_kind())
    }
}
