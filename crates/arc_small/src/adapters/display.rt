//! `{}` of small windows over text and byte text.
ghost use Rattle.std.specs.Prelude.{Some, encode_utf8_all};
ghost use Rattle.std.specs.Fmt.{styled_text};
ghost use Rattle.bstr.specs.Utf8.{lossy_chars};

use super::super::{SmallArcSlice, SmallSlice};
use arc_block::layout::Layout;
use arc_buffer::buffer::Buffer;
use arc_buffer::kinds::{ByteText, Text};
use arc_owners::mark::Mark;
use bstr::BStr;
use std::alloc::Allocator;
use std::fmt;

impl<L: Layout> fmt::Display for SmallSlice<Text, L> {
    ghost output = { λ w. Some w.items };

    ghost styled_output = { λ w spec. Some (styled_text spec w.items) };

    fn fmt<W: fmt::Write>(&self, f: &mut fmt::Formatter<W>) -> fmt::Result {
        f.pad(self.as_str())
    }
}

impl<L: Layout, B: Buffer<u8> + Drop, M: Drop, A: Allocator + Copy, H: Mark> fmt::Display
    for SmallArcSlice<Text, L, B, M, A, H> {
    ghost output = { λ w. Some w.items };

    ghost styled_output = { λ w spec. Some (styled_text spec w.items) };

    fn fmt<W: fmt::Write>(&self, f: &mut fmt::Formatter<W>) -> fmt::Result {
        f.pad(self.as_str())
    }
}

impl<L: Layout> fmt::Display for SmallSlice<ByteText, L> {
    ghost output = { λ w. Some (encode_utf8_all (lossy_chars w.items)) };

    fn fmt<W: fmt::Write>(&self, f: &mut fmt::Formatter<W>) -> fmt::Result {
        fmt::Display::fmt(&BStr::new(self.as_slice()), f)
    }
}

impl<L: Layout, B: Buffer<u8> + Drop, M: Drop, A: Allocator + Copy, H: Mark> fmt::Display
    for SmallArcSlice<ByteText, L, B, M, A, H> {
    ghost output = { λ w. Some (encode_utf8_all (lossy_chars w.items)) };

    fn fmt<W: fmt::Write>(&self, f: &mut fmt::Formatter<W>) -> fmt::Result {
        fmt::Display::fmt(&BStr::new(self.as_slice()), f)
    }
}
