//! `{}` of write windows over text and byte text.
ghost use Rattle.std.specs.Prelude.{Some, encode_utf8_all};
ghost use Rattle.std.specs.Fmt.{styled_text};
ghost use Rattle.bstr.specs.Utf8.{lossy_chars};

use crate::slice_mut::WriteWindow;
use arc_block::layout::LayoutMut;
use arc_buffer::buffer::BufferMut;
use arc_buffer::kinds::{ByteText, Text};
use arc_owners::mark::Mark;
use arc_writer_parts::role::RoleOf;
use bstr::BStr;
use std::alloc::Allocator;
use std::fmt;

impl<
    L: LayoutMut,
    R: RoleOf<Text, B, M, A, H>,
    B: BufferMut<u8> + Drop,
    M: Drop,
    A: Allocator + Copy,
    H: Mark,
> fmt::Display for WriteWindow<Text, L, R, B, M, A, H> {
    ghost output = { λ w. Some w.items };

    ghost styled_output = { λ w spec. Some (styled_text spec w.items) };

    fn fmt<W: fmt::Write>(&self, f: &mut fmt::Formatter<W>) -> fmt::Result {
        f.pad(self.as_str())
    }
}

impl<
    L: LayoutMut,
    R: RoleOf<ByteText, B, M, A, H>,
    B: BufferMut<u8> + Drop,
    M: Drop,
    A: Allocator + Copy,
    H: Mark,
> fmt::Display for WriteWindow<ByteText, L, R, B, M, A, H> {
    ghost output = { λ w. Some (encode_utf8_all (lossy_chars w.items)) };

    fn fmt<W: fmt::Write>(&self, f: &mut fmt::Formatter<W>) -> fmt::Result {
        fmt::Display::fmt(&BStr::new(self.as_slice()), f)
    }
}
