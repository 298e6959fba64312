//! `{:x}` and `{:X}` of write windows over bytes: two digits a byte.
ghost use Rattle.std.specs.Prelude.{false, true};
ghost use Rattle.std.specs.Fmt.{WritesOnOk};
ghost use Rattle.arc_buffer.specs.Printed.{hex_bytes};

use crate::slice_mut::WriteWindow;
use arc_block::layout::LayoutMut;
use arc_buffer::buffer::BufferMut;
use arc_buffer::kinds::Slice;
use arc_buffer::print::write_hex;
use arc_owners::mark::Mark;
use arc_writer_parts::role::RoleOf;
use std::alloc::Allocator;
use std::fmt;

impl<
    S: Slice<Item = u8>,
    L: LayoutMut,
    R: RoleOf<S, B, M, A, H>,
    B: BufferMut<u8> + Drop,
    M: Drop,
    A: Allocator + Copy,
    H: Mark,
> fmt::LowerHex for WriteWindow<S, L, R, B, M, A, H> {
    fn fmt<W: fmt::Write>(&self, f: &mut fmt::Formatter<W>) -> fmt::Result
        ensures { WritesOnOk W.write_str_gives f.old result (hex_bytes false self.now.items) f.new }
    {
        write_hex(self.as_slice(), false, f)
    }
}

impl<
    S: Slice<Item = u8>,
    L: LayoutMut,
    R: RoleOf<S, B, M, A, H>,
    B: BufferMut<u8> + Drop,
    M: Drop,
    A: Allocator + Copy,
    H: Mark,
> fmt::UpperHex for WriteWindow<S, L, R, B, M, A, H> {
    fn fmt<W: fmt::Write>(&self, f: &mut fmt::Formatter<W>) -> fmt::Result
        ensures { WritesOnOk W.write_str_gives f.old result (hex_bytes true self.now.items) f.new }
    {
        write_hex(self.as_slice(), true, f)
    }
}
