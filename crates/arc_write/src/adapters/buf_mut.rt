//! `BufMut` of write windows over bytes and byte text: it fills the places that a window has, and
//! makes no room.
ghost use Rattle.std.specs.Prelude.{◌≡◌, ◌≤◌, ◌+◌, ◌-◌, ◌^◌, ◌++◌, ◌∷◌, [], min, length};
ghost use Rattle.std.specs.Prelude.{OnOk, OnErr, Some, replicate};
ghost use Rattle.arc_block.specs.Table.{bare};
ghost use Rattle.arc_parts.specs.Writers.{capacity_of, with_more};
ghost use Rattle.arc_write.specs.Within.{PutsWithin, spare_places};
ghost use Rattle.bytes.specs.Filled.{KeepsMaxSpare, MakesSpare, UsesMaxSpare, UsesSpare};

use crate::slice_mut::WriteWindow;
use arc_block::layout::LayoutMut;
use arc_buffer::buffer::BufferMut;
use arc_buffer::kinds::CopySlice;
use arc_owners::mark::Mark;
use arc_writer_parts::role::{CopyWriterParts, RoleOf};
use bytes::BufMut;
use std::alloc::{AllocError, Allocator};

impl<
    S: CopySlice<Item = u8>,
    L: LayoutMut,
    R: RoleOf<S, B, M, A, H>,
    B: BufferMut<u8> + Drop,
    M: Drop,
    A: Allocator + Copy,
    H: Mark,
> BufMut for WriteWindow<S, L, R, B, M, A, H>
where
    R::Parts: CopyWriterParts<S, B, M, A, H>,
{
    ghost written = { λ w. w.items };

    ghost spare = { spare_places };

    ghost max_spare = { λ w. Some (spare_places w) };

    /// Whether the window has places for `additional` bytes more. It makes no room.
    ///
    /// # Errors
    ///
    /// `AllocError` where it has too few places.
    fn reserve(&mut self, additional: usize) -> Result<(), AllocError>
        ensures kept { self.new.items ≡ self.old.items }
        ensures spare { MakesSpare result (spare_places self.old) (spare_places self.new)
            additional }
        ensures max_spare { KeepsMaxSpare result (Some (spare_places self.old))
            (Some (spare_places self.new)) additional }
        ensures same { self.new ≡ self.old }
    {
        if additional <= self.spare() {
            Ok(())
        } else {
            Err(AllocError)
        }
    }

    /// Appends the bytes, where the window has places for all of them. It makes no room, and adds
    /// no entry.
    ///
    /// # Errors
    ///
    /// `AllocError` where it has too few places; nothing is changed then.
    fn put_slice(&mut self, source: &[u8]) -> Result<(), AllocError>
        ensures ok { OnOk result (self.new.items ≡ self.old.items ++ source.now) }
        ensures err { OnErr result (self.new.items ≡ self.old.items) }
        ensures spare { UsesSpare result (spare_places self.old) (spare_places self.new)
            (length source.now) }
        ensures max_spare { UsesMaxSpare result (Some (spare_places self.old))
            (Some (spare_places self.new)) (length source.now) }
        ensures window { PutsWithin result source.now self.old self.new }
    {
        match self.try_extend_within(source) {
            Ok(()) => Ok(()),
            Err(e) => Err(e),
        }
    }

    /// Appends a byte, where the window has a place for it. It makes no room, and adds no entry.
    ///
    /// # Errors
    ///
    /// `AllocError` where it has no place; nothing is changed then.
    fn put_u8(&mut self, byte: u8) -> Result<(), AllocError>
        ensures ok { OnOk result (self.new.items ≡ self.old.items ++ byte ∷ []) }
        ensures err { OnErr result (self.new.items ≡ self.old.items) }
        ensures spare { UsesSpare result (spare_places self.old) (spare_places self.new) 1 }
        ensures max_spare { UsesMaxSpare result (Some (spare_places self.old))
            (Some (spare_places self.new)) 1 }
        ensures window { PutsWithin result (byte ∷ []) self.old self.new }
    {
        self.put_slice(&[byte])
    }

    /// Appends `count` bytes of one value, where the window has places for all of them. It makes no
    /// room, and adds no entry.
    ///
    /// # Errors
    ///
    /// `AllocError` where it has too few places; nothing is changed then.
    fn put_bytes(&mut self, byte: u8, count: usize) -> Result<(), AllocError>
        ensures ok { OnOk result (self.new.items ≡ self.old.items ++ replicate count byte) }
        ensures err { OnErr result (self.new.items ≡ self.old.items) }
        ensures spare { UsesSpare result (spare_places self.old) (spare_places self.new) count }
        ensures max_spare { UsesMaxSpare result (Some (spare_places self.old))
            (Some (spare_places self.new)) count }
        ensures window { PutsWithin result (replicate count byte) self.old self.new }
    {
        if count > self.spare() {
            return Err(AllocError);
        }
        self.fill(byte, count);
        Ok(())
    }

    /// How many places the window has behind its bytes.
    fn remaining_mut(&self) -> usize
        ensures spare { min (spare_places self.now) (2 ^ 64 - 1) ≤ result }
        ensures value { result ≡ spare_places self.now }
    {
        self.spare()
    }
}

impl<
    S: CopySlice<Item = u8>,
    L: LayoutMut,
    R: RoleOf<S, B, M, A, H>,
    B: BufferMut<u8> + Drop,
    M: Drop,
    A: Allocator + Copy,
    H: Mark,
> WriteWindow<S, L, R, B, M, A, H>
where
    R::Parts: CopyWriterParts<S, B, M, A, H>,
{
    /// Appends `count` bytes of one value. The window has places for them.
    fn fill(&mut self, byte: u8, count: usize)
        requires { length self.old.items + count ≤ capacity_of self.old.role }
        ensures { bare self.new ≡ with_more (replicate count byte) (bare self.old) }
    {
        for _ in 0..count {
            match self.try_extend_within(&[byte]) {
                Ok(()) => (),
                Err(_) => unreachable!(),
            }
        }
    }
}
