//! Numbers that are put into a window of bytes. The methods of `BufMut` with these names say how
//! many places are left; these say the window afterwards.
ghost use Rattle.std.specs.Prelude.{◌-◌, ◌≤◌, ◌∷◌, [], drop, take, to_bits};
ghost use Rattle.std.specs.Float.{binary32, binary64};
ghost use Rattle.std.specs.Int.{cast_unsigned, to_be_bytes, to_le_bytes, w128, w16, w32, w64, w8};
ghost use Rattle.arc_write.specs.Within.{PutsWithin};

use crate::slice_mut::WriteWindow;
use arc_block::layout::LayoutMut;
use arc_buffer::buffer::BufferMut;
use arc_buffer::kinds::CopySlice;
use arc_owners::mark::Mark;
use arc_writer_parts::role::{CopyWriterParts, RoleOf};
use bytes::BufMut;
use std::alloc::{AllocError, Allocator};
use std::num::{f32_to_bits_with_nan, f64_to_bits_with_nan};

impl<
    S: CopySlice<Item = u8>,
    L: LayoutMut,
    R: RoleOf<S, B, M, A, H>,
    B: BufferMut<u8> + Drop,
    M: Drop,
    A: Allocator + Copy,
    H: Mark,
> WriteWindow<S, L, R, B, M, A, H>
where
    R::Parts: CopyWriterParts<S, B, M, A, H>,
{
    /// Appends the number's byte, where the window has a place for it. It makes no room, and adds
    /// no entry.
    ///
    /// # Errors
    ///
    /// `AllocError` where it has too few places; nothing is changed then.
    pub fn put_i8(&mut self, number: i8) -> Result<(), AllocError>
        ensures window { PutsWithin result (cast_unsigned w8 number ∷ []) self.old self.new }
    {
        self.put_u8(number.cast_unsigned())
    }

    /// Appends the number's two bytes, the high one first, where the window has places for them. It
    /// makes no room, and adds no entry.
    ///
    /// # Errors
    ///
    /// `AllocError` where it has too few places; nothing is changed then.
    pub fn put_u16(&mut self, number: u16) -> Result<(), AllocError>
        ensures window { PutsWithin result (to_be_bytes w16 number) self.old self.new }
    {
        self.put_slice(&number.to_be_bytes())
    }

    /// Appends the number's two bytes, the low one first, where the window has places for them. It
    /// makes no room, and adds no entry.
    ///
    /// # Errors
    ///
    /// `AllocError` where it has too few places; nothing is changed then.
    pub fn put_u16_le(&mut self, number: u16) -> Result<(), AllocError>
        ensures window { PutsWithin result (to_le_bytes w16 number) self.old self.new }
    {
        self.put_slice(&number.to_le_bytes())
    }

    /// Appends the number's two bytes, the high one first, where the window has places for them. It
    /// makes no room, and adds no entry.
    ///
    /// # Errors
    ///
    /// `AllocError` where it has too few places; nothing is changed then.
    pub fn put_i16(&mut self, number: i16) -> Result<(), AllocError>
        ensures window { PutsWithin result (to_be_bytes w16 (cast_unsigned w16 number))
            self.old self.new }
    {
        self.put_slice(&number.to_be_bytes())
    }

    /// Appends the number's two bytes, the low one first, where the window has places for them. It
    /// makes no room, and adds no entry.
    ///
    /// # Errors
    ///
    /// `AllocError` where it has too few places; nothing is changed then.
    pub fn put_i16_le(&mut self, number: i16) -> Result<(), AllocError>
        ensures window { PutsWithin result (to_le_bytes w16 (cast_unsigned w16 number))
            self.old self.new }
    {
        self.put_slice(&number.to_le_bytes())
    }

    /// Appends the number's four bytes, the highest first, where the window has places for them. It
    /// makes no room, and adds no entry.
    ///
    /// # Errors
    ///
    /// `AllocError` where it has too few places; nothing is changed then.
    pub fn put_u32(&mut self, number: u32) -> Result<(), AllocError>
        ensures window { PutsWithin result (to_be_bytes w32 number) self.old self.new }
    {
        self.put_slice(&number.to_be_bytes())
    }

    /// Appends the number's four bytes, the lowest first, where the window has places for them. It
    /// makes no room, and adds no entry.
    ///
    /// # Errors
    ///
    /// `AllocError` where it has too few places; nothing is changed then.
    pub fn put_u32_le(&mut self, number: u32) -> Result<(), AllocError>
        ensures window { PutsWithin result (to_le_bytes w32 number) self.old self.new }
    {
        self.put_slice(&number.to_le_bytes())
    }

    /// Appends the number's four bytes, the highest first, where the window has places for them. It
    /// makes no room, and adds no entry.
    ///
    /// # Errors
    ///
    /// `AllocError` where it has too few places; nothing is changed then.
    pub fn put_i32(&mut self, number: i32) -> Result<(), AllocError>
        ensures window { PutsWithin result (to_be_bytes w32 (cast_unsigned w32 number))
            self.old self.new }
    {
        self.put_slice(&number.to_be_bytes())
    }

    /// Appends the number's four bytes, the lowest first, where the window has places for them. It
    /// makes no room, and adds no entry.
    ///
    /// # Errors
    ///
    /// `AllocError` where it has too few places; nothing is changed then.
    pub fn put_i32_le(&mut self, number: i32) -> Result<(), AllocError>
        ensures window { PutsWithin result (to_le_bytes w32 (cast_unsigned w32 number))
            self.old self.new }
    {
        self.put_slice(&number.to_le_bytes())
    }

    /// Appends the number's eight bytes, the highest first, where the window has places for them.
    /// It makes no room, and adds no entry.
    ///
    /// # Errors
    ///
    /// `AllocError` where it has too few places; nothing is changed then.
    pub fn put_u64(&mut self, number: u64) -> Result<(), AllocError>
        ensures window { PutsWithin result (to_be_bytes w64 number) self.old self.new }
    {
        self.put_slice(&number.to_be_bytes())
    }

    /// Appends the number's eight bytes, the lowest first, where the window has places for them. It
    /// makes no room, and adds no entry.
    ///
    /// # Errors
    ///
    /// `AllocError` where it has too few places; nothing is changed then.
    pub fn put_u64_le(&mut self, number: u64) -> Result<(), AllocError>
        ensures window { PutsWithin result (to_le_bytes w64 number) self.old self.new }
    {
        self.put_slice(&number.to_le_bytes())
    }

    /// Appends the number's eight bytes, the highest first, where the window has places for them.
    /// It makes no room, and adds no entry.
    ///
    /// # Errors
    ///
    /// `AllocError` where it has too few places; nothing is changed then.
    pub fn put_i64(&mut self, number: i64) -> Result<(), AllocError>
        ensures window { PutsWithin result (to_be_bytes w64 (cast_unsigned w64 number))
            self.old self.new }
    {
        self.put_slice(&number.to_be_bytes())
    }

    /// Appends the number's eight bytes, the lowest first, where the window has places for them. It
    /// makes no room, and adds no entry.
    ///
    /// # Errors
    ///
    /// `AllocError` where it has too few places; nothing is changed then.
    pub fn put_i64_le(&mut self, number: i64) -> Result<(), AllocError>
        ensures window { PutsWithin result (to_le_bytes w64 (cast_unsigned w64 number))
            self.old self.new }
    {
        self.put_slice(&number.to_le_bytes())
    }

    /// Appends the number's sixteen bytes, the highest first, where the window has places for them.
    /// It makes no room, and adds no entry.
    ///
    /// # Errors
    ///
    /// `AllocError` where it has too few places; nothing is changed then.
    pub fn put_u128(&mut self, number: u128) -> Result<(), AllocError>
        ensures window { PutsWithin result (to_be_bytes w128 number) self.old self.new }
    {
        self.put_slice(&number.to_be_bytes())
    }

    /// Appends the number's sixteen bytes, the lowest first, where the window has places for them.
    /// It makes no room, and adds no entry.
    ///
    /// # Errors
    ///
    /// `AllocError` where it has too few places; nothing is changed then.
    pub fn put_u128_le(&mut self, number: u128) -> Result<(), AllocError>
        ensures window { PutsWithin result (to_le_bytes w128 number) self.old self.new }
    {
        self.put_slice(&number.to_le_bytes())
    }

    /// Appends the number's sixteen bytes, the highest first, where the window has places for them.
    /// It makes no room, and adds no entry.
    ///
    /// # Errors
    ///
    /// `AllocError` where it has too few places; nothing is changed then.
    pub fn put_i128(&mut self, number: i128) -> Result<(), AllocError>
        ensures window { PutsWithin result (to_be_bytes w128 (cast_unsigned w128 number))
            self.old self.new }
    {
        self.put_u128(number.cast_unsigned())
    }

    /// Appends the number's sixteen bytes, the lowest first, where the window has places for them.
    /// It makes no room, and adds no entry.
    ///
    /// # Errors
    ///
    /// `AllocError` where it has too few places; nothing is changed then.
    pub fn put_i128_le(&mut self, number: i128) -> Result<(), AllocError>
        ensures window { PutsWithin result (to_le_bytes w128 (cast_unsigned w128 number))
            self.old self.new }
    {
        self.put_u128_le(number.cast_unsigned())
    }

    /// Appends the four bytes of the number's pattern, the highest first, where the window has
    /// places for them. It makes no room, and adds no entry.
    ///
    /// # Errors
    ///
    /// `AllocError` where it has too few places; nothing is changed then.
    pub fn put_f32(&mut self, number: f32) -> Result<(), AllocError>
        ensures window { PutsWithin result (to_be_bytes w32 (to_bits binary32 number))
            self.old self.new }
    {
        self.put_u32(f32_to_bits_with_nan(number))
    }

    /// Appends the four bytes of the number's pattern, the lowest first, where the window has
    /// places for them. It makes no room, and adds no entry.
    ///
    /// # Errors
    ///
    /// `AllocError` where it has too few places; nothing is changed then.
    pub fn put_f32_le(&mut self, number: f32) -> Result<(), AllocError>
        ensures window { PutsWithin result (to_le_bytes w32 (to_bits binary32 number))
            self.old self.new }
    {
        self.put_u32_le(f32_to_bits_with_nan(number))
    }

    /// Appends the eight bytes of the number's pattern, the highest first, where the window has
    /// places for them. It makes no room, and adds no entry.
    ///
    /// # Errors
    ///
    /// `AllocError` where it has too few places; nothing is changed then.
    pub fn put_f64(&mut self, number: f64) -> Result<(), AllocError>
        ensures window { PutsWithin result (to_be_bytes w64 (to_bits binary64 number))
            self.old self.new }
    {
        self.put_u64(f64_to_bits_with_nan(number))
    }

    /// Appends the eight bytes of the number's pattern, the lowest first, where the window has
    /// places for them. It makes no room, and adds no entry.
    ///
    /// # Errors
    ///
    /// `AllocError` where it has too few places; nothing is changed then.
    pub fn put_f64_le(&mut self, number: f64) -> Result<(), AllocError>
        ensures window { PutsWithin result (to_le_bytes w64 (to_bits binary64 number))
            self.old self.new }
    {
        self.put_u64_le(f64_to_bits_with_nan(number))
    }

    /// Appends the number's `count` lowest bytes, of eight, the highest first, where the window has
    /// places for them. It makes no room, and adds no entry.
    ///
    /// # Errors
    ///
    /// `AllocError` where it has too few places; nothing is changed then.
    pub fn put_uint(&mut self, number: u64, count: usize) -> Result<(), AllocError>
        requires { count ≤ 8 }
        ensures window { PutsWithin result (drop (8 - count) (to_be_bytes w64 number))
            self.old self.new }
    {
        self.put_slice(&number.to_be_bytes()[8 - count..])
    }

    /// Appends the number's `count` lowest bytes, of eight, the lowest first, where the window has
    /// places for them. It makes no room, and adds no entry.
    ///
    /// # Errors
    ///
    /// `AllocError` where it has too few places; nothing is changed then.
    pub fn put_uint_le(&mut self, number: u64, count: usize) -> Result<(), AllocError>
        requires { count ≤ 8 }
        ensures window { PutsWithin result (take count (to_le_bytes w64 number)) self.old self.new }
    {
        self.put_slice(&number.to_le_bytes()[..count])
    }

    /// Appends the number's `count` lowest bytes, of eight, the highest first, where the window has
    /// places for them. It makes no room, and adds no entry.
    ///
    /// # Errors
    ///
    /// `AllocError` where it has too few places; nothing is changed then.
    pub fn put_int(&mut self, number: i64, count: usize) -> Result<(), AllocError>
        requires { count ≤ 8 }
        ensures window { PutsWithin result
            (drop (8 - count) (to_be_bytes w64 (cast_unsigned w64 number))) self.old self.new }
    {
        self.put_uint(number.cast_unsigned(), count)
    }

    /// Appends the number's `count` lowest bytes, of eight, the lowest first, where the window has
    /// places for them. It makes no room, and adds no entry.
    ///
    /// # Errors
    ///
    /// `AllocError` where it has too few places; nothing is changed then.
    pub fn put_int_le(&mut self, number: i64, count: usize) -> Result<(), AllocError>
        requires { count ≤ 8 }
        ensures window { PutsWithin result (take count (to_le_bytes w64 (cast_unsigned w64 number)))
            self.old self.new }
    {
        self.put_uint_le(number.cast_unsigned(), count)
    }
}
