//! `io::Read` and `io::Write` of write windows over bytes.
ghost use Rattle.std.specs.Prelude.{◌≡◌, ◌<◌, ◌≤◌, ◌++◌, min, length, drop, take, Ok, Some};
ghost use Rattle.std.specs.Prelude.{◌+◌, [], IsOk, OnOk, OnErr, IfOk, IfErr};
ghost use Rattle.std.specs.Vec.{vec_capacity, vec_len};
ghost use Rattle.std.specs.Io.{ReadsAtMost, WritesAtMost};
ghost use Rattle.std.specs.Io.KnownBytes.{Appends, Consumes, Keeps, ReadConsumes, WriteAppends};
ghost use Rattle.std.specs.IoError.{error_kind};
ghost use Rattle.arc_block.specs.Table.{bare};
ghost use Rattle.arc_parts.specs.Writers.{after_advance};
ghost use Rattle.arc_write.specs.Within.{after_write, spare_places, taken};

use crate::slice_mut::WriteWindow;
use arc_block::layout::LayoutMut;
use arc_buffer::buffer::BufferMut;
use arc_buffer::kinds::Plain;
use arc_owners::mark::Mark;
use arc_writer_parts::role::{CopyWriterParts, RoleOf};
use std::alloc::Allocator;
use std::io;
use std::io::ErrorKind;

impl<
    L: LayoutMut,
    R: RoleOf<Plain<u8>, B, M, A, H>,
    B: BufferMut<u8> + Drop,
    M: Drop,
    A: Allocator + Copy,
    H: Mark,
> io::Read for WriteWindow<Plain<u8>, L, R, B, M, A, H> {
    ghost remaining = { λ w. Some w.items };

    /// Moves the window's first bytes to the front of the buffer, as many as both have, and answers
    /// how many. The answer is always `Ok`. It adds no entry.
    fn read(&mut self, buffer: &mut [u8]) -> io::Result<usize>
        ensures bound { ReadsAtMost result buffer.new }
        ensures bytes { ReadConsumes (Some self.old.items) (Some self.new.items) result buffer.new }
        ensures count { result ≡ Ok (min (length self.old.items) (length buffer.old)) }
        ensures copied { let n = min (length self.old.items) (length buffer.old) in
            buffer.new ≡ take n self.old.items ++ drop n buffer.old }
        ensures window { self.new
            ≡ after_advance (min (length self.old.items) (length buffer.old)) self.old }
    {
        let count = self.len().min(buffer.len());
        buffer[..count].copy_from_slice(&self.as_slice()[..count]);
        self.advance(count);
        Ok(count)
    }

    /// Fills the buffer with the window's first bytes, which it takes off. It adds no entry.
    ///
    /// # Errors
    ///
    /// One of kind `UnexpectedEof` where the window has fewer bytes than the buffer. Then all of
    /// them are in the front of the buffer, and the window is empty.
    fn read_exact(&mut self, buffer: &mut [u8]) -> io::Result<()>
        ensures bytes { OnOk result
            (Consumes (Some self.old.items) (Some self.new.items) buffer.new) }
        ensures ok { OnOk result (length buffer.old ≤ length self.old.items) }
        ensures short { IfErr result (λ e. (length self.old.items < length buffer.old)
            × (error_kind e ≡ ErrorKind.UnexpectedEof)) }
        ensures copied { let n = min (length self.old.items) (length buffer.old) in
            buffer.new ≡ take n self.old.items ++ drop n buffer.old }
        ensures window { self.new
            ≡ after_advance (min (length self.old.items) (length buffer.old)) self.old }
    {
        let is_short = self.len() < buffer.len();
        self.read(buffer)?;
        if is_short {
            return Err(io::Error::new(ErrorKind::UnexpectedEof, "failed to fill whole buffer"));
        }
        Ok(())
    }
}

impl<
    L: LayoutMut,
    R: RoleOf<Plain<u8>, B, M, A, H>,
    B: BufferMut<u8> + Drop,
    M: Drop,
    A: Allocator + Copy,
    H: Mark,
> WriteWindow<Plain<u8>, L, R, B, M, A, H> {
    /// Moves all bytes of the window behind those of the vector, and answers how many. The method
    /// of `io::Read` with this name doesn't say where the window stands afterwards; this one does.
    /// It adds no entry.
    ///
    /// # Errors
    ///
    /// One of kind `OutOfMemory` where the vector is refused memory. Nothing is changed then.
    ///
    /// # Allocates
    ///
    /// Once, where the vector has fewer places to spare than the window has bytes.
    pub fn read_to_end<V: Allocator>(&mut self, bytes: &mut Vec<u8, V>) -> io::Result<usize>
        ensures ok { IfOk result (λ n. n ≡ length self.old.items) }
        ensures moved { OnOk result (bytes.new.items ≡ bytes.old.items ++ self.old.items) }
        ensures window { OnOk result (self.new ≡ after_advance (length self.old.items) self.old) }
        ensures err { IfErr result (λ e. (error_kind e ≡ ErrorKind.OutOfMemory)
            × (vec_capacity bytes.old < vec_len bytes.old + length self.old.items)) }
        ensures refused { OnErr result
            ((self.new ≡ self.old) × (bytes.new.items ≡ bytes.old.items)) }
    {
        let count = self.len();
        bytes.extend_from_slice(self.as_slice())?;
        self.advance(count);
        Ok(count)
    }
}

impl<
    L: LayoutMut,
    R: RoleOf<Plain<u8>, B, M, A, H>,
    B: BufferMut<u8> + Drop,
    M: Drop,
    A: Allocator + Copy,
    H: Mark,
> io::Write for WriteWindow<Plain<u8>, L, R, B, M, A, H>
where
    R::Parts: CopyWriterParts<Plain<u8>, B, M, A, H>,
{
    ghost contents = { λ w. Some w.items };

    /// Appends as many of the bytes as the window has places for, and answers how many. The answer
    /// is always `Ok`. It makes no room, and adds no entry.
    fn write(&mut self, bytes: &[u8]) -> io::Result<usize>
        ensures bound { WritesAtMost result bytes.now }
        ensures bytes { WriteAppends (Some self.old.items) (Some self.new.items) result bytes.now }
        ensures count { result ≡ Ok (taken self.old bytes.now) }
        ensures window { bare self.new ≡ after_write (bare self.old) bytes.now }
    {
        let count = self.spare().min(bytes.len());
        match self.try_extend_within(&bytes[..count]) {
            Ok(()) => Ok(count),
            Err(_) => unreachable!(),
        }
    }

    /// Appends the bytes, within the window's places. It makes no room, and adds no entry.
    ///
    /// # Errors
    ///
    /// One of kind `WriteZero` where there are more bytes than places: as many are appended as
    /// there are places.
    fn write_all(&mut self, bytes: &[u8]) -> io::Result<()>
        ensures bytes { OnOk result
            (Appends (Some self.old.items) (Some self.new.items) bytes.now) }
        ensures ok { OnOk result (length bytes.now ≤ spare_places self.old) }
        ensures full { IfErr result (λ e. (spare_places self.old < length bytes.now)
            × (error_kind e ≡ ErrorKind.WriteZero)) }
        ensures window { bare self.new ≡ after_write (bare self.old) bytes.now }
    {
        let is_full = self.spare() < bytes.len();
        self.write(bytes)?;
        if is_full {
            return Err(io::Error::new(ErrorKind::WriteZero, "failed to write whole buffer"));
        }
        Ok(())
    }

    /// Does nothing, since no byte is held back. The answer is always `Ok`.
    fn flush(&mut self) -> io::Result<()>
        ensures bytes { Keeps (Some self.old.items) (Some self.new.items) }
        ensures ok { IsOk result }
        ensures same { self.new ≡ self.old }
    {
        Ok(())
    }
}
