//! `io::Read` of read windows over bytes.
ghost use Rattle.std.specs.Prelude.{◌≡◌, ◌<◌, ◌≤◌, ◌++◌, [], min, length, drop, take, Ok, Some};
ghost use Rattle.std.specs.Prelude.{◌+◌, OnOk, OnErr, IfOk, IfErr};
ghost use Rattle.std.specs.Vec.{vec_capacity, vec_len};
ghost use Rattle.std.specs.Io.{ReadsAtMost};
ghost use Rattle.std.specs.Io.KnownBytes.{Consumes, ReadConsumes};
ghost use Rattle.std.specs.IoError.{error_kind};
ghost use Rattle.arc_block.specs.Place.{moved};

use crate::slice::ArcSlice;
use arc_block::layout::Layout;
use arc_buffer::buffer::Buffer;
use arc_buffer::kinds::Plain;
use arc_owners::mark::Mark;
use std::alloc::Allocator;
use std::io;
use std::io::ErrorKind;

impl<L: Layout, B: Buffer<u8> + Drop, M: Drop, A: Allocator + Copy, H: Mark> io::Read
    for ArcSlice<Plain<u8>, L, B, M, A, H> {
    ghost remaining = { λ w. Some w.items };

    /// Moves the window's first bytes to the front of the buffer, as many as both have, and answers
    /// how many. The answer is always `Ok`. It adds no entry.
    fn read(&mut self, buffer: &mut [u8]) -> io::Result<usize>
        ensures bound { ReadsAtMost result buffer.new }
        ensures bytes { ReadConsumes (Some self.old.items) (Some self.new.items) result buffer.new }
        ensures count { result ≡ Ok (min (length self.old.items) (length buffer.old)) }
        ensures copied { let n = min (length self.old.items) (length buffer.old) in
            buffer.new ≡ take n self.old.items ++ drop n buffer.old }
        ensures window { let n = min (length self.old.items) (length buffer.old) in
            self.new ≡ record { items = drop n self.old.items; place = moved n self.old.place } }
    {
        let count = self.len().min(buffer.len());
        buffer[..count].copy_from_slice(&self.as_slice()[..count]);
        self.advance(count);
        Ok(count)
    }

    /// Fills the buffer with the window's first bytes, which it takes off. It adds no entry.
    ///
    /// # Errors
    ///
    /// One of kind `UnexpectedEof` where the window has fewer bytes than the buffer. Then all of
    /// them are in the front of the buffer, and the window is empty.
    fn read_exact(&mut self, buffer: &mut [u8]) -> io::Result<()>
        ensures bytes { OnOk result
            (Consumes (Some self.old.items) (Some self.new.items) buffer.new) }
        ensures ok { OnOk result (length buffer.old ≤ length self.old.items) }
        ensures short { IfErr result (λ e. (length self.old.items < length buffer.old)
            × (error_kind e ≡ ErrorKind.UnexpectedEof)) }
        ensures copied { let n = min (length self.old.items) (length buffer.old) in
            buffer.new ≡ take n self.old.items ++ drop n buffer.old }
        ensures window { let n = min (length self.old.items) (length buffer.old) in
            self.new ≡ record { items = drop n self.old.items; place = moved n self.old.place } }
    {
        let is_short = self.len() < buffer.len();
        self.read(buffer)?;
        if is_short {
            return Err(io::Error::new(ErrorKind::UnexpectedEof, "failed to fill whole buffer"));
        }
        Ok(())
    }
}

impl<L: Layout, B: Buffer<u8> + Drop, M: Drop, A: Allocator + Copy, H: Mark> ArcSlice<
    Plain<u8>,
    L,
    B,
    M,
    A,
    H,
> {
    /// Moves all bytes of the window behind those of the vector, and answers how many. The method
    /// of `io::Read` with this name doesn't say where the window stands afterwards; this one does.
    /// It adds no entry.
    ///
    /// # Errors
    ///
    /// One of kind `OutOfMemory` where the vector is refused memory. Nothing is changed then.
    ///
    /// # Allocates
    ///
    /// Once, where the vector has fewer places to spare than the window has bytes.
    pub fn read_to_end<V: Allocator>(&mut self, bytes: &mut Vec<u8, V>) -> io::Result<usize>
        ensures ok { IfOk result (λ n. n ≡ length self.old.items) }
        ensures moved { OnOk result (bytes.new.items ≡ bytes.old.items ++ self.old.items) }
        ensures window { OnOk result (self.new
            ≡ record { items = []; place = moved (length self.old.items) self.old.place }) }
        ensures err { IfErr result (λ e. (error_kind e ≡ ErrorKind.OutOfMemory)
            × (vec_capacity bytes.old < vec_len bytes.old + length self.old.items)) }
        ensures refused { OnErr result
            ((self.new ≡ self.old) × (bytes.new.items ≡ bytes.old.items)) }
    {
        let count = self.len();
        bytes.extend_from_slice(self.as_slice())?;
        self.advance(count);
        Ok(count)
    }
}
