//! An example: parts of one buffer are handed to threads, which read them where they lie. Whoever
//! ends last, a thread its part or the queue its own, gets the buffer's vector. So it is never
//! lost, in whatever order they end. No byte is copied.
ghost use Rattle.std.specs.Prelude.{◌≡◌, ◌≤◌, ◌+◌, take, drop, length, false};
ghost use Rattle.std.specs.Prelude.{IfOk, IfErr, IfSome, OnErr, is_some};
ghost use Rattle.arc_parts.specs.Window.{IsVecPart};
ghost use Rattle.arc_callers.specs.Queue.{EndsAs, Reads};

use arc_slice::ArcBytes;
use arc_slice::error::OwnerError;
use std::alloc::Global;
use std::sync::Wait;
use std::thread::{self, Threads};

/// A buffer whose parts are handed out from its front on.
#[derive(Drop)]
pub struct Queue {
    /// All of the buffer.
    pub whole: ArcBytes,
    /// How many bytes are handed out.
    pub next: usize,
    ghost within: { next ≤ length whole.items },
}

impl Queue {
    /// A queue that hands out all of a vector. The vector comes back where memory is refused.
    pub fn new(alloc: Global, bytes: Vec<u8>) -> Result<Self, Vec<u8>>
        ensures made { IfOk result (λ queue. (queue.whole.items ≡ bytes.items)
            × (queue.next ≡ 0)) }
    {
        match ArcBytes::try_from_vec(alloc, bytes) {
            Ok(whole) => Ok(Queue { whole, next: 0 }),
            Err(bytes) => Err(bytes),
        }
    }

    /// The next `most` bytes, or those that are left, as a window on the same block.
    pub fn take(&mut self, rt: &impl Wait, most: usize) -> Result<ArcBytes, OwnerError>
        ensures taken { IfOk result (λ part.
            (part.items ≡ take most (drop self.old.next self.old.whole.items))
            × (self.new.next ≡ self.old.next + length part.items)) }
        ensures whole { self.new.whole ≡ self.old.whole }
        ensures refused { OnErr result (self.new.next ≡ self.old.next) }
    {
        let left = self.whole.len() - self.next;
        let end = self.next + most.min(left);
        let part = self.whole.try_subslice(rt, self.next, end)?;
        self.next = end;
        Ok(part)
    }

    /// The vector, where no part of it lives; else the queue comes back.
    pub fn into_buffer(self) -> Result<Vec<u8>, Self>
        ensures buffer { IfOk result (λ bytes. bytes.items ≡ self.whole.items) }
        ensures parts { IfErr result (λ back. (back.whole ≡ self.whole)
            × (back.next ≡ self.next)) }
    {
        let Queue { whole, next } = self;
        match whole.try_into_vec() {
            Ok(bytes) => Ok(bytes),
            Err(whole) => Err(Queue { whole, next }),
        }
    }

    /// Ends the queue. If it is the last owner it gets the vector, with all bytes; else the part
    /// that ends last gets it. A buffer without places stands on no vector: then the queue comes
    /// back.
    pub fn end(self) -> Result<Option<Vec<u8>>, Self>
        ensures last { IfOk result (λ last. EndsAs self.whole.place (is_some last)) }
        ensures bytes { IfOk result (λ last. IfSome last (λ bytes.
            bytes.items ≡ self.whole.items)) }
        ensures refused { IfErr result (λ back. (back.whole ≡ self.whole)
            × (back.next ≡ self.next) × (¬ IsVecPart false self.whole.items self.whole.place)) }
    {
        let Queue { whole, next } = self;
        match whole.into_vec_if_last() {
            Ok(last) => Ok(last),
            Err(whole) => Err(Queue { whole, next }),
        }
    }
}

/// What a thread makes of a part.
#[derive(Drop)]
pub struct Read {
    /// How many bytes the part had.
    pub len: usize,
    /// The vector, with the part's bytes, where the part is the last owner.
    pub buffer: Option<Vec<u8>>,
}

/// Reads a part, and ends it.
pub fn read_part(part: ArcBytes) -> Read
    ensures { Reads part result }
{
    let len = part.len();
    match part.into_vec_if_last() {
        Ok(buffer) => Read { len, buffer },
        Err(_) => Read { len, buffer: None },
    }
}

/// Two threads read a part each, and end it. A thread gets the vector exactly where its part is the
/// last owner of all. So at most one of them does, and neither where the queue or another part
/// outlives both.
pub fn read_by_two(rt: &impl Threads, first: ArcBytes, second: ArcBytes) -> (Read, Read)
    ensures first { Reads first result.0 }
    ensures second { Reads second result.1 }
{
    thread::join(rt, move || read_part(first), move || read_part(second))
}
