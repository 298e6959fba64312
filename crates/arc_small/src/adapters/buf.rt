//! `Buf` of small windows over bytes and byte text.
ghost use Rattle.std.specs.Prelude.{◌≡◌, ℕ, ◌≤◌, List, Option, length, drop};
ghost use Rattle.arc_owners.specs.count.Calls.{Owner};
ghost use Rattle.arc_owners.specs.declared.count.tokens.Pass.{Pass};
ghost use Rattle.arc_block.specs.Given.{Given};
ghost use Rattle.arc_block.specs.Place.{Place, moved};
ghost use Rattle.arc_parts.specs.Shared.{LeavesAt};
ghost use Rattle.arc_parts.specs.Steps.{IsPassAt};
ghost use Rattle.arc_read.specs.Kept.{kept_read, without_metadata};
ghost use Rattle.bytes.specs.Unread.{IsChunkOf};

use super::super::{SmallArcSlice, SmallSlice};
use arc_block::layout::Layout;
use arc_buffer::buffer::Buffer;
use arc_buffer::kinds::{ByteText, Plain, Slice};
use arc_owners::mark::Mark;
use bytes::Buf;
use std::alloc::Allocator;

impl<L: Layout> Buf for SmallSlice<Plain<u8>, L> {
    ghost unread = { λ w. w.items };

    fn remaining(&self) -> usize {
        self.len()
    }

    fn chunk(&self) -> &[u8]
        ensures chunk { IsChunkOf result.now self.now.items }
        ensures whole { result.now ≡ self.now.items }
    {
        self.as_slice()
    }

    /// Takes the first `count` bytes off, by the list's own `advance`.
    fn advance(&mut self, count: usize)
        requires { count ≤ length self.old.items }
        ensures value { self.new.items ≡ drop count self.old.items }
    {
        SmallSlice::advance(self, count);
    }
}

impl<L: Layout, B: Buffer<u8> + Drop, M: Drop, A: Allocator + Copy, H: Mark> Buf
    for SmallArcSlice<Plain<u8>, L, B, M, A, H> {
    ghost unread = { λ w. w.items };

    ghost kept = { λ w. kept_read w.place w.items };

    fn remaining(&self) -> usize {
        self.len()
    }

    fn chunk(&self) -> &[u8]
        ensures chunk { IsChunkOf result.now self.now.items }
        ensures whole { result.now ≡ self.now.items }
    {
        self.as_slice()
    }

    /// Takes the first `count` bytes off, by the window's own `advance`.
    fn advance(&mut self, count: usize)
        requires { count ≤ length self.old.items }
        ensures value { self.new.items ≡ drop count self.old.items }
        ensures kept { kept_read self.new.place self.new.items
            ≡ kept_read self.old.place self.old.items }
        ensures place { self.new.place ≡ moved count self.old.place }
        ensures role { self.new.role ≡ self.old.role }
    {
        SmallArcSlice::advance(self, count);
    }
}

impl<L: Layout> Buf for SmallSlice<ByteText, L> {
    ghost unread = { λ w. w.items };

    fn remaining(&self) -> usize {
        self.len()
    }

    fn chunk(&self) -> &[u8]
        ensures chunk { IsChunkOf result.now self.now.items }
        ensures whole { result.now ≡ self.now.items }
    {
        self.as_slice()
    }

    /// Takes the first `count` bytes off, by the list's own `advance`.
    fn advance(&mut self, count: usize)
        requires { count ≤ length self.old.items }
        ensures value { self.new.items ≡ drop count self.old.items }
    {
        SmallSlice::advance(self, count);
    }
}

impl<L: Layout, B: Buffer<u8> + Drop, M: Drop, A: Allocator + Copy, H: Mark> Buf
    for SmallArcSlice<ByteText, L, B, M, A, H> {
    ghost unread = { λ w. w.items };

    ghost kept = { λ w. kept_read w.place w.items };

    fn remaining(&self) -> usize {
        self.len()
    }

    fn chunk(&self) -> &[u8]
        ensures chunk { IsChunkOf result.now self.now.items }
        ensures whole { result.now ≡ self.now.items }
    {
        self.as_slice()
    }

    /// Takes the first `count` bytes off, by the window's own `advance`.
    fn advance(&mut self, count: usize)
        requires { count ≤ length self.old.items }
        ensures value { self.new.items ≡ drop count self.old.items }
        ensures kept { kept_read self.new.place self.new.items
            ≡ kept_read self.old.place self.old.items }
        ensures place { self.new.place ≡ moved count self.old.place }
        ensures role { self.new.role ≡ self.old.role }
    {
        SmallArcSlice::advance(self, count);
    }
}

impl<
    S: Slice<Item = u8>,
    L: Layout,
    B: Buffer<u8> + Drop,
    M: Drop,
    A: Allocator + Copy,
    H: Mark,
> SmallArcSlice<S, L, B, M, A, H> {
    /// What `kept` of `Buf` tells: after reads the window stands on the same block, as the same
    /// owner, as many places further in as bytes were read. Of bytes in the window itself that is
    /// nothing. Does nothing: its contract is the law.
    pub fn known_after_reads(&self)
        ensures place { (n : ℕ) (place : Place (Option Owner) (Given B M)) (items : List ℕ)
            → kept_read self.now.place self.now.items ≡ kept_read place items
            → n ≤ length items → self.now.items ≡ drop n items
            → without_metadata self.now.place ≡ moved n (without_metadata place) }
        ensures pass { (place : Place (Option Owner) (Given B M)) (items : List ℕ) (pass : Pass H)
            → kept_read self.now.place self.now.items ≡ kept_read place items
            → IsPassAt place pass → IsPassAt self.now.place pass }
        ensures left { (place : Place (Option Owner) (Given B M)) (items : List ℕ)
            (before after : Pass H)
            → kept_read self.now.place self.now.items ≡ kept_read place items
            → LeavesAt self.now.place before after → LeavesAt place before after }
    {}
}
