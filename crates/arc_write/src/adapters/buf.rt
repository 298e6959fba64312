//! `Buf` of write windows over bytes and byte text.
ghost use Rattle.std.specs.Prelude.{◌≡◌, ℕ, ◌≤◌, Option, length, drop};
ghost use Rattle.arc_owners.specs.count.Calls.{Owner};
ghost use Rattle.arc_owners.specs.declared.count.tokens.Pass.{Pass};
ghost use Rattle.arc_block.specs.Given.{Given};
ghost use Rattle.arc_block.specs.Place.{Place, moved};
ghost use Rattle.arc_parts.specs.Shared.{IsOneBlock, LeavesAt};
ghost use Rattle.arc_parts.specs.Steps.{IsPassAt};
ghost use Rattle.arc_parts.specs.Window.{PartsView};
ghost use Rattle.arc_parts.specs.Writers.{after_advance};
ghost use Rattle.arc_read.specs.Kept.{without_metadata};
ghost use Rattle.arc_write.specs.Kept.{kept_written};
ghost use Rattle.arc_write.specs.Within.{spare_places};
ghost use Rattle.bytes.specs.Unread.{IsChunkOf};

use crate::slice_mut::WriteWindow;
use arc_block::layout::LayoutMut;
use arc_buffer::buffer::BufferMut;
use arc_buffer::kinds::{ByteText, Plain, Slice};
use arc_owners::mark::Mark;
use arc_writer_parts::role::RoleOf;
use bytes::Buf;
use std::alloc::Allocator;

impl<
    L: LayoutMut,
    R: RoleOf<Plain<u8>, B, M, A, H>,
    B: BufferMut<u8> + Drop,
    M: Drop,
    A: Allocator + Copy,
    H: Mark,
> Buf for WriteWindow<Plain<u8>, L, R, B, M, A, H> {
    ghost unread = { λ w. w.items };

    ghost kept = { λ w. kept_written w };

    fn remaining(&self) -> usize {
        self.len()
    }

    fn chunk(&self) -> &[u8]
        ensures chunk { IsChunkOf result.now self.now.items }
        ensures whole { result.now ≡ self.now.items }
    {
        self.as_slice()
    }

    /// Takes the first `count` bytes off, with their places, by the window's own `advance`.
    fn advance(&mut self, count: usize)
        requires { count ≤ length self.old.items }
        ensures value { self.new.items ≡ drop count self.old.items }
        ensures kept { kept_written self.new ≡ kept_written self.old }
        ensures window { self.new ≡ after_advance count self.old }
    {
        self.advance(count);
    }
}

impl<
    L: LayoutMut,
    R: RoleOf<ByteText, B, M, A, H>,
    B: BufferMut<u8> + Drop,
    M: Drop,
    A: Allocator + Copy,
    H: Mark,
> Buf for WriteWindow<ByteText, L, R, B, M, A, H> {
    ghost unread = { λ w. w.items };

    ghost kept = { λ w. kept_written w };

    fn remaining(&self) -> usize {
        self.len()
    }

    fn chunk(&self) -> &[u8]
        ensures chunk { IsChunkOf result.now self.now.items }
        ensures whole { result.now ≡ self.now.items }
    {
        self.as_slice()
    }

    /// Takes the first `count` bytes off, with their places, by the window's own `advance`.
    fn advance(&mut self, count: usize)
        requires { count ≤ length self.old.items }
        ensures value { self.new.items ≡ drop count self.old.items }
        ensures kept { kept_written self.new ≡ kept_written self.old }
        ensures window { self.new ≡ after_advance count self.old }
    {
        self.advance(count);
    }
}

impl<
    S: Slice,
    L: LayoutMut,
    R: RoleOf<S, B, M, A, H>,
    B: BufferMut<S::Item> + Drop,
    M: Drop,
    A: Allocator + Copy,
    H: Mark,
> WriteWindow<S, L, R, B, M, A, H> {
    /// What `kept` of `Buf` tells: after reads the window stands on the same block, as the same
    /// owner, as many places further in as bytes were read, and as many places are spare. Does
    /// nothing: its contract is the law.
    pub fn known_after_reads(&self)
        ensures place { (n : ℕ) (old : PartsView S.Item (Given B M))
            → kept_written self.now ≡ kept_written old → n ≤ length old.items
            → self.now.items ≡ drop n old.items
            → without_metadata self.now.place ≡ moved n (without_metadata old.place) }
        ensures spare { (old : PartsView S.Item (Given B M))
            → kept_written self.now ≡ kept_written old → spare_places self.now ≡ spare_places old }
        ensures pass { (old : PartsView S.Item (Given B M)) (pass : Pass H)
            → kept_written self.now ≡ kept_written old
            → IsPassAt old.place pass → IsPassAt self.now.place pass }
        ensures left { (old : PartsView S.Item (Given B M)) (before after : Pass H)
            → kept_written self.now ≡ kept_written old
            → LeavesAt self.now.place before after → LeavesAt old.place before after }
        ensures block { (old : PartsView S.Item (Given B M))
            (other : Place (Option Owner) (Given B M))
            → kept_written self.now ≡ kept_written old
            → IsOneBlock old.place other → IsOneBlock self.now.place other }
    {}
}
