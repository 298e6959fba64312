//! `SmallSlice`, a short list of bytes in a value of its own.
ghost use Rattle.std.specs.Prelude.{◌≡◌, ◌==◌, ◌<◌, ◌≤◌, ◌↔◌, [], length, drop, take};
ghost use Rattle.std.specs.Prelude.{slice_range};
ghost use Rattle.std.specs.Prelude.{IsOk, IsSome, IfSome};
ghost use Rattle.arc_buffer.specs.Slice.{IsEdge, IsRange, sub, edge_answer, range_answer};
ghost use Rattle.arc_block.specs.Inline.{inline_limit};

use super::limit::inline_limit;
use arc_block::layout::{DefaultLayout, Layout};
use arc_buffer::kinds::{AnyItems, CopySlice, Emptyable, Plain, Slice, Subsliceable, Text};
use arc_owners::error::RangeError;
use arc_read::range;
use std::marker::{Model, PhantomData};
use std::str;

/// A list of at most 30 bytes, under every layout, in the value itself. It is copied freely. No
/// call of it takes memory or adds an entry.
#[derive_where(Clone, Copy)]
pub struct SmallSlice<S: Slice<Item = u8>, L: Layout = DefaultLayout> {
    // A field without bytes. It lets the value begin where a word does, so that it is copied as
    // four words.
    words: [u64; 0],
    start: u8,
    end: u8,
    bytes: [u8; 30],
    of: PhantomData<(S, L)>,
}

impl<S: Slice<Item = u8>, L: Layout> Model for SmallSlice<S, L> {
    ghost use Rattle.std.specs.Prelude.{◌+◌, [], length};
    ghost use Rattle.arc_buffer.specs.Slice.{sub};
    ghost use Rattle.arc_block.specs.Inline.{inline_limit};
    ghost use Rattle.arc_small.specs.Inline.{Inlined, inlined, all_bytes, IsInlined};
    ghost use Rattle.arc_small.specs.Inline.{put_together};

    ghost Value = { Inlined };

    ghost view = { λ s. inlined s.bytes s.start s.end };

    ghost invariant = { λ s. IsInlined s.words s.bytes s.start s.end
        × ∥ S.is_legal (sub s.bytes s.start s.end) ∥₁ };

    ghost inverse = { λ v. record {
      words = [];
      bytes = all_bytes v;
      start = length v.front;
      end = length v.front + length v.items;
      of = record {};
    } };

    ghost inverse_ok = { λ s h. put_together (λ words bytes start end. record {
      words = words;
      bytes = bytes;
      start = start;
      end = end;
      of = record {};
    }) s.words s.bytes s.start s.end h.0 };
}

impl<S: Slice<Item = u8>, L: Layout> SmallSlice<S, L> {
    /// A list without bytes.
    pub fn empty() -> Self
    where
        S: Emptyable,
        ensures { result.items ≡ [] }
    {
        SmallSlice {
            words: [],
            bytes: [0; 30],
            start: 0,
            end: 0,
            of: PhantomData,
        }
    }

    /// A copy of the bytes, which are legal, or `None` where they are more than the limit.
    fn of_legal(items: &[u8]) -> Option<Self>
        requires { ∥ S.is_legal items.now ∥₁ }
        ensures some { IsSome result ↔ length items.now ≤ inline_limit }
        ensures items { IfSome result (λ small. small.items ≡ items.now) }
    {
        if items.len() > inline_limit() {
            return None;
        }
        let mut bytes = [0; 30];
        bytes[..items.len()].copy_from_slice(items);
        Some(SmallSlice {
            words: [],
            bytes,
            start: 0,
            end: items.len() as u8,
            of: PhantomData,
        })
    }

    /// A copy of the bytes, or `None` where they are more than the limit, of a kind of which each
    /// list is legal.
    pub(super) fn of_any(items: &[u8]) -> Option<Self>
    where
        S: AnyItems,
        ensures some { IsSome result ↔ length items.now ≤ inline_limit }
        ensures items { IfSome result (λ small. small.items ≡ items.now) }
    {
        Self::of_legal(items)
    }

    /// A copy of the bytes, or `None` where they are more than `inline_limit()`.
    pub fn new(items: &[u8]) -> Option<Self>
    where
        S: CopySlice,
        ensures some { IsSome result ↔ length items.now ≤ inline_limit }
        ensures items { IfSome result (λ small. small.items ≡ items.now) }
    {
        Self::of_legal(items)
    }

    /// A copy of the list.
    #[inline(always)]
    pub(super) fn copied(&self) -> Self
        ensures { result ≡ self.now }
    {
        SmallSlice {
            words: self.words,
            start: self.start,
            end: self.end,
            bytes: self.bytes,
            of: PhantomData,
        }
    }

    /// How many bytes the list has.
    #[inline(always)]
    pub fn len(&self) -> usize
        ensures answer { result ≡ length self.now.items }
        ensures limit { result ≤ inline_limit }
    {
        (self.end - self.start) as usize
    }

    /// Whether the list has no bytes.
    #[inline(always)]
    pub fn is_empty(&self) -> bool
        ensures { result ≡ (length self.now.items == 0) }
    {
        self.len() == 0
    }

    /// The bytes.
    #[inline(always)]
    pub fn as_slice(&self) -> &[u8]
        ensures { result.now ≡ self.now.items }
    {
        &self.bytes[..self.end as usize][self.start as usize..]
    }

    /// The bytes, which are a legal list of the kind, within the limit.
    pub(crate) fn as_legal_slice(&self) -> &[u8]
        ensures items { result.now ≡ self.now.items }
        ensures legal { ∥ S.is_legal result.now ∥₁ }
    {
        &self.bytes[..self.end as usize][self.start as usize..]
    }

    /// Whether `start` to `end` is a range of the list.
    ///
    /// # Errors
    ///
    /// `OutOfRange` where the end is past the length, else `InvalidRange` where the start is past
    /// the end, else `NotBoundary` where the kind may not be cut at one of them.
    pub fn check_range(&self, start: usize, end: usize) -> Result<(), RangeError>
    where
        S: Subsliceable,
        ensures answer { result ≡ range_answer S.boundary self.now.items start end }
        ensures ok { IsOk result ↔ IsRange S.boundary self.now.items start end }
    {
        range::check_range::<S>(self.as_slice(), start, end)
    }

    /// Whether the list may be cut at `at`.
    ///
    /// # Errors
    ///
    /// `OutOfRange` where that is past the length, else `NotBoundary` where the kind may not be cut
    /// there.
    pub fn check_at(&self, at: usize) -> Result<(), RangeError>
    where
        S: Subsliceable,
        ensures answer { result ≡ edge_answer S.boundary self.now.items at }
        ensures ok { IsOk result ↔ IsEdge S.boundary self.now.items at }
    {
        range::check_at::<S>(self.as_slice(), at)
    }

    /// The list may be cut at both ends.
    fn has_edges(&self)
    where
        S: Subsliceable,
        ensures start { IsEdge S.boundary self.now.items 0 }
        ensures end { IsEdge S.boundary self.now.items (length self.now.items) }
    {
        let _ = &self.bytes;
    }

    /// Keeps the bytes from `start` to before `end`.
    #[inline(always)]
    fn keep(&mut self, start: usize, end: usize)
    where
        S: Subsliceable,
        requires { IsRange S.boundary self.old.items start end }
        ensures { self.new.items ≡ sub self.old.items start end }
    {
        self.end = self.start + end as u8;
        self.start += start as u8;
    }

    /// A copy of the bytes from `start` to before `end`.
    #[inline(always)]
    pub fn subslice(&self, start: usize, end: usize) -> Self
    where
        S: Subsliceable,
        requires { IsRange S.boundary self.now.items start end }
        ensures items { result.items ≡ sub self.now.items start end }
        ensures slice { result.items ≡ slice_range self.now.items start end }
    {
        let mut part = self.copied();
        part.keep(start, end);
        part
    }

    /// The same list, under the layout `K`.
    #[inline(always)]
    pub fn with_layout<K: Layout>(self) -> SmallSlice<S, K>
        ensures { result ≡ self }
    {
        let (words, bytes) = (self.words, self.bytes);
        SmallSlice {
            words,
            start: self.start,
            end: self.end,
            bytes,
            of: PhantomData,
        }
    }

    /// Takes the first `n` bytes off the list.
    pub fn advance(&mut self, n: usize)
    where
        S: Subsliceable,
        requires { IsEdge S.boundary self.old.items n }
        ensures { self.new.items ≡ drop n self.old.items }
    {
        self.has_edges();
        let end = self.len();
        self.keep(n, end);
    }

    /// Keeps the list's first `n` bytes, or all where it has no more.
    pub fn truncate(&mut self, n: usize)
    where
        S: Subsliceable,
        requires { n < length self.old.items → IsEdge S.boundary self.old.items n }
        ensures { self.new.items ≡ take n self.old.items }
    {
        if n < self.len() {
            self.has_edges();
            self.keep(0, n);
        }
    }
}

const _: () = prove!(size_of::<SmallSlice<Plain<u8>>>() == 32);

impl<L: Layout> SmallSlice<Text, L> {
    /// A copy of the text, or `None` where it is more than `inline_limit()` bytes.
    pub fn new_str(text: &str) -> Option<Self>
        ensures some { IsSome result ↔ length text.now ≤ inline_limit }
        ensures items { IfSome result (λ small. small.items ≡ text.now) }
    {
        Self::of_legal(text.as_bytes())
    }

    /// The bytes as a `str`.
    pub fn as_str(&self) -> &str
        ensures { result.now ≡ self.now.items }
    {
        unsafe { str::from_utf8_unchecked(self.as_legal_slice()) }
    }
}
