//! `'static` slices, without a lifetime in their type.
ghost use Rattle.std.specs.Prelude.{◌≡◌, ◌≤◌, ◌==◌, List, [], length, take};
ghost use denote.RawPtr.{Ptr};
ghost use Rattle.arc_buffer.specs.Slice.{sub};
ghost use Rattle.arc_owners.specs.memory.LentSlices.{slice_lent};

use arc_memory::Base;
use std::marker::{Model, PhantomData};
use std::slice;

/// That items lie side by side at a place for good, for all to read. It has no bytes, and can be
/// had more than once. Contracts see the place and the items.
#[derive(Drop)]
pub struct StaticShare<T> {
    mark: PhantomData<*const T>,
    pub ghost ptr: { Ptr },
    pub ghost items: { List T },
}

impl<T> Model for StaticShare<T> {
    ghost also_owns = { λ f. slice_lent T.row f.ptr f.items [] };

    ghost also_shares = { λ f _ _. slice_lent T.row f.ptr f.items [] };
}

unsafe impl<T: Sync> Send for StaticShare<T> {}

unsafe impl<T: Sync> Sync for StaticShare<T> {}

impl<T: 'static> StaticShare<T> {
    /// Where a slice's items begin, and that they lie there for good.
    #[inline(always)]
    pub fn of(items: &'static [T]) -> (*const T, StaticShare<T>)
        ensures { (result.1.ptr ≡ result.0) × (result.1.items ≡ items.now) }
    {
        (items.as_ptr(), StaticShare { mark: PhantomData })
    }

    /// The items before `end`, for good. `base` is where they begin.
    #[inline(always)]
    fn prefix_static(&self, base: *const T, end: usize) -> &'static [T]
        requires { (base ≡ self.now.ptr) × (end ≤ length self.now.items) }
        ensures { result.now ≡ take end self.now.items }
    {
        unsafe { slice::from_raw_parts(base, end) }
    }

    /// The items from `start` to before `end`, for good. `base` is where all begin. It reads no
    /// memory.
    #[inline(always)]
    pub fn as_static(&self, base: *const T, start: usize, end: usize) -> &'static [T]
        requires place { base ≡ self.now.ptr }
        requires range { (start ≤ end) × (end ≤ length self.now.items) }
        ensures { result.now ≡ sub self.now.items start end }
    {
        &self.prefix_static(base, end)[start..]
    }
}

impl<T> StaticShare<T> {
    /// No items lie where a slice without items begins, for good, whatever its lifetime.
    #[inline(always)]
    fn of_none(none: &[T]) -> (*const T, StaticShare<T>)
        requires { none.now ≡ [] }
        ensures { (result.1.ptr ≡ result.0) × (result.1.items ≡ []) }
    {
        (none.as_ptr(), StaticShare { mark: PhantomData })
    }

    /// A copy of it, for the same items.
    #[inline(always)]
    pub fn again(&self) -> StaticShare<T>
        ensures { result ≡ self.now }
    {
        StaticShare { mark: PhantomData }
    }

    /// The items before `end`. `base` is where they begin.
    #[inline(always)]
    fn prefix(&self, base: *const T, end: usize) -> &[T]
        requires { (base ≡ self.now.ptr) × (end ≤ length self.now.items) }
        ensures { result.now ≡ take end self.now.items }
    {
        unsafe { slice::from_raw_parts(base, end) }
    }

    /// The items from `start` to before `end`. `base` is where all begin. It reads no memory.
    #[inline(always)]
    pub fn as_slice(&self, base: *const T, start: usize, end: usize) -> &[T]
        requires place { base ≡ self.now.ptr }
        requires range { (start ≤ end) × (end ≤ length self.now.items) }
        ensures { result.now ≡ sub self.now.items start end }
    {
        &self.prefix(base, end)[start..]
    }
}

/// Items that lie side by side for good, with the place where they begin. Contracts see the items.
///
/// It is one word, for a value that keeps a range itself, as `Parts` and `StaticSlice` do. A read
/// of a range is one sum and one difference, and reads no memory.
#[derive(Drop)]
pub struct StaticItems<T> {
    base: Base<T>,
    share: StaticShare<T>,
}

impl<T> Model for StaticItems<T> {
    ghost Value = { List T };

    ghost view = { λ s. s.share.items };

    ghost invariant = { λ s. s.base.at ≡ s.share.ptr };
}

impl<T> StaticItems<T> {
    /// No items.
    #[inline(always)]
    pub fn none() -> Self
        ensures { result ≡ [] }
    {
        let (at, share) = StaticShare::of_none(&[]);
        StaticItems {
            base: Base { at },
            share,
        }
    }

    /// The items from `start` to before `end`.
    #[inline(always)]
    pub fn range(&self, start: usize, end: usize) -> &[T]
        requires { (start ≤ end) × (end ≤ length self.now) }
        ensures { result.now ≡ sub self.now start end }
    {
        self.share.as_slice(self.base.at, start, end)
    }

    /// A copy of it, for the same items.
    #[inline(always)]
    pub fn again(&self) -> Self
        ensures { result ≡ self.now }
    {
        StaticItems {
            base: Base { at: self.base.at },
            share: self.share.again(),
        }
    }
}

/// A `'static` slice, without a lifetime in its type. It may lie in a vector or an enum, and go to
/// generic functions and other threads. Contracts see its items.
///
/// It is three words, a place and a range, whatever its items are. No call takes memory or copies
/// an item, and a drop does nothing.
#[derive(Drop)]
pub struct StaticSlice<T> {
    items: StaticItems<T>,
    start: usize,
    end: usize,
}

impl<T> Model for StaticSlice<T> {
    ghost Value = { List T };

    ghost view = { λ s. sub s.items s.start s.end };

    ghost invariant = { λ s. (s.start ≤ s.end) × (s.end ≤ length s.items) };
}

impl<T: 'static> StaticSlice<T> {
    /// The slice, without its lifetime.
    #[inline(always)]
    pub fn new(items: &'static [T]) -> Self
        ensures { result ≡ items.now }
    {
        let (at, share) = StaticShare::of(items);
        let base = Base { at };
        StaticSlice {
            items: StaticItems { base, share },
            start: 0,
            end: items.len(),
        }
    }

    /// The items as a `'static` slice, which lives on when this value is gone.
    #[inline(always)]
    pub fn as_static(&self) -> &'static [T]
        ensures { result.now ≡ self.now }
    {
        let StaticItems { base, share } = &self.items;
        share.as_static(base.at, self.start, self.end)
    }

    /// The items as a `'static` slice.
    #[inline(always)]
    pub fn into_static(self) -> &'static [T]
        ensures { result.now ≡ self }
    {
        self.as_static()
    }
}

impl<T> StaticSlice<T> {
    /// The items from `start` to before `end` of those.
    #[inline(always)]
    pub fn of_items(items: StaticItems<T>, start: usize, end: usize) -> Self
        requires { (start ≤ end) × (end ≤ length items) }
        ensures { result ≡ sub items start end }
    {
        StaticSlice { items, start, end }
    }

    /// The items among which those of the slice lie, and from where to before where these do.
    #[inline(always)]
    pub fn into_items(self) -> (StaticItems<T>, usize, usize)
        ensures range { (result.1 ≤ result.2) × (result.2 ≤ length result.0) }
        ensures items { self ≡ sub result.0 result.1 result.2 }
    {
        let StaticSlice { items, start, end } = self;
        (items, start, end)
    }

    /// No items.
    #[inline(always)]
    pub fn empty() -> Self
        ensures { result ≡ [] }
    {
        StaticSlice {
            items: StaticItems::none(),
            start: 0,
            end: 0,
        }
    }

    /// How many items there are.
    #[inline(always)]
    pub fn len(&self) -> usize
        ensures { result ≡ length self.now }
    {
        self.end - self.start
    }

    /// Whether there are no items.
    #[inline(always)]
    pub fn is_empty(&self) -> bool
        ensures { result ≡ (length self.now == 0) }
    {
        self.len() == 0
    }

    /// The items from `start` to before `end`. It reads no memory.
    #[inline(always)]
    pub fn range(&self, start: usize, end: usize) -> &[T]
        requires { (start ≤ end) × (end ≤ length self.now) }
        ensures { result.now ≡ sub self.now start end }
    {
        &self.as_slice()[..end][start..]
    }

    /// The items.
    #[inline(always)]
    pub fn as_slice(&self) -> &[T]
        ensures { result.now ≡ self.now }
    {
        self.items.range(self.start, self.end)
    }

    /// The items from `start` to before `end`.
    #[inline(always)]
    pub fn part(&self, start: usize, end: usize) -> Self
        requires { (start ≤ end) × (end ≤ length self.now) }
        ensures { result ≡ sub self.now start end }
    {
        StaticSlice {
            items: self.items.again(),
            start: self.start + start,
            end: self.start + end,
        }
    }

    /// A copy of it, for the same items.
    #[inline(always)]
    pub fn again(&self) -> Self
        ensures { result ≡ self.now }
    {
        StaticSlice {
            items: self.items.again(),
            start: self.start,
            end: self.end,
        }
    }
}
