//! A vector or a box as the plain one that it wraps.
ghost use Rattle.std.specs.Prelude.{◌≡◌};
ghost use Rattle.std.specs.Str.{IsUtf8};
ghost use Rattle.std.specs.String.{string_vec};
ghost use Rattle.std.specs.Box.{boxed_slice_items, boxed_str_bytes};
ghost use Rattle.bstr.specs.Owned.{bstring_bytes};

use bstr::BString;
use std::alloc::Allocator;
use std::boxed::{BoxedSlice, BoxedStr};

/// A vector or a box as the plain one that it wraps. A `String` wraps a vector of bytes, and a
/// `Vec` wraps itself. No call copies an item or takes memory. The clauses speak of whole values,
/// but of a `BString` and of a `BoxedStr` they tell the bytes only.
pub trait Wraps<V> {
    /// What it wraps.
    ghost wraps: { Self → V → Type 0 };

    /// Which values it may wrap.
    ghost may_wrap: { V → Type 0 };

    /// What it wraps, by value.
    fn into_inner(self) -> V
        ensures inner { wraps self result }
        ensures promise { may_wrap result };

    /// Wraps a value that it may wrap.
    fn from_inner(inner: V) -> Self
        requires { may_wrap inner }
        ensures { wraps result inner };
}

impl<T, A: Allocator> Wraps<Vec<T, A>> for Vec<T, A> {
    ghost wraps = { λ v inner. inner ≡ v };

    ghost may_wrap = { λ _. Unit {0} };

    fn into_inner(self) -> Vec<T, A> {
        self
    }

    fn from_inner(inner: Vec<T, A>) -> Vec<T, A>
        requires { Unit {0} }
        ensures { inner ≡ result }
    {
        inner
    }
}

impl<A: Allocator> Wraps<Vec<u8, A>> for String<A> {
    ghost wraps = { λ v inner. inner ≡ string_vec v };

    ghost may_wrap = { λ inner. IsUtf8 inner.items };

    fn into_inner(self) -> Vec<u8, A> {
        self.into_bytes()
    }

    fn from_inner(inner: Vec<u8, A>) -> String<A>
        requires { IsUtf8 inner.items }
        ensures { inner ≡ string_vec result }
    {
        unsafe { String::from_utf8_unchecked(inner) }
    }
}

impl Wraps<Vec<u8>> for BString {
    ghost wraps = { λ v inner. inner.items ≡ bstring_bytes v };

    ghost may_wrap = { λ _. Unit {0} };

    fn into_inner(self) -> Vec<u8> {
        self.into_vec()
    }

    fn from_inner(inner: Vec<u8>) -> BString
        requires { Unit {0} }
        ensures { inner.items ≡ bstring_bytes result }
    {
        BString::new(inner)
    }
}

impl<T, A: Allocator> Wraps<BoxedSlice<T, A>> for BoxedSlice<T, A> {
    ghost wraps = { λ v inner. inner ≡ v };

    ghost may_wrap = { λ _. Unit {0} };

    fn into_inner(self) -> BoxedSlice<T, A> {
        self
    }

    fn from_inner(inner: BoxedSlice<T, A>) -> BoxedSlice<T, A>
        requires { Unit {0} }
        ensures { inner ≡ result }
    {
        inner
    }
}

impl<A: Allocator> Wraps<BoxedSlice<u8, A>> for BoxedStr<A> {
    ghost wraps = { λ v inner. boxed_slice_items inner ≡ boxed_str_bytes v };

    ghost may_wrap = { λ inner. IsUtf8 (boxed_slice_items inner) };

    fn into_inner(self) -> BoxedSlice<u8, A> {
        self.into_boxed_bytes()
    }

    fn from_inner(inner: BoxedSlice<u8, A>) -> BoxedStr<A>
        requires { IsUtf8 (boxed_slice_items inner) }
        ensures { boxed_slice_items inner ≡ boxed_str_bytes result }
    {
        let text = unsafe { String::from_utf8_unchecked(inner.into_vec()) };
        text.into_boxed_str()
    }
}
