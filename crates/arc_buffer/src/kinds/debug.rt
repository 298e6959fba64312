//! Kinds whose lists have a `Debug` form.
ghost use Rattle.std.specs.Prelude.{ℕ, List, Option, Some};
ghost use Rattle.std.specs.Fmt.{DisplaysOnOk, debug_list, debug_str};
ghost use Rattle.arc_buffer.specs.Printed.{debug_bytes};
ghost use Rattle.bstr.specs.Show.{debug_text};

use super::{ByteText, Owned, Plain, Slice, Text};
use crate::print;
use bstr::BStr;
use std::{fmt, str};

/// Kinds whose lists have a `Debug` form. `Plain<u8>` has that of a byte string, `Plain` of other
/// items and `Owned` of all that of the language's list, `Text` that of its `str`, and `ByteText`
/// that of `bstr`.
pub trait DebugSlice: Slice {
    /// What `{:?}` writes of a list, where that is specified.
    ghost debug_items: { List Self.Item → Option (List ℕ) };

    /// Writes a legal list as `{:?}` does.
    ///
    /// # Errors
    ///
    /// The writer's, or that of an item's `Debug`.
    fn fmt_items<W: fmt::Write>(items: &[Self::Item], f: &mut fmt::Formatter<W>) -> fmt::Result
        requires legal { ∥ Self.is_legal items.now ∥₁ }
        ensures { DisplaysOnOk W.write_str_gives f.old result (debug_items items.now) f.new };
}

/// Items of `Plain` whose lists have a `Debug` form. Lists of `u8` have that of a byte string,
/// others that of the language's list.
pub trait DebugItem: fmt::Debug {
    /// What `{:?}` writes of a list of such items, where that is specified.
    ghost debug_plain: { List Self → Option (List ℕ) };

    /// Writes a list of such items as `{:?}` does.
    ///
    /// # Errors
    ///
    /// The writer's, or that of an item's `Debug`.
    fn fmt_plain<W: fmt::Write>(items: &[Self], f: &mut fmt::Formatter<W>) -> fmt::Result
    where
        Self: Sized,
        ensures { DisplaysOnOk W.write_str_gives f.old result (debug_plain items.now) f.new };
}

impl<T: Copy + Drop + DebugItem> DebugSlice for Plain<T> {
    ghost debug_items = { T.debug_plain };

    fn fmt_items<W: fmt::Write>(items: &[T], f: &mut fmt::Formatter<W>) -> fmt::Result {
        T::fmt_plain(items, f)
    }
}

impl<T: Drop + fmt::Debug> DebugSlice for Owned<T> {
    ghost debug_items = { debug_list T.debug_output };

    fn fmt_items<W: fmt::Write>(items: &[T], f: &mut fmt::Formatter<W>) -> fmt::Result {
        fmt::Debug::fmt(&items, f)
    }
}

impl DebugSlice for Text {
    ghost debug_items = { debug_str };

    fn fmt_items<W: fmt::Write>(items: &[u8], f: &mut fmt::Formatter<W>) -> fmt::Result {
        fmt::Debug::fmt(unsafe { str::from_utf8_unchecked(items) }, f)
    }
}

impl DebugSlice for ByteText {
    ghost debug_items = { debug_text };

    fn fmt_items<W: fmt::Write>(items: &[u8], f: &mut fmt::Formatter<W>) -> fmt::Result {
        fmt::Debug::fmt(&BStr::new(items), f)
    }
}

impl DebugItem for u8 {
    ghost debug_plain = { λ bytes. Some (debug_bytes bytes) };

    fn fmt_plain<W: fmt::Write>(items: &[u8], f: &mut fmt::Formatter<W>) -> fmt::Result {
        print::write_byte_string(items, f)
    }
}

impl DebugItem for u16 {
    ghost debug_plain = { debug_list Self.debug_output };

    fn fmt_plain<W: fmt::Write>(items: &[u16], f: &mut fmt::Formatter<W>) -> fmt::Result {
        fmt::Debug::fmt(&items, f)
    }
}

impl DebugItem for u32 {
    ghost debug_plain = { debug_list Self.debug_output };

    fn fmt_plain<W: fmt::Write>(items: &[u32], f: &mut fmt::Formatter<W>) -> fmt::Result {
        fmt::Debug::fmt(&items, f)
    }
}

impl DebugItem for u64 {
    ghost debug_plain = { debug_list Self.debug_output };

    fn fmt_plain<W: fmt::Write>(items: &[u64], f: &mut fmt::Formatter<W>) -> fmt::Result {
        fmt::Debug::fmt(&items, f)
    }
}

impl DebugItem for u128 {
    ghost debug_plain = { debug_list Self.debug_output };

    fn fmt_plain<W: fmt::Write>(items: &[u128], f: &mut fmt::Formatter<W>) -> fmt::Result {
        fmt::Debug::fmt(&items, f)
    }
}

impl DebugItem for usize {
    ghost debug_plain = { debug_list Self.debug_output };

    fn fmt_plain<W: fmt::Write>(items: &[usize], f: &mut fmt::Formatter<W>) -> fmt::Result {
        fmt::Debug::fmt(&items, f)
    }
}

impl DebugItem for i8 {
    ghost debug_plain = { debug_list Self.debug_output };

    fn fmt_plain<W: fmt::Write>(items: &[i8], f: &mut fmt::Formatter<W>) -> fmt::Result {
        fmt::Debug::fmt(&items, f)
    }
}

impl DebugItem for i16 {
    ghost debug_plain = { debug_list Self.debug_output };

    fn fmt_plain<W: fmt::Write>(items: &[i16], f: &mut fmt::Formatter<W>) -> fmt::Result {
        fmt::Debug::fmt(&items, f)
    }
}

impl DebugItem for i32 {
    ghost debug_plain = { debug_list Self.debug_output };

    fn fmt_plain<W: fmt::Write>(items: &[i32], f: &mut fmt::Formatter<W>) -> fmt::Result {
        fmt::Debug::fmt(&items, f)
    }
}

impl DebugItem for i64 {
    ghost debug_plain = { debug_list Self.debug_output };

    fn fmt_plain<W: fmt::Write>(items: &[i64], f: &mut fmt::Formatter<W>) -> fmt::Result {
        fmt::Debug::fmt(&items, f)
    }
}

impl DebugItem for i128 {
    ghost debug_plain = { debug_list Self.debug_output };

    fn fmt_plain<W: fmt::Write>(items: &[i128], f: &mut fmt::Formatter<W>) -> fmt::Result {
        fmt::Debug::fmt(&items, f)
    }
}

impl DebugItem for isize {
    ghost debug_plain = { debug_list Self.debug_output };

    fn fmt_plain<W: fmt::Write>(items: &[isize], f: &mut fmt::Formatter<W>) -> fmt::Result {
        fmt::Debug::fmt(&items, f)
    }
}

impl DebugItem for bool {
    ghost debug_plain = { debug_list Self.debug_output };

    fn fmt_plain<W: fmt::Write>(items: &[bool], f: &mut fmt::Formatter<W>) -> fmt::Result {
        fmt::Debug::fmt(&items, f)
    }
}

impl DebugItem for char {
    ghost debug_plain = { debug_list Self.debug_output };

    fn fmt_plain<W: fmt::Write>(items: &[char], f: &mut fmt::Formatter<W>) -> fmt::Result {
        fmt::Debug::fmt(&items, f)
    }
}

impl DebugItem for f32 {
    ghost debug_plain = { debug_list Self.debug_output };

    fn fmt_plain<W: fmt::Write>(items: &[f32], f: &mut fmt::Formatter<W>) -> fmt::Result {
        fmt::Debug::fmt(&items, f)
    }
}

impl DebugItem for f64 {
    ghost debug_plain = { debug_list Self.debug_output };

    fn fmt_plain<W: fmt::Write>(items: &[f64], f: &mut fmt::Formatter<W>) -> fmt::Result {
        fmt::Debug::fmt(&items, f)
    }
}

impl<T: fmt::Debug> DebugItem for Option<T> {
    ghost debug_plain = { debug_list Self.debug_output };

    fn fmt_plain<W: fmt::Write>(items: &[Option<T>], f: &mut fmt::Formatter<W>) -> fmt::Result {
        fmt::Debug::fmt(&items, f)
    }
}

impl<T: fmt::Debug, const N: usize> DebugItem for [T; N] {
    ghost debug_plain = { debug_list Self.debug_output };

    fn fmt_plain<W: fmt::Write>(items: &[[T; N]], f: &mut fmt::Formatter<W>) -> fmt::Result {
        fmt::Debug::fmt(&items, f)
    }
}

impl<T: fmt::Debug> DebugItem for &T {
    ghost debug_plain = { debug_list Self.debug_output };

    fn fmt_plain<W: fmt::Write>(items: &[&T], f: &mut fmt::Formatter<W>) -> fmt::Result {
        fmt::Debug::fmt(&items, f)
    }
}

impl DebugItem for &str {
    ghost debug_plain = { debug_list Self.debug_output };

    fn fmt_plain<W: fmt::Write>(items: &[&str], f: &mut fmt::Formatter<W>) -> fmt::Result {
        fmt::Debug::fmt(&items, f)
    }
}

impl<T: fmt::Debug, U: fmt::Debug> DebugItem for (T, U) {
    ghost debug_plain = { debug_list Self.debug_output };

    fn fmt_plain<W: fmt::Write>(items: &[(T, U)], f: &mut fmt::Formatter<W>) -> fmt::Result {
        fmt::Debug::fmt(&items, f)
    }
}
