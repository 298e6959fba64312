//! Comparisons of lists: the first pair of items that differ decides, and else the lengths do.
ghost use Rattle.std.specs.Prelude.{◌≡◌};
ghost use Rattle.std.specs.Cmp.Lexicographic.{pointwise, slice_cmp, slice_partial_cmp};

use std::cmp::Ordering;

// Each takes both slices for one lifetime, as the comparisons of references do.
/// Whether the lists are equal.
pub fn equal<'a, T: PartialEq>(a: &'a [T], b: &'a [T]) -> bool
    ensures { result ≡ pointwise T.eq a.now b.now }
{
    PartialEq::eq(&a, &b)
}

/// The partial order of the lists.
pub fn partial_order<'a, T: PartialOrd>(a: &'a [T], b: &'a [T]) -> Option<Ordering>
    ensures { result ≡ slice_partial_cmp T.partial_cmp a.now b.now }
{
    a.partial_cmp(&b)
}

/// The order of the lists.
pub fn order<'a, T: Ord>(a: &'a [T], b: &'a [T]) -> Ordering
    ensures { result ≡ slice_cmp T.cmp a.now b.now }
{
    a.cmp(&b)
}
