//! An example: a line is cut at a separator into two windows on the line's block. The proofs of its
//! contract and of those of the functions below are found by search.
ghost use Rattle.std.specs.Prelude.{◌≡◌, ◌<◌, ◌++◌, ◌∷◌, [], length, IfOk, slice_index_or};

use arc_slice::error::OwnerError;
use arc_slice::{ArcBytes, ArcStr};
use std::sync::Wait;

/// What is in front of the byte at `at`, and what is behind it.
pub fn cut_at(
    rt: &impl Wait,
    line: &ArcBytes,
    at: usize,
) -> Result<(ArcBytes, ArcBytes), OwnerError>
    requires { at < length line.now.items }
    ensures { IfOk result (λ words. line.now.items
        ≡ words.0.items ++ slice_index_or line.now.items at 0 ∷ words.1.items) }
{
    let front = line.try_subslice(rt, 0, at)?;
    let back = line.try_subslice(rt, at + 1, line.len())?;
    Ok((front, back))
}

/// Takes all of the text, and leaves it empty.
pub fn take_all(rt: &impl Wait, text: &mut ArcStr) -> Result<ArcStr, OwnerError>
    ensures { IfOk result (λ all. (all.items ≡ text.old.items) × (text.new.items ≡ [])) }
{
    text.try_split_off(rt, 0)
}
