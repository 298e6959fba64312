//! Text: bytes that are always valid UTF-8.
ghost use Rattle.std.specs.Prelude.{◌≡◌, false, drop, refl};
ghost use Rattle.std.specs.Str.{IsUtf8, valid_up_to, error_len};
ghost use Rattle.std.specs.Str.Lossy.{utf8_valid_len, utf8_error_len};
ghost use Rattle.std.proofs.lemmas.Str.{IsUtf8-nil, IsUtf8-append};
ghost use Rattle.arc_buffer.specs.Text.{is_between_characters, CutsIntoTexts};
ghost use Rattle.arc_buffer.specs.Laws.{text_ends, text_ranges, text_parts, zeros_are_text};

use super::{Concatenable, Emptyable, Shareable, Slice, Subsliceable, Zeroable};
use std::str;
use std::str::Utf8Error;

/// Text: a list of bytes is legal where it is valid UTF-8, and may be cut between characters.
#[derive(Clone, Copy, Debug, PartialEq, Eq)]
pub struct Text;

impl Slice for Text {
    type Item = u8;

    type TryFromSliceError = Utf8Error;

    ghost DROPS = { false };

    const DROPS: bool = false;

    ghost is_legal = { IsUtf8 };

    ghost is_refused = { λ bytes e. (valid_up_to e ≡ utf8_valid_len bytes)
        × (error_len e ≡ utf8_error_len (drop (valid_up_to e) bytes)) };

    fn try_from_slice(items: &[u8]) -> Result<(), Utf8Error> {
        match str::from_utf8(items) {
            Ok(_) => Ok(()),
            Err(e) => Err(e),
        }
    }
}

impl Emptyable for Text {
    ghost empty_is_legal = { IsUtf8-nil };
}

impl Subsliceable for Text {
    ghost boundary = { is_between_characters };

    fn is_boundary(items: &[u8], at: usize) -> bool {
        at == 0 || at == items.len() || !matches!(items[at], 0x80..=0xbf)
    }

    ghost ends_are_edges = { text_ends };

    ghost range_edges = { text_ranges };

    ghost range_is_legal = { text_parts };
}

impl Concatenable for Text {
    ghost both_are_legal = { IsUtf8-append };
}

impl Shareable for Text {
    ghost drops_none = { refl };
}

impl Zeroable for Text {
    ghost zero_item = { 0 };

    fn zero() -> u8 {
        0
    }

    ghost zeros_are_legal = { zeros_are_text };
}

/// A text may be cut exactly where both parts are text. Does nothing: its contract is the law.
pub fn cuts_into_texts()
    ensures { CutsIntoTexts }
{}
