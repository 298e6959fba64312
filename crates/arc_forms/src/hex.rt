//! The hex digits of a line, and the items that they say.
ghost use Rattle.std.specs.Prelude.{◌≡◌, ◌<◌, IfOk, IsTrue};
ghost use Rattle.std.specs.Option.{option_map};
ghost use Rattle.std.specs.Char.{digit_value};
ghost use Rattle.std.specs.List.{list_all};
ghost use Rattle.arc_forms.specs.Reading.{byte_of, is_hex_digit, items_of, pairs};

use arc_owners::error::AllocError;
use std::alloc::Allocator;

/// Hex digits, which say items: two digits an item.
#[derive(Clone, Copy)]
pub(crate) struct Hex<'a> {
    pub(crate) digits: &'a [u8],
    ghost are_digits: { IsTrue (list_all is_hex_digit digits.now) },
}

/// Whether a byte is a hex digit. Only lower case is.
fn is_digit(byte: u8) -> bool
    ensures { result ≡ is_hex_digit byte }
{
    ((b'0' <= byte) & (byte <= b'9')) | ((b'a' <= byte) & (byte <= b'f'))
}

/// Whether each byte is a hex digit.
#[inline(always)]
fn are_digits(word: &[u8]) -> bool
    ensures { result ≡ list_all is_hex_digit word.now }
{
    // Each byte is tested, whatever the test before says, so that many are tested at once.
    let mut all = true;
    for byte in word {
        all = all & is_digit(*byte);
    }
    all
}

/// The value of a hex digit.
fn value_of(digit: u8) -> u8
    requires { IsTrue (is_hex_digit digit) }
    ensures value { result ≡ digit_value digit }
    ensures small { result < 16 }
{
    let nought = if digit < b'a' { b'0' } else { b'a' - 10 };
    digit - nought
}

/// The byte that a word says, in two digits.
#[inline(always)]
pub(crate) fn byte_in(word: &[u8]) -> Option<u8>
    ensures { result ≡ byte_of word.now }
{
    let [high, low] = word else {
        return None;
    };
    if !are_digits(word) {
        return None;
    }
    Some(16 * value_of(*high) + value_of(*low))
}

/// The digits of the items that a word says.
#[inline(always)]
pub(crate) fn digits_in(word: &[u8]) -> Option<Hex<'_>>
    ensures { option_map (λ hex. pairs hex.digits.now) result ≡ items_of word.now }
{
    // A dash means no items. It is looked for where the length is odd, as no word of digits is.
    if word.len() % 2 != 0 {
        if word == b"-".as_slice() {
            return Some(Hex { digits: &[] });
        }
        return None;
    }
    if word.is_empty() || !are_digits(word) {
        return None;
    }
    Some(Hex { digits: word })
}

/// The items that the digits say, in a vector of their length.
#[inline(always)]
pub(crate) fn decoded<A: Allocator>(alloc: A, hex: Hex) -> Result<Vec<u8, A>, AllocError>
    ensures { IfOk result (λ v. v.items ≡ pairs hex.entry.digits.now) }
{
    let mut rest = hex.digits;
    let mut items = Vec::with_capacity(alloc, rest.len() / 2)?;
    while let [high, low, behind @ ..] = rest {
        items.push_reserved(16 * value_of(*high) + value_of(*low));
        rest = behind;
    }
    Ok(items)
}
