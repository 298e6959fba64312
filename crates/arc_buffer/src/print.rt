//! How bytes are printed: as a byte string, and in hexadecimal digits.
ghost use Rattle.std.specs.Prelude.{◌≡◌, ◌<◌, Bool, flat_map};
ghost use Rattle.std.specs.Fmt.{WritesOnOk, digit_glyph};
ghost use Rattle.arc_buffer.specs.Printed.{debug_byte, debug_bytes, hex_byte, hex_bytes};

use std::{fmt, str};

/// Writes the bytes as a byte string, `b"..."`. A tab, a line feed, a carriage return, both quotes
/// and the backslash are written by their escapes. Other printable ASCII is written as it is. Any
/// other byte is `\x` and two lower case hexadecimal digits.
///
/// # Errors
///
/// The writer's.
pub fn write_byte_string<W: fmt::Write>(bytes: &[u8], f: &mut fmt::Formatter<W>) -> fmt::Result
    ensures { WritesOnOk W.write_str_gives f.old result (debug_bytes bytes.now) f.new }
{
    f.write_str("b\"")?;
    write_between_quotes(bytes, f)?;
    f.write_str("\"")
}

/// Writes two hexadecimal digits for each byte, with letters in upper case where `upper`.
///
/// # Errors
///
/// The writer's.
pub fn write_hex<W: fmt::Write>(bytes: &[u8], upper: bool, f: &mut fmt::Formatter<W>) -> fmt::Result
    ensures { WritesOnOk W.write_str_gives f.old result (hex_bytes upper bytes.now) f.new }
{
    for &byte in bytes {
        write_hex_byte(byte, upper, f)?;
    }
    Ok(())
}

fn write_between_quotes<W: fmt::Write>(bytes: &[u8], f: &mut fmt::Formatter<W>) -> fmt::Result
    ensures { WritesOnOk W.write_str_gives f.old result (flat_map debug_byte bytes.now) f.new }
{
    for &byte in bytes {
        write_debug_byte(byte, f)?;
    }
    Ok(())
}

fn write_debug_byte<W: fmt::Write>(byte: u8, f: &mut fmt::Formatter<W>) -> fmt::Result
    ensures { WritesOnOk W.write_str_gives f.old result (debug_byte byte) f.new }
{
    match byte {
        b'\t' => f.write_str("\\t"),
        b'\n' => f.write_str("\\n"),
        b'\r' => f.write_str("\\r"),
        b'"' => f.write_str("\\\""),
        b'\'' => f.write_str("\\'"),
        b'\\' => f.write_str("\\\\"),
        b' '..=b'~' => f.write_char(char::from(byte)),
        _ => {
            f.write_str("\\x")?;
            write_hex_byte(byte, false, f)
        }
    }
}

#[tactic(auto, using(crate::proofs::Printed::two_are_text))]
fn write_hex_byte<W: fmt::Write>(byte: u8, upper: bool, f: &mut fmt::Formatter<W>) -> fmt::Result
    ensures { WritesOnOk W.write_str_gives f.old result (hex_byte upper byte) f.new }
{
    let digits = [hex_digit(byte / 16, upper), hex_digit(byte % 16, upper)];
    f.write_str(unsafe { str::from_utf8_unchecked(&digits) })
}

fn hex_digit(value: u8, upper: bool) -> u8
    requires { value < 16 }
    ensures digit { result ≡ digit_glyph upper value }
    ensures ascii { result < 128 }
{
    if value < 10 {
        b'0' + value
    } else if upper {
        b'A' - 10 + value
    } else {
        b'a' - 10 + value
    }
}
