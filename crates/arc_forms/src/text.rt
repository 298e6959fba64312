//! Writes the replies to lines.
ghost use Rattle.std.specs.Prelude.{◌≡◌, ◌++◌, ◌<◌, ◌*◌, ℕ, List, Some, None};
ghost use Rattle.std.specs.Prelude.{codes, decimal, length, OnErr, OnOk};
ghost use Rattle.arc_forms.specs.Text.{hex, hex_digit, items_word, owner_text, range_text};
ghost use Rattle.arc_forms.specs.Text.{reply_text, reserve_text};
ghost use Rattle.arc_forms.specs.Seen.{line_reply};
ghost use Rattle.arc_forms.specs.Writing.{Extends, answer_line};

use arc_block::static_slice::StaticSlice;
use arc_commands::command::{Gives, Reply};
use arc_owners::error::{AllocError, OwnerError, RangeError, TryReserveError};
use itoa::Buffer;
use std::alloc::Allocator;
use std::boxed::BoxedSlice;
use std::convert::AsSlice;
use std::sync::Arc;

/// A reply of a table of bytes. X holds the items that are shown.
pub type ByteReply<X, A> = Reply<
    Gives<X, Vec<u8, A>, BoxedSlice<u8, A>, Vec<u8, A>, Arc<Vec<u8, A>, A>, StaticSlice<u8>, u64>,
>;

/// The hex digit of a number below 16.
pub fn digit_of(number: u8) -> u8
    requires { number < 16 }
    ensures { result ≡ hex_digit number }
{
    if number < 10 {
        b'0' + number
    } else {
        b'a' + (number - 10)
    }
}

/// A range error in words.
fn range_words(error: RangeError) -> &'static [u8]
    ensures { result.now ≡ range_text error }
{
    match error {
        RangeError::OutOfRange => b"out of range",
        RangeError::InvalidRange => b"invalid range",
        RangeError::NotBoundary => b"not a char boundary",
    }
}

/// An owner error in words.
fn owner_words(error: OwnerError) -> &'static [u8]
    ensures { result.now ≡ owner_text error }
{
    match error {
        OwnerError::AllocError => b"allocation error",
        OwnerError::CountFull => b"count full",
    }
}

/// An error of making room in words.
fn reserve_words(error: TryReserveError) -> &'static [u8]
    ensures { result.now ≡ reserve_text error }
{
    match error {
        TryReserveError::NotUnique => b"not unique",
        TryReserveError::Unsupported => b"unsupported",
        TryReserveError::AllocError => b"allocation error",
        TryReserveError::CapacityOverflow => b"capacity overflow",
    }
}

/// Appends words.
#[inline(always)]
fn push_words<A: Allocator>(out: &mut Vec<u8, A>, words: &[u8]) -> Result<(), AllocError>
    ensures ok { OnOk result (out.new.items ≡ out.old.items ++ words.now) }
    ensures err { OnErr result (Extends out.old.items out.new.items) }
{
    match out.extend_from_slice(words) {
        Ok(()) => Ok(()),
        Err(error) => Err(error.into()),
    }
}

/// Appends words, or nothing where memory for them is refused.
#[inline(always)]
fn push_whole<A: Allocator>(out: &mut Vec<u8, A>, words: &[u8]) -> Result<(), AllocError>
    ensures ok { OnOk result (out.new.items ≡ out.old.items ++ words.now) }
    ensures err { OnErr result (out.new.items ≡ out.old.items) }
{
    let len = out.len();
    let pushed = push_words(out, words);
    if pushed.is_err() {
        out.truncate(len);
    }
    pushed
}

/// Appends a number in decimal.
fn push_number<A: Allocator>(out: &mut Vec<u8, A>, number: u64) -> Result<(), AllocError>
    ensures ok { OnOk result (out.new.items ≡ out.old.items ++ decimal number) }
    ensures err { OnErr result (Extends out.old.items out.new.items) }
{
    push_words(out, Buffer::new().format(number).as_bytes())
}

/// Appends the number of a window.
fn push_window<A: Allocator>(out: &mut Vec<u8, A>, number: usize) -> Result<(), AllocError>
    ensures ok { OnOk result (out.new.items ≡ out.old.items ++ codes "h" ++ decimal number) }
    ensures err { OnErr result (Extends out.old.items out.new.items) }
{
    match push_words(out, b"h") {
        Ok(()) => push_number(out, number as u64),
        Err(error) => Err(error),
    }
}

/// Writes two hex digits an item.
fn write_hex(items: &[u8], out: &mut [u8])
    requires { length out.old ≡ 2 * length items.now }
    ensures { out.new ≡ hex items.now }
{
    'items: for i in 0..items.len() {
        let item = items[i];
        out[2 * i] = digit_of(item / 16);
        out[2 * i + 1] = digit_of(item % 16);
    }
}

/// Appends two hex digits an item. Room for all of them is asked for at once.
fn push_hex<A: Allocator>(out: &mut Vec<u8, A>, items: &[u8]) -> Result<(), AllocError>
    ensures ok { OnOk result (out.new.items ≡ out.old.items ++ hex items.now) }
    ensures err { OnErr result (Extends out.old.items out.new.items) }
{
    let len = out.len();
    out.reserve(2 * items.len())?;
    out.resize(len + 2 * items.len(), 0)?;
    write_hex(items, &mut out[len..]);
    Ok(())
}

/// Appends items as a word: a dash where there are none.
fn push_items<A: Allocator>(out: &mut Vec<u8, A>, items: &[u8]) -> Result<(), AllocError>
    ensures ok { OnOk result (out.new.items ≡ out.old.items ++ items_word items.now) }
    ensures err { OnErr result (Extends out.old.items out.new.items) }
{
    if items.is_empty() {
        return push_words(out, b"-");
    }
    push_hex(out, items)
}

/// Appends the number of a window, and a line feed, or nothing where memory for them is refused.
fn push_window_line<A: Allocator>(out: &mut Vec<u8, A>, number: usize) -> Result<(), AllocError>
    ensures ok { OnOk result
        (out.new.items ≡ out.old.items ++ (codes "h" ++ decimal number) ++ codes "\n") }
    ensures err { OnErr result (out.new.items ≡ out.old.items) }
{
    let len = out.len();
    let mut buffer = Buffer::new();
    let digits = buffer.format(number as u64).as_bytes();
    out.reserve(digits.len() + 2)?;
    out.push_reserved(b'h');
    if out.extend_from_slice(digits).is_err() {
        out.truncate(len);
        return Err(AllocError);
    }
    out.push_reserved(b'\n');
    Ok(())
}

/// Appends `ok` and a line feed, or nothing where memory for that is refused.
#[inline(always)]
fn push_ok<A: Allocator>(out: &mut Vec<u8, A>) -> Result<(), AllocError>
    ensures ok { OnOk result (out.new.items ≡ out.old.items ++ codes "ok\n") }
    ensures err { OnErr result (out.new.items ≡ out.old.items) }
{
    out.reserve(3)?;
    out.push_reserved(b'o');
    out.push_reserved(b'k');
    out.push_reserved(b'\n');
    Ok(())
}

/// Appends `yes` and a line feed, or nothing where memory for that is refused.
#[inline(always)]
fn push_yes<A: Allocator>(out: &mut Vec<u8, A>) -> Result<(), AllocError>
    ensures ok { OnOk result (out.new.items ≡ out.old.items ++ codes "yes\n") }
    ensures err { OnErr result (out.new.items ≡ out.old.items) }
{
    out.reserve(4)?;
    out.push_reserved(b'y');
    out.push_reserved(b'e');
    out.push_reserved(b's');
    out.push_reserved(b'\n');
    Ok(())
}

/// Appends items as a word, and a line feed, or nothing where memory for them is refused.
fn push_items_line<A: Allocator>(out: &mut Vec<u8, A>, items: &[u8]) -> Result<(), AllocError>
    ensures ok { OnOk result
        (out.new.items ≡ out.old.items ++ items_word items.now ++ codes "\n") }
    ensures err { OnErr result (out.new.items ≡ out.old.items) }
{
    let len = out.len();
    let pushed = match push_items(out, items) {
        Ok(()) => push_words(out, b"\n"),
        Err(error) => Err(error),
    };
    if pushed.is_err() {
        out.truncate(len);
    }
    pushed
}

/// Appends the text of a reply. An `Err` may leave a part of it.
fn push_reply<A: Allocator, X: AsSlice<u8>>(
    out: &mut Vec<u8, A>,
    reply: &ByteReply<X, A>,
) -> Result<(), AllocError>
    ensures ok { OnOk result
        (out.new.items ≡ out.old.items ++ reply_text (line_reply X.items reply.now)) }
    ensures err { OnErr result (Extends out.old.items out.new.items) }
{
    let words: &[u8] = match reply {
        Reply::New(number) => return push_window(out, *number),
        Reply::Items(items) => return push_items(out, items.as_slice()),
        Reply::Vec(items) => return push_items(out, items.as_slice()),
        Reply::Boxed(items) => return push_items(out, items.as_slice()),
        Reply::Buffer(items) => return push_items(out, items.as_slice()),
        Reply::Raw(shared) => return push_items(out, shared.as_slice()),
        Reply::Static(items) => return push_items(out, items.as_slice()),
        Reply::Meta(metadata) => return push_number(out, *metadata),
        Reply::Number(number) => return push_number(out, *number as u64),
        Reply::Ok => return push_words(out, b"ok"),
        Reply::Yes => b"yes",
        Reply::No => b"no",
        Reply::None => b"none",
        Reply::NoWindow => b"no window",
        Reply::Kind => b"kind",
        Reply::Refused => b"refused",
        Reply::Range(error) => range_words(*error),
        Reply::Owner(error) => owner_words(*error),
        Reply::Reserve(error) => reserve_words(*error),
        Reply::Alloc => b"allocation error",
    };
    push_words(out, words)
}

/// Appends the text of a reply, and a line feed. An `Err` may leave a part of it.
fn push_line<A: Allocator, X: AsSlice<u8>>(
    out: &mut Vec<u8, A>,
    reply: &ByteReply<X, A>,
) -> Result<(), AllocError>
    ensures ok { OnOk result
        (out.new.items ≡ out.old.items ++ answer_line (Some (line_reply X.items reply.now))) }
    ensures err { OnErr result (Extends out.old.items out.new.items) }
{
    match push_reply(out, reply) {
        Ok(()) => push_words(out, b"\n"),
        Err(error) => Err(error),
    }
}

/// Appends the reply to a line that says a command: its text (`answer_text` in `specs/`), and a
/// line feed. An item takes two bytes.
///
/// # Errors
///
/// `AllocError` where memory for more room is refused; `out` then has the bytes that it had.
///
/// # Allocates
///
/// Where `out` has too little room.
#[inline(always)]
pub fn push_answer<A: Allocator, X: AsSlice<u8>>(
    out: &mut Vec<u8, A>,
    reply: &ByteReply<X, A>,
) -> Result<(), AllocError>
    ensures ok { OnOk result
        (out.new.items ≡ out.old.items ++ answer_line (Some (line_reply X.items reply.now))) }
    ensures err { OnErr result (out.new.items ≡ out.old.items) }
{
    match reply {
        Reply::Ok => push_ok(out),
        Reply::Yes => push_yes(out),
        Reply::No => push_whole(out, b"no\n"),
        Reply::New(number) => push_window_line(out, *number),
        Reply::Items(items) => push_items_line(out, items.as_slice()),
        reply => push_any(out, reply),
    }
}

/// Appends the text of any reply, and a line feed. `Err` where memory for that is refused, and
/// `out` then has the bytes that it had.
#[inline(never)]
fn push_any<A: Allocator, X: AsSlice<u8>>(
    out: &mut Vec<u8, A>,
    reply: &ByteReply<X, A>,
) -> Result<(), AllocError>
    ensures ok { OnOk result
        (out.new.items ≡ out.old.items ++ answer_line (Some (line_reply X.items reply.now))) }
    ensures err { OnErr result (out.new.items ≡ out.old.items) }
{
    let len = out.len();
    let pushed = push_line(out, reply);
    if pushed.is_err() {
        out.truncate(len);
    }
    pushed
}

/// Appends the reply to a line that says no command: `bad line`, and a line feed.
///
/// # Errors
///
/// `AllocError` where memory for more room is refused; `out` then has the bytes that it had.
///
/// # Allocates
///
/// Where `out` has too little room.
pub fn push_bad_line<A: Allocator>(out: &mut Vec<u8, A>) -> Result<(), AllocError>
    ensures ok { OnOk result
        (out.new.items ≡ out.old.items ++ answer_line None) }
    ensures err { OnErr result (out.new.items ≡ out.old.items) }
{
    push_whole(out, b"bad line\n")
}
