//! What std and the kit's crates do with windows of every sort: they compare, hash, print, lend,
//! read and write.
use arc_slice::buffer::Plain;
use arc_slice::inlined::{SmallArcBytes, SmallArcStr, SmallBytes, SmallStr};
use arc_slice::layout::DefaultLayoutMut;
use arc_slice::role::{CopyWriterParts, RoleOf};
use arc_slice::{
    ArcByteText, ArcBytes, ArcBytesMut, ArcBytesShared, ArcStr, ArcStrMut, ArcStrShared, Open,
    WriteWindow,
};
use bytes::{Buf, BufMut};
use std::alloc::Global;
use std::cmp::Ordering;
use std::convert::{AsSlice, AsStr};
use std::fmt::{self, Debug, Display, LowerHex, UpperHex};
use std::hash::{DefaultHasher, Hash};
use std::io::{Read, Write};

/// Whether two windows of each sort have equal bytes.
pub fn equal(
    readers: (&ArcBytes, &ArcBytes),
    writers: (&ArcBytesMut, &ArcBytesMut),
    several: (&ArcBytesShared, &ArcBytesShared),
    small: (&SmallArcBytes, &SmallArcBytes),
    short: (&SmallBytes, &SmallBytes),
) -> [bool; 5] {
    [
        readers.0 == readers.1,
        writers.0 == writers.1,
        several.0 == several.1,
        small.0 == small.1,
        short.0 == short.1,
    ]
}

/// How two windows of each sort compare.
pub fn ordered(
    readers: (&ArcBytes, &ArcBytes),
    writers: (&ArcBytesMut, &ArcBytesMut),
    small: (&SmallArcBytes, &SmallArcBytes),
    short: (&SmallBytes, &SmallBytes),
) -> ([Ordering; 2], [Option<Ordering>; 2]) {
    (
        [readers.0.cmp(readers.1), short.0.cmp(short.1)],
        [
            writers.0.partial_cmp(writers.1),
            small.0.partial_cmp(small.1),
        ],
    )
}

/// The hashes of windows of each sort.
pub fn hashed(
    state: &mut DefaultHasher,
    reader: &ArcBytes,
    writer: &ArcBytesMut,
    small: &SmallArcBytes,
    short: &SmallBytes,
) {
    reader.hash(state);
    writer.hash(state);
    small.hash(state);
    short.hash(state);
}

/// Whether windows of each sort have exactly these bytes.
pub fn have_bytes(
    reader: &ArcBytes,
    writer: &ArcBytesMut,
    several: &ArcBytesShared,
    short: &SmallBytes,
    small: &SmallArcBytes,
    bytes: &[u8],
) -> [bool; 5] {
    [
        reader.eq_slice(bytes),
        writer.eq_slice(bytes),
        several.eq_slice(bytes),
        short.eq_slice(bytes),
        small.eq_slice(bytes),
    ]
}

/// Whether windows of each sort have exactly this text.
pub fn have_text(
    reader: &ArcStr,
    writer: &ArcStrMut,
    several: &ArcStrShared,
    short: &SmallStr,
    small: &SmallArcStr,
    text: &str,
) -> [bool; 5] {
    [
        reader.eq_str(text),
        writer.eq_str(text),
        several.eq_str(text),
        short.eq_str(text),
        small.eq_str(text),
    ]
}

/// Prints windows of each sort, one behind the other: their bytes as `{:?}` does, and in digits.
pub fn printed<W: fmt::Write>(
    f: &mut fmt::Formatter<W>,
    reader: &ArcBytes,
    writer: &ArcBytesMut,
    short: &SmallBytes,
    small: &SmallArcBytes,
) -> [bool; 6] {
    [
        Debug::fmt(reader, f).is_ok(),
        Debug::fmt(writer, f).is_ok(),
        Debug::fmt(short, f).is_ok(),
        Debug::fmt(small, f).is_ok(),
        LowerHex::fmt(reader, f).is_ok(),
        UpperHex::fmt(writer, f).is_ok(),
    ]
}

/// Shows texts and byte text of each sort as `{}` does.
pub fn shown<W: fmt::Write>(
    f: &mut fmt::Formatter<W>,
    reader: &ArcStr,
    writer: &ArcStrMut,
    short: &SmallStr,
    small: &SmallArcStr,
    bytes: &ArcByteText,
) -> [bool; 5] {
    [
        Display::fmt(reader, f).is_ok(),
        Display::fmt(writer, f).is_ok(),
        Display::fmt(short, f).is_ok(),
        Display::fmt(small, f).is_ok(),
        Display::fmt(bytes, f).is_ok(),
    ]
}

/// Reads from windows of each sort into one buffer, which then has what the last one had.
pub fn read(
    reader: &mut ArcBytes,
    writer: &mut ArcBytesMut,
    short: &mut SmallBytes,
    small: &mut SmallArcBytes,
    places: &mut [u8],
) -> [bool; 4] {
    [
        reader.read(places).is_ok(),
        writer.read(places).is_ok(),
        short.read(places).is_ok(),
        small.read(places).is_ok(),
    ]
}

/// Moves the bytes of a writer, of a small window and of a short list behind those of a vector.
/// Each read that gets no memory leaves its bytes where they are.
pub fn read_out(
    writer: &mut ArcBytesMut,
    small: &mut SmallArcBytes,
    short: &mut SmallBytes,
    bytes: &mut Vec<u8>,
) -> [bool; 3] {
    [
        writer.read_to_end(bytes).is_ok(),
        small.read_to_end(bytes).is_ok(),
        short.read_to_end(bytes).is_ok(),
    ]
}

/// The first byte that is left, if there is one.
pub fn first<R: Buf>(window: &mut R) -> Option<u8> {
    if window.remaining() < 1 {
        return None;
    }
    Some(window.get_u8())
}

/// The first byte that is left of windows of each sort.
pub fn firsts(
    reader: &mut ArcBytes,
    writer: &mut ArcBytesMut,
    several: &mut ArcBytesShared,
    short: &mut SmallBytes,
    small: &mut SmallArcBytes,
) -> [Option<u8>; 5] {
    [
        first(reader),
        first(writer),
        first(several),
        first(short),
        first(small),
    ]
}

/// Appends to a writer: as many of the bytes as there are places for; then a byte and the bytes
/// again, if there are places for them; then a text, for which room is made.
pub fn written(writer: &mut ArcBytesMut, bytes: &[u8], text: &str) -> ([bool; 4], usize) {
    let done = [
        writer.write(bytes).is_ok(),
        writer.put_u8(1).is_ok(),
        writer.put_slice(bytes).is_ok(),
        fmt::Write::write_str(writer, text).is_ok(),
    ];
    (done, writer.remaining_mut())
}

/// Appends to one of several writers what `written` appends. The writer has room in its own places
/// only, while the others live.
pub fn written_by_one(
    several: &mut ArcBytesShared,
    bytes: &[u8],
    text: &str,
) -> ([bool; 4], usize) {
    let done = [
        several.write(bytes).is_ok(),
        several.put_u8(1).is_ok(),
        several.put_slice(bytes).is_ok(),
        fmt::Write::write_str(several, text).is_ok(),
    ];
    (done, several.remaining_mut())
}

/// Puts numbers of each size into a writer of either role, the highest byte first, each if there
/// are places for it.
pub fn put_high_first<R: RoleOf<Plain<u8>, Vec<u8>, (), Global, Open>>(
    window: &mut WriteWindow<Plain<u8>, DefaultLayoutMut, R>,
) -> [bool; 13]
where
    R::Parts: CopyWriterParts<Plain<u8>, Vec<u8>, (), Global, Open>,
{
    [
        window.put_i8(-1).is_ok(),
        window.put_u16(1).is_ok(),
        window.put_i16(-1).is_ok(),
        window.put_u32(1).is_ok(),
        window.put_i32(-1).is_ok(),
        window.put_u64(1).is_ok(),
        window.put_i64(-1).is_ok(),
        window.put_u128(1).is_ok(),
        window.put_i128(-1).is_ok(),
        window.put_f32(1.5).is_ok(),
        window.put_f64(1.5).is_ok(),
        window.put_uint(1, 3).is_ok(),
        window.put_int(-1, 3).is_ok(),
    ]
}

/// Puts the same numbers, the lowest byte first.
pub fn put_low_first<R: RoleOf<Plain<u8>, Vec<u8>, (), Global, Open>>(
    window: &mut WriteWindow<Plain<u8>, DefaultLayoutMut, R>,
) -> [bool; 12]
where
    R::Parts: CopyWriterParts<Plain<u8>, Vec<u8>, (), Global, Open>,
{
    [
        window.put_u16_le(1).is_ok(),
        window.put_i16_le(-1).is_ok(),
        window.put_u32_le(1).is_ok(),
        window.put_i32_le(-1).is_ok(),
        window.put_u64_le(1).is_ok(),
        window.put_i64_le(-1).is_ok(),
        window.put_u128_le(1).is_ok(),
        window.put_i128_le(-1).is_ok(),
        window.put_f32_le(1.5).is_ok(),
        window.put_f64_le(1.5).is_ok(),
        window.put_uint_le(1, 3).is_ok(),
        window.put_int_le(-1, 3).is_ok(),
    ]
}

/// Puts numbers into a sole writer and into one of several.
pub fn numbers_put(
    writer: &mut ArcBytesMut,
    several: &mut ArcBytesShared,
) -> ([[bool; 13]; 2], [[bool; 12]; 2]) {
    (
        [put_high_first(writer), put_high_first(several)],
        [put_low_first(writer), put_low_first(several)],
    )
}

/// The sum of a reader's bytes, by a loop over them.
pub fn summed(reader: &ArcBytes) -> u64 {
    let mut sum = 0u64;
    for byte in reader {
        sum = sum.wrapping_add(*byte as u64);
    }
    sum
}

/// How many bytes windows of each sort lend, and a text's.
pub fn lent(
    reader: &ArcBytes,
    writer: &ArcBytesMut,
    short: &SmallBytes,
    small: &SmallArcBytes,
    text: &ArcStr,
) -> [usize; 5] {
    [
        AsSlice::as_slice(reader).len(),
        AsSlice::as_slice(writer).len(),
        AsSlice::as_slice(short).len(),
        AsSlice::as_slice(small).len(),
        AsStr::as_str(text).len(),
    ]
}
