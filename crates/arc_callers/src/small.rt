//! Short lists of bytes in a value of their own, and windows that are either such a list or a
//! window that is read.
ghost use Rattle.std.specs.Prelude.{◌≡◌, ◌≤◌, [], drop, length, take, slice_range};
ghost use Rattle.std.specs.Prelude.{IfOk, IfErr, IfSome, OnOk};
ghost use Rattle.std.specs.Int.{w16, from_be_bytes};
ghost use Rattle.arc_block.specs.Place.{moved};
ghost use Rattle.arc_read.specs.Kept.{without_metadata};

use arc_slice::error::{AllocError, OwnerError, RangeError};
use arc_slice::inlined::{
    SmallArcBytes, SmallArcSlice, SmallArcStr, SmallBytes, SmallSlice, SmallStr,
};
use arc_slice::layout::VecLayout;
use arc_slice::{ArcBytes, Pass};
use bytes::Buf;
use either::{Left, Right};
use std::alloc::Global;
use std::boxed::BoxedSlice;
use std::sync::Wait;

/// A list without bytes, and lists of these bytes and of this text, where they are short enough.
pub fn short(bytes: &[u8], text: &str) -> (SmallBytes, Option<SmallBytes>, Option<SmallStr>)
    ensures empty { result.0.items ≡ [] }
    ensures bytes { IfSome result.1 (λ small. small.items ≡ bytes.now) }
    ensures text { IfSome result.2 (λ small. small.items ≡ text.now) }
{
    (
        SmallSlice::empty(),
        SmallSlice::new(bytes),
        SmallSlice::new_str(text),
    )
}

/// The number of the bytes and the bytes, whether there are none, and a text.
pub fn short_seen<'a>(small: &'a SmallBytes, text: &'a SmallStr) -> (usize, &'a [u8], bool, &'a str)
    ensures bytes { result.1.now ≡ small.now.items }
    ensures text { result.3.now ≡ text.now.items }
{
    (
        small.len(),
        small.as_slice(),
        text.is_empty(),
        text.as_str(),
    )
}

/// The bytes from `start` to before `end`, as a list of its own.
pub fn short_part(small: &SmallBytes, start: usize, end: usize) -> Result<SmallBytes, RangeError>
    ensures { IfOk result (λ part. part.items ≡ slice_range small.now.items start end) }
{
    match small.check_range(start, end) {
        Ok(()) => Ok(small.subslice(start, end)),
        Err(e) => Err(e),
    }
}

/// Takes what is in front of `start` off a text, if it may be cut there.
pub fn short_narrowed(text: &mut SmallStr, start: usize) -> Result<(), RangeError>
    ensures { OnOk result (text.new.items ≡ drop start text.old.items) }
{
    if let Err(e) = text.check_at(start) {
        return Err(e);
    }
    text.advance(start);
    Ok(())
}

/// Keeps the first so many bytes.
pub fn shortened(small: &mut SmallBytes, len: usize)
    ensures { small.new.items ≡ take len small.old.items }
{
    small.truncate(len);
}

/// A window without bytes, one of a short list, and one of a window that is read.
pub fn windows(small: SmallBytes, window: ArcBytes) -> (SmallArcBytes, SmallArcBytes, SmallArcBytes)
    ensures empty { result.0.items ≡ [] }
    ensures small { result.1.items ≡ small.items }
    ensures window { result.2.items ≡ window.items }
{
    (
        SmallArcSlice::new(),
        SmallArcSlice::from(small),
        SmallArcSlice::from(window),
    )
}

/// Copies of these bytes and of this text, up to a limit in the windows themselves.
pub fn copied(
    alloc: Global,
    bytes: &[u8],
    text: &str,
) -> (
    Result<SmallArcBytes, AllocError>,
    Result<SmallArcStr, AllocError>,
) {
    (
        SmallArcSlice::try_from_slice(alloc, bytes),
        SmallArcSlice::try_from_str(alloc, text),
    )
}

/// Bytes that are moved in, where they are short without memory.
pub fn moved_in(alloc: Global, bytes: [u8; 4]) -> Result<SmallArcBytes, [u8; 4]>
    ensures { IfErr result (λ back. back ≡ bytes) }
{
    SmallArcSlice::try_from_array(alloc, bytes)
}

/// Windows over a vector and over a box, which are never copied into the window itself.
pub fn kept(
    alloc: Global,
    vector: Vec<u8>,
    boxed: BoxedSlice<u8>,
) -> (
    Result<SmallArcBytes, Vec<u8>>,
    Result<SmallArcBytes, BoxedSlice<u8>>,
) {
    (
        SmallArcSlice::try_from_vec(alloc, vector),
        SmallArcSlice::try_from_boxed(alloc, boxed),
    )
}

/// Windows over `'static` bytes and over a `'static` text.
pub fn lasting(
    alloc: Global,
    bytes: &'static [u8],
    text: &'static str,
) -> (SmallArcBytes, SmallArcStr)
    ensures bytes { result.0.items ≡ bytes.now }
    ensures text { result.1.items ≡ text.now }
{
    (
        SmallArcSlice::from_static(alloc, bytes),
        SmallArcSlice::from_static_str(alloc, text),
    )
}

/// How many bytes a window has and which, whether there are none, and the text of another one.
pub fn seen<'a>(
    window: &'a SmallArcBytes,
    text: &'a SmallArcStr,
) -> (usize, &'a [u8], bool, &'a str)
    ensures bytes { result.1.now ≡ window.now.items }
    ensures text { result.3.now ≡ text.now.items }
{
    (
        window.len(),
        window.as_slice(),
        text.is_empty(),
        text.as_str(),
    )
}

/// Another window with the same bytes. One that has them in itself is copied.
pub fn cloned(rt: &impl Wait, window: &SmallArcBytes) -> Result<SmallArcBytes, OwnerError>
    ensures { IfOk result (λ clone. clone.items ≡ window.now.items) }
{
    window.try_clone(rt)
}

/// The bytes from `start` to `end`, if that is a range.
pub fn part(
    rt: &impl Wait,
    window: &SmallArcBytes,
    start: usize,
    end: usize,
) -> Result<Option<SmallArcBytes>, RangeError> {
    match window.check_range(start, end) {
        Ok(()) => Ok(window.try_subslice(rt, start, end).ok()),
        Err(e) => Err(e),
    }
}

/// Takes what is in front of `start` off a text, if it may be cut there.
pub fn narrowed(text: &mut SmallArcStr, start: usize) -> Result<(), RangeError>
    ensures { OnOk result (text.new.items ≡ drop start text.old.items) }
{
    if let Err(e) = text.check_at(start) {
        return Err(e);
    }
    text.advance(start);
    Ok(())
}

/// The number that the window begins with. After the read it stands where it stood, two places
/// further in.
pub fn number(window: &mut SmallArcBytes) -> u16
    requires { 2 ≤ length window.old.items }
    ensures value { result ≡ from_be_bytes w16 (take 2 window.old.items) }
    ensures rest { window.new.items ≡ drop 2 window.old.items }
    ensures place { without_metadata window.new.place
        ≡ moved 2 (without_metadata window.old.place) }
{
    let number = window.get_u16();
    window.known_after_reads();
    number
}

/// How many bytes a window has in itself, if it has them there.
pub fn inlined(window: &SmallArcBytes) -> Option<usize> {
    match window.as_either() {
        Left(small) => Some(small.len()),
        Right(_) => None,
    }
}

/// Keeps the first so many bytes, in the window itself or in its block.
pub fn cut_back(window: &mut SmallArcBytes, len: usize) {
    match window.as_either_mut() {
        Left(small) => small.truncate(len),
        Right(window) => window.truncate(len),
    }
}

/// The window that is read, or one over a copy.
pub fn as_reader(alloc: Global, window: SmallArcBytes) -> Result<ArcBytes, AllocError> {
    match window.into_either() {
        Left(small) => ArcBytes::try_from_slice(alloc, small.as_slice()),
        Right(window) => Ok(window),
    }
}

/// A clone and a part of a window that is a short list, and its end, each with a pass of no block.
pub fn called_as(
    rt: &impl Wait,
    small: SmallBytes,
) -> (
    Result<SmallArcBytes, OwnerError>,
    Result<SmallArcBytes, OwnerError>,
)
    ensures { IfOk result.0 (λ clone. clone.items ≡ small.items) }
{
    let window = SmallArcBytes::from(small);
    let mut pass = Pass::none();
    let clone = window.try_clone_as(rt, &mut pass);
    let mut pass = Pass::none();
    let part = window.try_subslice_as(rt, 0, 0, &mut pass);
    let mut pass = Pass::none();
    window.release_as(&mut pass);
    (clone, part)
}

/// A copy, an array and a copy of a text, each with a pass of its own.
pub fn copied_as(
    alloc: Global,
    bytes: &[u8],
    array: [u8; 4],
    text: &str,
) -> (
    Result<SmallArcBytes, AllocError>,
    Result<SmallArcBytes, [u8; 4]>,
    Result<SmallArcStr, AllocError>,
) {
    let mut pass = Pass::none();
    let copied = SmallArcBytes::try_from_slice_as(alloc, bytes, &mut pass);
    let mut pass = Pass::none();
    let moved = SmallArcBytes::try_from_array_as(alloc, array, &mut pass);
    let mut pass = Pass::none();
    (
        copied,
        moved,
        SmallArcStr::try_from_str_as(alloc, text, &mut pass),
    )
}

/// Windows over a vector and over a box, each with a pass of its own.
pub fn kept_as(
    alloc: Global,
    vector: Vec<u8>,
    boxed: BoxedSlice<u8>,
) -> (
    Result<SmallArcBytes, Vec<u8>>,
    Result<SmallArcBytes, BoxedSlice<u8>>,
) {
    let mut pass = Pass::none();
    let vector = SmallArcBytes::try_from_vec_as(alloc, vector, &mut pass);
    let mut pass = Pass::none();
    (
        vector,
        SmallArcBytes::try_from_boxed_as(alloc, boxed, &mut pass),
    )
}

/// A short list, and windows, under another layout: a short list stays in its window.
pub fn under_vectors(
    short: SmallBytes,
    window: SmallArcBytes,
) -> (
    SmallBytes<VecLayout>,
    Result<SmallArcBytes<VecLayout>, SmallArcBytes>,
)
    ensures short { result.0.items ≡ short.items }
    ensures moved { IfOk result.1 (λ moved. moved.items ≡ window.items) }
    ensures back { IfErr result.1 (λ back. back ≡ window) }
{
    (
        short.with_layout::<VecLayout>(),
        window.try_with_layout::<VecLayout>(),
    )
}

/// A short list's window under another layout, with a pass of no block.
pub fn under_vectors_as(short: SmallBytes) -> Result<SmallArcBytes<VecLayout>, SmallArcBytes>
    ensures { IfOk result (λ moved. moved.items ≡ short.items) }
{
    let mut pass = Pass::none();
    SmallArcBytes::from(short).try_with_layout_as::<VecLayout>(&mut pass)
}
