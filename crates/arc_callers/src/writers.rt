//! Windows that are written by their block's only owner: made, filled, changed, given room, seen
//! and ended. `encoder` pushes and extends, `editor` cuts back and freezes.
ghost use Rattle.std.specs.Prelude.{◌≡◌, ◌<◌, ◌≤◌, ◌+◌, ◌++◌, ◌↔◌, [], length, drop, true};
ghost use Rattle.std.specs.Prelude.{IsOk, IfOk, IfErr, OnOk, slice_set};
ghost use Rattle.arc_block.specs.Place.{IsOnBlock};
ghost use Rattle.arc_parts.specs.Writers.{capacity_of, IsWriterPlace};

use arc_slice::buffer::{ByteText, Owned, Plain};
use arc_slice::error::{AllocError, RangeError, TryReserveError};
use arc_slice::layout::DefaultLayoutMut;
use arc_slice::{ArcBytesMut, ArcSliceMut, ArcStrMut};
use std::alloc::Global;
use std::str::Utf8Error;

/// Texts that are written.
pub type TextsMut = ArcSliceMut<Owned<String>, DefaultLayoutMut, 1>;

/// Numbers that are written.
pub type NumbersMut = ArcSliceMut<Plain<u64>, DefaultLayoutMut, 1>;

/// Byte text that is written.
pub type ByteTextMut = ArcSliceMut<ByteText, DefaultLayoutMut, 1>;

/// A window without bytes, with so many places to write into.
pub fn with_places(alloc: Global, places: usize) -> Result<ArcBytesMut, AllocError>
    ensures { IfOk result (λ window. window.items ≡ []) }
{
    ArcSliceMut::try_with_capacity(alloc, places)
}

/// A copy of these bytes, to be written.
pub fn copied(alloc: Global, bytes: &[u8]) -> Result<ArcBytesMut, AllocError>
    ensures { IfOk result (λ window. window.items ≡ bytes.now) }
{
    ArcSliceMut::try_from_slice(alloc, bytes)
}

/// A copy of this text, to be written.
pub fn text(alloc: Global, text: &str) -> Result<ArcStrMut, AllocError>
    ensures { IfOk result (λ window. window.items ≡ text.now) }
{
    ArcStrMut::try_from_str(alloc, text)
}

/// Texts that are moved in; they come back where memory is refused.
pub fn moved_in(alloc: Global, texts: [String; 2]) -> Result<TextsMut, [String; 2]>
    ensures made { IfOk result (λ window. window.items ≡ texts) }
    ensures back { IfErr result (λ back. back ≡ texts) }
{
    ArcSliceMut::try_from_array(alloc, texts)
}

/// The numbers of a vector, pushed one by one. At the first one without room that one comes back,
/// with the window of those before it.
pub fn collected(
    alloc: Global,
    numbers: Vec<u64>,
) -> Result<NumbersMut, (NumbersMut, TryReserveError, u64)> {
    ArcSliceMut::try_from_iter(alloc, numbers)
}

/// Appends the bytes one by one, and answers whether there was room for all. Bytes before the first
/// refusal stay.
pub fn appended(window: &mut ArcBytesMut, bytes: &[u8]) -> bool
    ensures { result ≡ true → window.new.items ≡ window.old.items ++ bytes.now }
{
    match window.try_extend(bytes.iter().copied()) {
        Ok(()) => true,
        Err(_) => false,
    }
}

/// Puts another byte in the place of the one at `at`.
pub fn set(window: &mut ArcBytesMut, at: usize, byte: u8)
    requires { at < length window.old.items }
    ensures { window.new.items ≡ slice_set window.old.items at byte }
{
    window.as_mut_slice()[at] = byte;
}

/// Makes room for so many bytes more: whether that took no memory, and then whether there is room.
pub fn room_made(window: &mut ArcBytesMut, more: usize) -> (bool, Result<(), TryReserveError>)
    ensures { OnOk result.1 (length window.new.items + more ≤ capacity_of window.new.role) }
{
    (window.try_reclaim(more), window.try_reserve(more))
}

/// The bytes that are written, whether there are none, and the text of another window.
pub fn seen<'a>(window: &'a ArcBytesMut, text: &'a ArcStrMut) -> (&'a [u8], bool, &'a str)
    ensures bytes { result.0.now ≡ window.now.items }
    ensures text { result.2.now ≡ text.now.items }
{
    (window.as_slice(), window.is_empty(), text.as_str())
}

/// Where a writer stands: on nothing, or on a block that counts its owners and may be written. The
/// calls do nothing: their contracts are the laws.
pub fn known(window: &ArcBytesMut)
    ensures place { IsWriterPlace window.now.place }
    ensures idle { (¬ IsOnBlock window.now.place) → window.now.items ≡ [] }
{
    window.known_place();
    window.known_idle();
    window.known_held();
}

/// How many owners the window's block may have.
pub fn most_owners(window: &ArcBytesMut) -> u64
    ensures { result ≡ 9223372036854775807 }
{
    window.max_owners()
}

/// How many places there are behind the bytes, and whether the window may be split at `at`.
pub fn places_left(window: &ArcBytesMut, at: usize) -> (usize, Result<(), RangeError>)
    ensures left { length window.now.items + result.0 ≡ capacity_of window.now.role }
    ensures split { IsOk result.1 ↔ (at ≤ capacity_of window.now.role) }
{
    (window.capacity() - window.len(), window.check_split_off(at))
}

/// Takes the first so many bytes off, with their places.
pub fn advanced(window: &mut ArcBytesMut, n: usize)
    requires { n ≤ length window.old.items }
    ensures { window.new.items ≡ drop n window.old.items }
{
    window.advance(n);
}

/// A text as bytes, and these as a text again.
pub fn as_bytes_and_back(text: ArcStrMut) -> Result<ArcStrMut, (Utf8Error, ArcBytesMut)>
    ensures same { IfOk result (λ back. back ≡ text) }
    ensures other { IfErr result (λ r. r.1 ≡ text) }
{
    ArcStrMut::try_from_arc_slice_mut(text.into_arc_slice_mut())
}

/// Bytes as byte text, and back: never refused.
pub fn as_byte_text(bytes: ArcBytesMut) -> ArcBytesMut
    ensures { result ≡ bytes }
{
    match ByteTextMut::try_from_arc_slice_mut(bytes) {
        Ok(text) => text.into_arc_slice_mut(),
        Err((_, bytes)) => bytes,
    }
}

/// What a window is made of, and the window again.
pub fn taken_apart(window: ArcBytesMut) -> ArcBytesMut
    ensures { result ≡ window }
{
    ArcSliceMut::from_parts(window.into_parts())
}

/// Ends a window. Its only owner reads no count.
pub fn ended(window: ArcBytesMut) {
    window.drop_with_unique_hint();
}
