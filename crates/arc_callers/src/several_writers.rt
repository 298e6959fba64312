//! One of several writers on one block, each with places of his own: handed out, joined, filled,
//! given room, taken back and ended. `editor` splits and joins for two threads.
ghost use Rattle.std.specs.Prelude.{◌≡◌, ◌≤◌, ◌+◌, ◌++◌, ◌∷◌, [], length, drop, true};
ghost use Rattle.std.specs.Prelude.{IfOk, IfErr, IfSome, OnOk, Err};
ghost use Rattle.std.specs.Box.{boxed_slice_items};
ghost use Rattle.arc_block.specs.Block.{native};
ghost use Rattle.arc_block.specs.Place.{IsOnBlock};
ghost use Rattle.arc_parts.specs.Shared.{IsOneBlock, IsSharedPlace};
ghost use Rattle.arc_parts.specs.Window.{IsOfSort};
ghost use Rattle.arc_parts.specs.Writers.{capacity_of};

use arc_slice::buffer::ByteText;
use arc_slice::error::{OwnerError, RangeError, TryReserveError};
use arc_slice::layout::{DefaultLayout, DefaultLayoutMut, VecLayout};
use arc_slice::{ArcBytes, ArcBytesMut, ArcBytesShared, ArcSliceMut, ArcStrShared};
use std::boxed::BoxedSlice;
use std::str::Utf8Error;
use std::sync::Wait;

/// Byte text of one of several writers.
pub type ByteTextShared = ArcSliceMut<ByteText, DefaultLayoutMut, 0>;

/// A sole writer as one of several. It is refused on a caller's buffer only.
pub fn shared(window: ArcBytesMut) -> Result<ArcBytesShared, ArcBytesMut>
    ensures shared { IfOk result (λ shared. shared.items ≡ window.items) }
    ensures back { IfErr result (λ back. back ≡ window) }
{
    window.into_shared()
}

/// The only writer again, where the others have ended.
pub fn sole(window: ArcBytesShared) -> Result<ArcBytesMut, ArcBytesShared>
    ensures sole { IfOk result (λ sole. sole.items ≡ window.items) }
    ensures back { IfErr result (λ back. back ≡ window) }
{
    window.try_into_unique()
}

/// Ends a writer. The last one of all becomes the only writer.
pub fn sole_if_last(window: ArcBytesShared) -> Result<Option<ArcBytesMut>, ArcBytesShared>
    ensures sole { IfOk result (λ last. IfSome last (λ sole. sole.items ≡ window.items)) }
    ensures back { IfErr result (λ back. (back ≡ window) × (¬ IsOfSort native window.place)) }
{
    window.into_unique_if_last()
}

/// Where one of several writers stands: on nothing, or on a native block or a vector that counts
/// its owners. The calls do nothing: their contracts are the laws.
pub fn known(window: &ArcBytesShared)
    ensures place { IsSharedPlace window.now.place }
    ensures idle { (¬ IsOnBlock window.now.place) → window.now.items ≡ [] }
{
    window.known_place();
    window.known_kind();
    window.known_uncounted();
    window.known_idle();
    window.known_held();
}

/// How many owners the window's block may have.
pub fn most_owners(window: &ArcBytesShared) -> u64
    ensures { result ≡ 9223372036854775807 }
{
    window.max_owners()
}

/// Hands out the first half of the places, for another writer.
pub fn front_given(
    rt: &impl Wait,
    window: &mut ArcBytesShared,
) -> Result<ArcBytesShared, OwnerError>
    ensures { IfOk result (λ front. IsOneBlock front.place window.new.place) }
{
    let at = window.capacity() / 2;
    window.try_split_to(rt, at)
}

/// Takes back the places and bytes behind these, which the caller shows to be of the same block.
pub fn joined(front: &mut ArcBytesShared, back: ArcBytesShared) -> Result<(), ArcBytesShared>
    requires { IsOneBlock front.old.place back.place }
    ensures joined { OnOk result (front.new.items ≡ front.old.items ++ back.items) }
    ensures refused { IfErr result (λ r. (r ≡ back) × (front.new ≡ front.old)) }
{
    front.try_unsplit(back)
}

/// Appends a byte, and then bytes, once there is room for them.
pub fn filled(window: &mut ArcBytesShared, byte: u8, bytes: &[u8]) -> Result<(), TryReserveError>
    ensures { OnOk result (window.new.items ≡ (window.old.items ++ byte ∷ []) ++ bytes.now) }
{
    match window.try_push(byte) {
        Ok(()) => window.try_extend_from_slice(bytes),
        Err((e, _)) => Err(e),
    }
}

/// Appends the bytes one by one, and answers whether there was room for all. Bytes before the first
/// refusal stay.
pub fn appended(window: &mut ArcBytesShared, bytes: &[u8]) -> bool
    ensures { result ≡ true → window.new.items ≡ window.old.items ++ bytes.now }
{
    match window.try_extend(bytes.iter().copied()) {
        Ok(()) => true,
        Err(_) => false,
    }
}

/// Appends a text.
pub fn text_extended(window: &mut ArcStrShared, text: &str) -> Result<(), TryReserveError>
    ensures { OnOk result (window.new.items ≡ window.old.items ++ text.now) }
{
    window.try_extend_from_str(text)
}

/// Makes room for so many bytes more, which is never in other writers' places.
pub fn room_made(window: &mut ArcBytesShared, more: usize) -> (bool, Result<(), TryReserveError>)
    ensures items { window.new.items ≡ window.old.items }
    ensures enough { OnOk result.1 (length window.new.items + more ≤ capacity_of window.new.role) }
{
    (window.try_reclaim(more), window.try_reserve(more))
}

/// The bytes of a window, whether there are none, and whether it stands on a vector; the length of
/// a text, and the text.
pub fn seen<'a>(
    window: &'a ArcBytesShared,
    text: &'a ArcStrShared,
) -> (&'a [u8], [bool; 2], usize, &'a str)
    ensures bytes { result.0.now ≡ window.now.items }
    ensures text { result.3.now ≡ text.now.items }
{
    (
        window.as_slice(),
        [window.is_empty(), window.is_on_vector()],
        text.len(),
        text.as_str(),
    )
}

/// Takes what is in front of `start` off a text, if it may be cut there.
pub fn narrowed(text: &mut ArcStrShared, start: usize) -> Result<(), RangeError>
    ensures { OnOk result (text.new.items ≡ drop start text.old.items) }
{
    if let Err(e) = text.check_at(start) {
        return Err(e);
    }
    text.advance(start);
    Ok(())
}

/// Keeps the first so many bytes. The places stay.
pub fn shortened(window: &mut ArcBytesShared, len: usize)
    ensures { capacity_of window.new.role ≡ capacity_of window.old.role }
{
    window.truncate(len);
}

/// A window under another layout, and a window that becomes one that is read.
pub fn turned(
    window: ArcBytesShared,
    other: ArcBytesShared,
) -> (
    Result<ArcBytesShared<VecLayout>, ArcBytesShared>,
    Result<ArcBytes, ArcBytesShared>,
)
    ensures moved { IfOk result.0 (λ moved. moved.items ≡ window.items) }
    ensures frozen { IfOk result.1 (λ frozen. frozen.items ≡ other.items) }
{
    (
        window.try_with_layout::<VecLayout>(),
        other.try_freeze::<DefaultLayout>(),
    )
}

/// The vector of a window, and the box of another one, where each is alone.
pub fn vectors(
    window: ArcBytesShared,
    other: ArcBytesShared,
) -> (
    Result<Vec<u8>, ArcBytesShared>,
    Result<BoxedSlice<u8>, ArcBytesShared>,
)
    ensures vector { IfOk result.0 (λ bytes. bytes.items ≡ window.items) }
    ensures boxed { IfOk result.1 (λ bytes. boxed_slice_items bytes ≡ other.items) }
{
    (window.try_into_vec(), other.try_into_boxed())
}

/// The items of a native block as an array. None of several writers stands on a caller's buffer.
pub fn others(
    window: ArcBytesShared,
    other: ArcBytesShared,
) -> (
    Result<[u8; 4], ArcBytesShared>,
    Result<Vec<u8>, ArcBytesShared>,
)
    ensures array { IfOk result.0 (λ bytes. bytes ≡ window.items) }
    ensures buffer { result.1 ≡ Err other }
{
    (window.try_into_array::<4>(), other.try_into_buffer())
}

/// A text as bytes, and these as a text again.
pub fn as_bytes_and_back(text: ArcStrShared) -> Result<ArcStrShared, (Utf8Error, ArcBytesShared)>
    ensures same { IfOk result (λ back. back ≡ text) }
    ensures other { IfErr result (λ r. r.1 ≡ text) }
{
    ArcStrShared::try_from_arc_slice_mut(text.into_arc_slice_mut())
}

/// Bytes as byte text, and back: never refused.
pub fn as_byte_text(bytes: ArcBytesShared) -> ArcBytesShared
    ensures { result ≡ bytes }
{
    match ByteTextShared::try_from_arc_slice_mut(bytes) {
        Ok(text) => text.into_arc_slice_mut(),
        Err((_, bytes)) => bytes,
    }
}

/// What a window is made of, and the window again.
pub fn taken_apart(window: ArcBytesShared) -> ArcBytesShared
    ensures { result ≡ window }
{
    ArcSliceMut::from_parts(window.into_parts())
}

/// Ends a window, which first asks whether it is alone.
pub fn ended(window: ArcBytesShared) {
    window.drop_with_unique_hint();
}
