//! Windows that are read: over copies, over what is moved in and over static data; seen, cloned,
//! cut, turned into windows of another kind, and ended. Cuts into parts are in `words`, `frames`
//! and `queue`.
ghost use Rattle.std.specs.Prelude.{◌≡◌, [], drop, take, IfOk, IfErr, OnOk};
ghost use Rattle.std.specs.Str.{IsUtf8};
ghost use Rattle.arc_block.specs.Place.{IsOnBlock, static_data};

use arc_slice::buffer::Owned;
use arc_slice::error::{AllocError, OwnerError, RangeError};
use arc_slice::{ArcByteText, ArcBytes, ArcSlice, ArcStr};
use std::alloc::Global;
use std::str::Utf8Error;
use std::sync::Wait;

/// Copies of these bytes and of this text.
pub fn copied(
    alloc: Global,
    bytes: &[u8],
    text: &str,
) -> (Result<ArcBytes, AllocError>, Result<ArcStr, AllocError>)
    ensures bytes { IfOk result.0 (λ window. window.items ≡ bytes.now) }
    ensures text { IfOk result.1 (λ window. window.items ≡ text.now) }
{
    (
        ArcBytes::try_from_slice(alloc, bytes),
        ArcStr::try_from_str(alloc, text),
    )
}

/// Texts that are moved in. Each is dropped once, with the last window over it. They come back
/// where memory is refused.
pub fn moved_in(alloc: Global, texts: [String; 2]) -> Result<ArcSlice<Owned<String>>, [String; 2]>
    ensures made { IfOk result (λ window. window.items ≡ texts) }
    ensures back { IfErr result (λ back. back ≡ texts) }
{
    ArcSlice::try_from_array(alloc, texts)
}

/// A window over nothing, one over `'static` bytes, and one over a `'static` text.
pub fn lasting(
    alloc: Global,
    bytes: &'static [u8],
    text: &'static str,
) -> (ArcBytes, ArcBytes, ArcStr)
    ensures empty { result.0.items ≡ [] }
    ensures bytes { result.1 ≡ record { items = bytes.now; place = static_data } }
    ensures text { result.2 ≡ record { items = text.now; place = static_data } }
{
    (
        ArcBytes::new(alloc),
        ArcBytes::from_static(alloc, bytes),
        ArcStr::from_static_str(alloc, text),
    )
}

/// The `'static` bytes again, where the window stands on no block; else the window.
pub fn lasting_again(window: ArcBytes) -> Result<&'static [u8], ArcBytes>
    ensures taken { IfOk result (λ bytes. bytes.now ≡ window.items) }
    ensures back { IfErr result (λ back. (back ≡ window) × IsOnBlock window.place) }
{
    window.try_into_static()
}

/// How many bytes a window has, and whether it has none; a text; whether no other owner has a part
/// of the bytes' block; and how many owners that may have.
pub fn seen<'a>(window: &ArcBytes, text: &'a ArcStr) -> (usize, bool, &'a str, bool, u64)
    ensures text { result.2.now ≡ text.now.items }
    ensures owners { result.4 ≡ 9223372036854775807 }
{
    (
        window.len(),
        window.is_empty(),
        text.as_str(),
        window.is_unique(),
        window.max_owners(),
    )
}

/// The bytes of a window of text are UTF-8. The call does nothing: its contract is the law.
pub fn known(text: &ArcStr)
    ensures { ∥ IsUtf8 text.now.items ∥₁ }
{
    text.known_held();
}

/// Another window with the same bytes, for someone else.
pub fn cloned(rt: &impl Wait, window: &ArcBytes) -> Result<ArcBytes, OwnerError>
    ensures { IfOk result (λ clone. clone.items ≡ window.now.items) }
{
    window.try_clone(rt)
}

/// Takes what is in front of `start` off a text, if it may be cut there.
pub fn narrowed(text: &mut ArcStr, start: usize) -> Result<(), RangeError>
    ensures { OnOk result (text.new.items ≡ drop start text.old.items) }
{
    if let Err(e) = text.check_at(start) {
        return Err(e);
    }
    text.advance(start);
    Ok(())
}

/// Keeps the first so many bytes.
pub fn shortened(window: &mut ArcBytes, len: usize)
    ensures { window.new.items ≡ take len window.old.items }
{
    window.truncate(len);
}

/// A text as bytes, and these as a text again.
pub fn as_bytes_and_back(text: ArcStr) -> Result<ArcStr, (Utf8Error, ArcBytes)>
    ensures same { IfOk result (λ back. back ≡ text) }
    ensures other { IfErr result (λ r. r.1 ≡ text) }
{
    ArcStr::try_from_arc_slice(text.into_arc_slice())
}

/// Bytes as byte text, and back: never refused.
pub fn as_byte_text(bytes: ArcBytes) -> ArcBytes
    ensures { result ≡ bytes }
{
    match ArcByteText::try_from_arc_slice(bytes) {
        Ok(text) => text.into_arc_slice(),
        Err((_, bytes)) => bytes,
    }
}

/// What a window is made of, and the window again.
pub fn taken_apart(window: ArcBytes) -> ArcBytes
    ensures { result ≡ window }
{
    ArcSlice::from_parts(window.into_parts())
}

/// Ends a window, which first asks whether it is alone. A drop counts down at once.
pub fn ended(window: ArcBytes) {
    window.drop_with_unique_hint();
}
