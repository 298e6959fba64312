//! What a window stands on, taken back: a string, a box, an array. A vector is taken back in
//! `frames`, `queue` and `editor`, a caller's buffer in `buffers`, an `Arc` in `layouts`.
ghost use Rattle.std.specs.Prelude.{◌≡◌, IfOk, IfErr, IfSome, false};
ghost use Rattle.arc_parts.specs.Window.{IsBoxWhole, IsVecPart};
ghost use Rattle.std.specs.Box.{boxed_slice_items};
ghost use Rattle.std.specs.String.{string_bytes};

use arc_slice::buffer::Owned;
use arc_slice::{ArcBytesMut, ArcSlice, ArcStr};
use std::alloc::Global;
use std::boxed::BoxedSlice;

/// A string that is read and taken back, which no other owner has a part of. Where memory for its
/// count is refused, the string comes back at once.
pub fn string(alloc: Global, text: String) -> Result<String, ArcStr>
    ensures string { IfOk result (λ back. string_bytes back ≡ string_bytes text) }
    ensures window { IfErr result (λ window. window.items ≡ string_bytes text) }
{
    match ArcStr::try_from_vec(alloc, text) {
        Ok(window) => window.try_into_vec(),
        Err(text) => Ok(text),
    }
}

/// Texts in a box that are read.
pub fn over_box(
    alloc: Global,
    texts: BoxedSlice<String>,
) -> Result<ArcSlice<Owned<String>>, BoxedSlice<String>>
    ensures made { IfOk result (λ window. window.items ≡ boxed_slice_items texts) }
    ensures back { IfErr result (λ back. boxed_slice_items back ≡ boxed_slice_items texts) }
{
    ArcSlice::try_from_boxed(alloc, texts)
}

/// The box again, where the window has all of it; else the window.
pub fn boxed(window: ArcSlice<Owned<String>>) -> Result<BoxedSlice<String>, ArcSlice<Owned<String>>>
    ensures boxed { IfOk result (λ texts. boxed_slice_items texts ≡ window.items) }
    ensures back { IfErr result (λ back. back ≡ window) }
{
    window.try_into_boxed()
}

/// Ends a reader of a string. The last reader gets the string.
pub fn string_if_last(window: ArcStr) -> Result<Option<String>, ArcStr>
    ensures string { IfOk result (λ last. IfSome last (λ text.
        string_bytes text ≡ window.items)) }
    ensures back { IfErr result (λ back. (back ≡ window)
        × (¬ IsVecPart false window.items window.place)) }
{
    window.into_vec_if_last()
}

/// Ends a reader of a box. The last reader gets the box.
pub fn boxed_if_last(
    window: ArcSlice<Owned<String>>,
) -> Result<Option<BoxedSlice<String>>, ArcSlice<Owned<String>>>
    ensures boxed { IfOk result (λ last. IfSome last (λ texts.
        boxed_slice_items texts ≡ window.items)) }
    ensures back { IfErr result (λ back. (back ≡ window)
        × (¬ IsBoxWhole window.items window.place)) }
{
    window.into_boxed_if_last()
}

/// The items of a window on a native block, moved out of it.
pub fn array(window: ArcSlice<Owned<String>>) -> Result<[String; 2], ArcSlice<Owned<String>>>
    ensures array { IfOk result (λ texts. texts ≡ window.items) }
    ensures back { IfErr result (λ back. back ≡ window) }
{
    window.try_into_array::<2>()
}

/// What two writers' windows stand on: the box of one that has filled all places of a vector, and
/// the items of one on a native block, as an array.
pub fn of_writers(
    over_vector: ArcBytesMut,
    on_block: ArcBytesMut,
) -> (
    Result<BoxedSlice<u8>, ArcBytesMut>,
    Result<[u8; 4], ArcBytesMut>,
)
    ensures boxed { IfOk result.0 (λ bytes. boxed_slice_items bytes ≡ over_vector.items) }
    ensures array { IfOk result.1 (λ bytes. bytes ≡ on_block.items) }
{
    (over_vector.try_into_boxed(), on_block.try_into_array::<4>())
}
