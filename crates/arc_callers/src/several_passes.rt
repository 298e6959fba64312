//! Calls of one of several writers with a pass of the window's block.
ghost use Rattle.std.specs.Prelude.{◌≡◌, ◌≤◌, ◌++◌, ◌∷◌, [], length, take, drop};
ghost use Rattle.std.specs.Prelude.{IfOk, IfErr, IfSome, OnOk, Err};
ghost use Rattle.std.specs.Int.{w16, from_be_bytes, to_be_bytes};
ghost use Rattle.std.specs.Box.{boxed_slice_items};
ghost use Rattle.arc_parts.specs.Shared.{IsOneBlock};

use arc_slice::error::{OwnerError, TryReserveError};
use arc_slice::layout::{DefaultLayout, VecLayout};
use arc_slice::{ArcBytes, ArcBytesMut, ArcBytesShared, ArcStrShared, Open, Pass};
use bytes::Buf;
use std::boxed::BoxedSlice;
use std::sync::Wait;

/// A new pass of the window's block, which has learnt what another one has seen.
pub fn learnt(window: &ArcBytesShared) -> Pass<Open> {
    let mut pass = window.pass();
    let other = window.pass();
    window.learn(&mut pass, &other);
    pass
}

/// Splits the window in two and joins them again: `None` where the split is refused, else whether
/// both were joined.
pub fn split_and_joined(rt: &impl Wait, window: &mut ArcBytesShared) -> Option<bool> {
    let at = window.capacity();
    let mut pass = window.pass();
    match window.try_split_off_as(rt, at, &mut pass) {
        Ok(back) => Some(window.try_unsplit_as(back, &mut pass).is_ok()),
        Err(_) => None,
    }
}

/// The number that the window begins with. Then the window behind it is joined to it: after the
/// read it is still known that both stand on one block.
pub fn number_and_joined(
    window: &mut ArcBytesShared,
    behind: ArcBytesShared,
) -> (u16, Result<(), ArcBytesShared>)
    requires long { 2 ≤ length window.old.items }
    requires block { IsOneBlock window.old.place behind.place }
    ensures number { result.0 ≡ from_be_bytes w16 (take 2 window.old.items) }
    ensures joined { OnOk result.1 (window.new.items ≡ drop 2 window.old.items ++ behind.items) }
{
    let number = window.get_u16();
    window.known_after_reads();
    let mut pass = window.pass();
    (number, window.try_unsplit_as(behind, &mut pass))
}

/// Moves the window's bytes behind those of a vector. Then the window behind it is joined to it:
/// after the read it is still known that both stand on one block. That window comes back where the
/// vector is refused memory, and where they can't be joined.
pub fn read_out_and_joined(
    window: &mut ArcBytesShared,
    bytes: &mut Vec<u8>,
    behind: ArcBytesShared,
) -> Result<(), ArcBytesShared>
    requires { IsOneBlock window.old.place behind.place }
    ensures joined { OnOk result ((bytes.new.items ≡ bytes.old.items ++ window.old.items)
        × (window.new.items ≡ behind.items)) }
    ensures back { IfErr result (λ back. back ≡ behind) }
{
    match window.read_to_end(bytes) {
        Ok(_) => {
            let mut pass = window.pass();
            window.try_unsplit_as(behind, &mut pass)
        }
        Err(_) => Err(behind),
    }
}

/// Puts a number behind the window's bytes. Then the window behind it is joined to it: after the
/// put it is still known that both stand on one block. That window comes back where the number
/// doesn't fit, and where they can't be joined.
pub fn number_put_and_joined(
    window: &mut ArcBytesShared,
    behind: ArcBytesShared,
    number: u16,
) -> Result<(), ArcBytesShared>
    requires { IsOneBlock window.old.place behind.place }
    ensures joined { OnOk result (window.new.items
        ≡ (window.old.items ++ to_be_bytes w16 number) ++ behind.items) }
    ensures back { IfErr result (λ back. back ≡ behind) }
{
    match window.put_u16(number) {
        Ok(()) => {
            window.known_after_writes();
            let mut pass = window.pass();
            window.try_unsplit_as(behind, &mut pass)
        }
        Err(_) => Err(behind),
    }
}

/// Splits the window in the middle of its places, puts a number into the front, and joins both
/// again: `None` where the split is refused, else whether both were joined.
pub fn split_put_and_joined(
    rt: &impl Wait,
    window: &mut ArcBytesShared,
    number: u16,
) -> Option<bool> {
    let at = window.capacity() / 2;
    let mut pass = window.pass();
    match window.try_split_off_as(rt, at, &mut pass) {
        Ok(back) => Some(number_put_and_joined(window, back, number).is_ok()),
        Err(_) => None,
    }
}

/// Hands out the first half of the places.
pub fn front_given(
    rt: &impl Wait,
    window: &mut ArcBytesShared,
) -> Result<ArcBytesShared, OwnerError>
    ensures { IfOk result (λ front. IsOneBlock front.place window.new.place) }
{
    let at = window.capacity() / 2;
    let mut pass = window.pass();
    window.try_split_to_as(rt, at, &mut pass)
}

/// Appends a byte.
pub fn pushed(window: &mut ArcBytesShared, byte: u8) -> Result<(), (TryReserveError, u8)>
    ensures { OnOk result (window.new.items ≡ window.old.items ++ byte ∷ []) }
{
    let mut pass = window.pass();
    window.try_push_as(byte, &mut pass)
}

/// Appends bytes, and appends a text.
pub fn extended(
    window: &mut ArcBytesShared,
    text: &mut ArcStrShared,
    more: &str,
) -> (Result<(), TryReserveError>, Result<(), TryReserveError>)
    ensures bytes { OnOk result.0 (window.new.items ≡ window.old.items ++ more.now) }
    ensures text { OnOk result.1 (text.new.items ≡ text.old.items ++ more.now) }
{
    let mut pass = window.pass();
    let bytes = window.try_extend_from_slice_as(more.as_bytes(), &mut pass);
    let mut pass = text.pass();
    (bytes, text.try_extend_from_str_as(more, &mut pass))
}

/// Makes room for so many bytes more.
pub fn room_made(window: &mut ArcBytesShared, more: usize) -> (bool, Result<(), TryReserveError>)
    ensures { window.new.items ≡ window.old.items }
{
    let mut pass = window.pass();
    let found = window.try_reclaim_as(more, &mut pass);
    let mut pass = window.pass();
    (found, window.try_reserve_as(more, &mut pass))
}

/// Leaves a vector for a native block, as a split does first, and answers a pass of that block.
pub fn vector_left(window: &mut ArcBytesShared) -> Option<Pass<Open>> {
    if !window.is_on_vector() {
        return None;
    }
    let mut pass = window.pass();
    match window.try_leave_vector_as(&mut pass) {
        Ok(next) => Some(next),
        Err(_) => None,
    }
}

/// The only writer again, where the others have ended.
pub fn sole(window: ArcBytesShared) -> Result<ArcBytesMut, ArcBytesShared>
    ensures sole { IfOk result (λ sole. sole.items ≡ window.items) }
    ensures back { IfErr result (λ back. back ≡ window) }
{
    let mut pass = window.pass();
    window.try_into_unique_as(&mut pass)
}

/// Ends a writer. The last one becomes the only writer of a new block, with a pass of that.
pub fn sole_if_last(
    window: ArcBytesShared,
) -> Result<Option<(ArcBytesMut, Pass<Open>)>, ArcBytesShared>
    ensures sole { IfOk result (λ last. IfSome last (λ r. r.0.items ≡ window.items)) }
    ensures back { IfErr result (λ back. back ≡ window) }
{
    let mut pass = window.pass();
    window.into_unique_if_last_as(&mut pass)
}

/// A window under another layout, and a window that becomes one that is read.
pub fn turned(
    window: ArcBytesShared,
    other: ArcBytesShared,
) -> (
    Result<ArcBytesShared<VecLayout>, ArcBytesShared>,
    Result<ArcBytes, ArcBytesShared>,
)
    ensures moved { IfOk result.0 (λ moved. moved.items ≡ window.items) }
    ensures frozen { IfOk result.1 (λ frozen. frozen.items ≡ other.items) }
{
    let mut pass = window.pass();
    let moved = window.try_with_layout_as::<VecLayout>(&mut pass);
    let mut pass = other.pass();
    (moved, other.try_freeze_as::<DefaultLayout>(&mut pass))
}

/// The vector of a window, and the box of another one.
pub fn vectors(
    window: ArcBytesShared,
    other: ArcBytesShared,
) -> (
    Result<Vec<u8>, ArcBytesShared>,
    Result<BoxedSlice<u8>, ArcBytesShared>,
)
    ensures vector { IfOk result.0 (λ bytes. bytes.items ≡ window.items) }
    ensures boxed { IfOk result.1 (λ bytes. boxed_slice_items bytes ≡ other.items) }
{
    let mut pass = window.pass();
    let vector = window.try_into_vec_as(&mut pass);
    let mut pass = other.pass();
    (vector, other.try_into_boxed_as(&mut pass))
}

/// The items of a native block as an array. None of several writers stands on a caller's buffer.
pub fn others(
    window: ArcBytesShared,
    other: ArcBytesShared,
) -> (
    Result<[u8; 4], ArcBytesShared>,
    Result<Vec<u8>, ArcBytesShared>,
)
    ensures array { IfOk result.0 (λ bytes. bytes ≡ window.items) }
    ensures buffer { result.1 ≡ Err other }
{
    let mut pass = window.pass();
    let array = window.try_into_array_as(&mut pass);
    let mut pass = other.pass();
    (array, other.try_into_buffer_as(&mut pass))
}

/// Three ends: the first counts down, the second asks first, the third is a drop that answers its
/// pass.
pub fn ended(first: ArcBytesShared, second: ArcBytesShared, third: ArcBytesShared) -> Pass<Open> {
    let mut pass = first.pass();
    first.release_as(&mut pass);
    let mut pass = second.pass();
    second.drop_with_unique_hint_as(&mut pass);
    third.let_go()
}
