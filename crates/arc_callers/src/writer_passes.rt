//! Calls of sole writers with a pass of the window's block.
ghost use Rattle.std.specs.Prelude.{◌≡◌, ◌<◌, ◌≤◌, ◌++◌, length, take, IfOk, IfErr, OnErr, OnOk};
ghost use Rattle.std.specs.Int.{w16, from_be_bytes};
ghost use Rattle.arc_parts.specs.Steps.{IsPassAt};
ghost use Rattle.arc_write.specs.Within.{spare_places};
ghost use Rattle.std.specs.Box.{boxed_slice_items};

use arc_slice::error::{AllocError, TryReserveError};
use arc_slice::layout::{DefaultLayout, DefaultLayoutMut, VecLayout};
use arc_slice::{ArcBytes, ArcBytesMut, ArcStrMut, Open, Pass, Whole};
use bytes::Buf;
use std::alloc::{self, Global};
use std::boxed::BoxedSlice;

/// Bytes of a block that has one pass.
pub type WholeBytesMut = ArcBytesMut<DefaultLayoutMut, Vec<u8>, (), Global, Whole>;

/// A vector that is written, with a name beside it.
pub type NamedMut = ArcBytesMut<DefaultLayoutMut, Vec<u8>, u64>;

/// A pass that has seen that no other owner lives, and what another pass has seen.
pub fn alone(window: &ArcBytesMut) -> Pass<Open> {
    let mut pass = window.pass();
    window.only(&mut pass);
    let other = window.pass();
    window.learn(&mut pass, &other);
    pass
}

/// The number that a window begins with, after which the window ends: after the read the pass is
/// still one of its block.
pub fn number_and_end(mut window: WholeBytesMut, pass: &mut Pass<Whole>) -> u16
    requires long { 2 ≤ length window.items }
    requires pass { IsPassAt window.place pass.old }
    ensures { result ≡ from_be_bytes w16 (take 2 window.items) }
{
    let number = window.get_u16();
    window.known_after_reads();
    window.release_as(pass);
    number
}

/// Puts a number behind the window's bytes, after which the window ends: after the put the pass is
/// still one of its block.
pub fn number_put_and_end(
    mut window: WholeBytesMut,
    number: u16,
    pass: &mut Pass<Whole>,
) -> Result<(), alloc::AllocError>
    requires { IsPassAt window.place pass.old }
    ensures ok { OnOk result (2 ≤ spare_places window) }
    ensures err { OnErr result (spare_places window < 2) }
{
    let put = window.put_u16(number);
    window.known_after_writes();
    window.release_as(pass);
    put
}

/// A window with so many places, one over so many zeros, and one over a copy, each with a pass of
/// its own. The block of the first has only this pass.
pub fn made(
    alloc: Global,
    places: usize,
    bytes: &[u8],
) -> (
    Result<WholeBytesMut, AllocError>,
    Result<ArcBytesMut, AllocError>,
    Result<ArcBytesMut, AllocError>,
) {
    let mut pass = Pass::none();
    let empty = WholeBytesMut::try_with_capacity_as(alloc, places, &mut pass);
    let mut pass = Pass::none();
    let zeros = ArcBytesMut::try_zeroed_as(alloc, places, &mut pass);
    let mut pass = Pass::none();
    (
        empty,
        zeros,
        ArcBytesMut::try_from_slice_as(alloc, bytes, &mut pass),
    )
}

/// Appends a byte, and then bytes.
pub fn extended(
    window: &mut ArcBytesMut,
    byte: u8,
    bytes: &[u8],
) -> (
    Result<(), (TryReserveError, u8)>,
    Result<(), TryReserveError>,
) {
    let mut pass = window.pass();
    let pushed = window.try_push_as(byte, &mut pass);
    let mut pass = window.pass();
    (pushed, window.try_extend_from_slice_as(bytes, &mut pass))
}

/// Makes room for so many bytes more.
pub fn room_made(window: &mut ArcBytesMut, more: usize) -> (bool, Result<(), TryReserveError>) {
    let mut pass = window.pass();
    let found = window.try_reclaim_as(more, &mut pass);
    (found, window.try_reserve_as(more, &mut pass))
}

/// A window over a text, and a text appended to another one.
pub fn texts(
    alloc: Global,
    text: &str,
    other: &mut ArcStrMut,
    more: &str,
) -> (Result<ArcStrMut, AllocError>, Result<(), TryReserveError>)
    ensures { OnOk result.1 (other.new.items ≡ other.old.items ++ more.now) }
{
    let mut pass = Pass::none();
    let made = ArcStrMut::try_from_str_as(alloc, text, &mut pass);
    let mut pass = other.pass();
    (made, other.try_extend_from_str_as(more, &mut pass))
}

/// An array, moved in and out.
pub fn array(alloc: Global, bytes: [u8; 2]) -> Result<[u8; 2], ArcBytesMut>
    ensures { IfOk result (λ back. back ≡ bytes) }
{
    let mut pass = Pass::none();
    match ArcBytesMut::try_from_array_as(alloc, bytes, &mut pass) {
        Ok(window) => window.try_into_array_as(&mut pass),
        Err(bytes) => Ok(bytes),
    }
}

/// A vector, moved in and out.
pub fn vector(alloc: Global, bytes: Vec<u8>) -> Result<Vec<u8>, ArcBytesMut>
    ensures { IfOk result (λ back. back.items ≡ bytes.items) }
{
    let mut pass = Pass::none();
    match ArcBytesMut::try_from_vec_as(alloc, bytes, &mut pass) {
        Ok(window) => window.try_into_vec_as(&mut pass),
        Err(bytes) => Ok(bytes),
    }
}

/// The box of a window that has filled all places of a vector.
pub fn boxed(window: ArcBytesMut) -> Result<BoxedSlice<u8>, ArcBytesMut>
    ensures boxed { IfOk result (λ bytes. boxed_slice_items bytes ≡ window.items) }
    ensures back { IfErr result (λ back. back ≡ window) }
{
    let mut pass = window.pass();
    window.try_into_boxed_as(&mut pass)
}

/// A caller's buffer, moved in and out.
pub fn buffer(alloc: Global, bytes: Vec<u8>) -> Result<Vec<u8>, ArcBytesMut>
    ensures { IfOk result (λ back. back.items ≡ bytes.items) }
{
    let mut pass = Pass::none();
    match ArcBytesMut::try_from_buffer_as(alloc, bytes, &mut pass) {
        Ok(window) => window.try_into_buffer_as(&mut pass),
        Err(bytes) => Ok(bytes),
    }
}

/// A window over a caller's buffer that is written, with a name beside it.
pub fn named(alloc: Global, bytes: Vec<u8>, name: u64) -> Result<NamedMut, (Vec<u8>, u64)>
    ensures { IfErr result (λ back. back.1 ≡ name) }
{
    let mut pass = Pass::none();
    NamedMut::try_from_buffer_with_metadata_as(alloc, bytes, name, &mut pass)
}

/// A window under another layout, and a window that becomes one that is read.
pub fn turned(
    window: ArcBytesMut,
    other: ArcBytesMut,
) -> (
    Result<ArcBytesMut<VecLayout>, ArcBytesMut>,
    Result<ArcBytes, ArcBytesMut>,
)
    ensures moved { IfOk result.0 (λ moved. moved.items ≡ window.items) }
    ensures frozen { IfOk result.1 (λ frozen. frozen.items ≡ other.items) }
{
    let mut pass = window.pass();
    let moved = window.try_with_layout_as::<VecLayout>(&mut pass);
    let mut pass = other.pass();
    (moved, other.try_freeze_as::<DefaultLayout>(&mut pass))
}

/// Three ends. Each gives the block back without an atomic step.
pub fn ended(first: ArcBytesMut, second: ArcBytesMut, third: ArcBytesMut) -> Pass<Open> {
    let mut pass = first.pass();
    first.release_as(&mut pass);
    let mut pass = second.pass();
    second.drop_with_unique_hint_as(&mut pass);
    third.let_go()
}
