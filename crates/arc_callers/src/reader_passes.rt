//! Calls of readers with a pass of the window's block. In the pass contracts see what the calls add
//! to the history of its owners. Each call goes on where the last one ended; a plain form takes a
//! new pass.
ghost use Rattle.std.specs.Prelude.{◌≡◌, ◌≤◌, ◌++◌, Bool, length, take, IfOk, IfErr, IfSome};
ghost use Rattle.std.specs.Prelude.{OnOk, OnErr};
ghost use Rattle.std.specs.Int.{w16, from_be_bytes};
ghost use Rattle.std.specs.Box.{boxed_slice_items};
ghost use Rattle.arc_owners.specs.count.Calls.{IsPassOfNone, Leaves};
ghost use Rattle.arc_block.specs.Place.{at_owner};
ghost use Rattle.arc_parts.specs.Steps.{IsPassAt};

use arc_slice::buffer::Plain;
use arc_slice::error::{AllocError, OwnerError};
use arc_slice::layout::{DefaultLayout, DefaultLayoutMut, VecLayout};
use arc_slice::{ArcBytes, ArcBytesMut, ArcSlice, ArcStr, IntoMut, Open, Pass, Whole};
use bytes::Buf;
use std::alloc::Global;
use std::boxed::BoxedSlice;
use std::io;
use std::sync::{Arc, Wait};

/// Windows on a block that has one pass, which has seen its whole history.
pub type WholeBytes = ArcBytes<DefaultLayout, Vec<u8>, (), Global, Whole>;

/// Windows over vectors with a name beside them.
pub type Named = ArcBytes<DefaultLayout, Vec<u8>, u64>;

/// A new pass of the window's block, which has learnt what another one has seen.
pub fn learnt(window: &ArcBytes) -> Pass<Open> {
    let mut pass = window.pass();
    let other = window.pass();
    window.learn(&mut pass, &other);
    pass
}

/// Calls on windows that stand on no block leave the pass as it is.
pub fn called_on_no_block(
    rt: &impl Wait,
    alloc: Global,
    pass: Pass<Open>,
) -> Result<Pass<Open>, OwnerError>
    requires { IsPassOfNone pass }
    ensures { IfOk result (λ after. after ≡ pass) }
{
    let mut pass = pass;
    let none: ArcSlice<Plain<u32>> = ArcSlice::new(alloc);
    let clone = none.try_clone_as(rt, &mut pass)?;
    none.release_as(&mut pass);
    clone.drop_with_unique_hint_as(&mut pass);
    Ok(pass)
}

/// A copy that is asked whether it is alone, and then ends.
pub fn copied(alloc: Global, bytes: &[u8]) -> Result<bool, AllocError> {
    let mut pass = Pass::none();
    match ArcBytes::<DefaultLayout>::try_from_slice_as(alloc, bytes, &mut pass) {
        Ok(window) => {
            let is_alone = window.is_unique_as(&mut pass);
            window.let_go();
            Ok(is_alone)
        }
        Err(e) => Err(e),
    }
}

/// A text under the layout of vectors.
pub fn text(alloc: Global, text: &str) -> Option<ArcStr<VecLayout>> {
    let mut pass = Pass::none();
    match ArcStr::<DefaultLayout>::try_from_str_as(alloc, text, &mut pass) {
        Ok(window) => window.try_with_layout_as::<VecLayout>(&mut pass).ok(),
        Err(_) => None,
    }
}

/// An array, moved in and out. Under `Whole` a window that is dropped is a forgotten owner, so one
/// that isn't taken out is released.
pub fn array(alloc: Global, bytes: [u8; 2]) -> Result<[u8; 2], WholeBytes>
    ensures { IfOk result (λ back. back ≡ bytes) }
{
    let mut pass = Pass::none();
    match WholeBytes::try_from_array_as(alloc, bytes, &mut pass) {
        Ok(window) => window.try_into_array_as(&mut pass),
        Err(bytes) => Ok(bytes),
    }
}

/// A vector, moved in and out.
pub fn vector(alloc: Global, bytes: Vec<u8>) -> Result<Vec<u8>, ArcBytes>
    ensures { IfOk result (λ back. back.items ≡ bytes.items) }
{
    let mut pass = Pass::none();
    match ArcBytes::try_from_vec_as(alloc, bytes, &mut pass) {
        Ok(window) => window.try_into_vec_as(&mut pass),
        Err(bytes) => Ok(bytes),
    }
}

/// A box, moved in and out.
pub fn boxed(alloc: Global, bytes: BoxedSlice<u8>) -> Result<BoxedSlice<u8>, ArcBytes>
    ensures { IfOk result (λ back. boxed_slice_items back ≡ boxed_slice_items bytes) }
{
    let mut pass = Pass::none();
    match ArcBytes::try_from_boxed_as(alloc, bytes, &mut pass) {
        Ok(window) => window.try_into_boxed_as(&mut pass),
        Err(bytes) => Ok(bytes),
    }
}

/// A vector as a caller's buffer, moved in and out.
pub fn buffer(alloc: Global, bytes: Vec<u8>) -> Result<Vec<u8>, ArcBytes>
    ensures { IfOk result (λ back. back.items ≡ bytes.items) }
{
    let mut pass = Pass::none();
    match ArcBytes::try_from_buffer_as(alloc, bytes, &mut pass) {
        Ok(window) => window.try_into_buffer_as(&mut pass),
        Err(bytes) => Ok(bytes),
    }
}

/// A window over a vector as a caller's buffer, with a name beside it.
pub fn named(alloc: Global, bytes: Vec<u8>, name: u64) -> Result<Named, (Vec<u8>, u64)>
    ensures { IfErr result (λ back. back.1 ≡ name) }
{
    let mut pass = Pass::none();
    Named::try_from_buffer_with_metadata_as(alloc, bytes, name, &mut pass)
}

/// A vector behind an `Arc`, moved in and out.
pub fn arc(alloc: Global, shared: Arc<Vec<u8>>) -> Result<Arc<Vec<u8>>, ArcBytes> {
    let mut pass = Pass::none();
    match ArcBytes::try_from_raw_buffer_as(alloc, shared, &mut pass) {
        Ok(window) => window.try_into_raw_buffer_as(&mut pass),
        Err(shared) => Ok(shared),
    }
}

/// Ends a reader of a vector, with the pass of its block: the last owner gets the vector.
pub fn vector_if_last(window: WholeBytes, pass: &mut Pass<Whole>) -> Option<Vec<u8>>
    requires { IsPassAt window.place pass.old }
    ensures { IfSome result (λ bytes. bytes.items ≡ window.items) }
{
    match window.into_vec_if_last_as(pass) {
        Ok(last) => last,
        Err(window) => {
            window.release_as(pass);
            None
        }
    }
}

/// A box, moved in and out: its only owner is the last one.
pub fn boxed_if_last(alloc: Global, bytes: BoxedSlice<u8>) -> Option<BoxedSlice<u8>>
    ensures { IfSome result (λ back. boxed_slice_items back ≡ boxed_slice_items bytes) }
{
    let mut pass = Pass::none();
    match ArcBytes::<DefaultLayout>::try_from_boxed_as(alloc, bytes, &mut pass) {
        Ok(window) => match window.into_boxed_if_last_as(&mut pass) {
            Ok(last) => last,
            Err(_) => None,
        },
        Err(bytes) => Some(bytes),
    }
}

/// A caller's buffer, moved in and out: its only owner is the last one.
pub fn buffer_if_last(alloc: Global, bytes: Vec<u8>) -> Option<Vec<u8>>
    ensures { IfSome result (λ back. back.items ≡ bytes.items) }
{
    let mut pass = Pass::none();
    match ArcBytes::<DefaultLayout>::try_from_buffer_as(alloc, bytes, &mut pass) {
        Ok(window) => match window.into_buffer_if_last_as(&mut pass) {
            Ok(last) => last,
            Err(_) => None,
        },
        Err(bytes) => Some(bytes),
    }
}

/// A vector behind an `Arc`, moved in and out: its only owner is the last one.
pub fn arc_if_last(alloc: Global, shared: Arc<Vec<u8>>) -> Option<Arc<Vec<u8>>> {
    let mut pass = Pass::none();
    match ArcBytes::<DefaultLayout>::try_from_raw_buffer_as(alloc, shared, &mut pass) {
        Ok(window) => match window.into_raw_buffer_if_last_as(&mut pass) {
            Ok(last) => last,
            Err(_) => None,
        },
        Err(shared) => Some(shared),
    }
}

/// The first four bytes as a window, and the rest as one, by a part that is borrowed.
pub fn parts(
    rt: &impl Wait,
    window: &ArcBytes,
) -> (Result<ArcBytes, OwnerError>, Result<ArcBytes, OwnerError>)
    requires { 4 ≤ length window.now.items }
{
    let mut pass = window.pass();
    let part = window.try_subslice_as(rt, 0, 4, &mut pass);
    let mut pass = window.pass();
    let end = window.len();
    (part, window.borrow(4, end).try_clone_arc_as(rt, &mut pass))
}

/// Hands out the back of a window.
pub fn back_given(rt: &impl Wait, window: &mut ArcBytes) -> Result<ArcBytes, OwnerError>
    requires { 4 ≤ length window.old.items }
    ensures { IfOk result (λ back. window.old.items ≡ window.new.items ++ back.items) }
{
    let mut pass = window.pass();
    window.try_split_off_as(rt, 4, &mut pass)
}

/// Hands out the front of a window.
pub fn front_given(rt: &impl Wait, window: &mut ArcBytes) -> Result<ArcBytes, OwnerError>
    requires { 4 ≤ length window.old.items }
    ensures { IfOk result (λ front. window.old.items ≡ front.items ++ window.new.items) }
{
    let mut pass = window.pass();
    window.try_split_to_as(rt, 4, &mut pass)
}

/// A window that is to be written again, where no other lives.
pub fn writable(window: ArcBytes) -> Result<ArcBytesMut, ArcBytes>
    ensures writer { IfOk result (λ writer. writer.items ≡ window.items) }
    ensures reader { IfErr result (λ back. back ≡ window) }
{
    let mut pass = window.pass();
    window.try_into_mut_as::<DefaultLayoutMut>(&mut pass)
}

/// The number that a window begins with, after which the window ends. Its owner is still known: it
/// adds one Down.
pub fn number_and_end(mut window: WholeBytes, pass: &mut Pass<Whole>) -> u16
    requires long { 2 ≤ length window.items }
    requires pass { IsPassAt window.place pass.old }
    ensures value { result ≡ from_be_bytes w16 (take 2 window.items) }
    ensures entry { at_owner window.place (pass.new ≡ pass.old) (λ o. (last : Bool)
        × Leaves o pass.old pass.new last) }
{
    let number = window.get_u16();
    window.known_after_reads();
    window.release_as(pass);
    number
}

/// Moves the bytes of a window behind those of a vector, after which the window ends: after the
/// read the pass is still one of its block.
pub fn read_out_and_end(
    mut window: WholeBytes,
    bytes: &mut Vec<u8>,
    pass: &mut Pass<Whole>,
) -> io::Result<usize>
    requires { IsPassAt window.place pass.old }
    ensures ok { OnOk result (bytes.new.items ≡ bytes.old.items ++ window.items) }
    ensures err { OnErr result (bytes.new.items ≡ bytes.old.items) }
    ensures entry { at_owner window.place (pass.new ≡ pass.old) (λ o. (last : Bool)
        × Leaves o pass.old pass.new last) }
{
    let count = window.read_to_end(bytes);
    window.release_as(pass);
    count
}
