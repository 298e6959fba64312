//! An example: frames are written into one buffer, which is then read and handed out frame by
//! frame. No frame is copied.
ghost use Rattle.std.specs.Prelude.{◌≡◌, ◌≤◌, ◌+◌, ◌++◌, ◌∷◌, ◌↔◌, [], length, IfOk, OnOk, OnErr};
ghost use Rattle.std.specs.Prelude.{Err};
ghost use Rattle.arc_parts.specs.Writers.{capacity_of};
ghost use Rattle.arc_callers.specs.Frames.{IsFrame, IsAppended};
ghost use Rattle.arc_callers.specs.declared.encoder.EncodeError.TheVariants.{TooLong};

use arc_slice::error::{OwnerError, TryReserveError};
use arc_slice::layout::DefaultLayout;
use arc_slice::{ArcBytes, ArcBytesMut};
use std::alloc::Global;
use std::sync::Wait;

/// Why frames aren't written.
#[derive(Drop)]
pub enum EncodeError {
    /// A payload is longer than two bytes can say.
    TooLong,
    /// There is no room for a frame.
    Room(TryReserveError),
    /// A frame isn't handed out.
    Owner(OwnerError),
}

/// Appends a frame of the payload. Where it is refused, the bytes before stay.
#[tactic(auto, using(crate::proofs::Encoded::appended))]
fn put_frame(buffer: &mut ArcBytesMut, payload: &[u8]) -> Result<(), EncodeError>
    ensures put { OnOk result (IsAppended buffer.old.items buffer.new.items payload.now) }
    ensures refused { OnErr result (buffer.new.items ≡ buffer.old.items) }
    ensures long { (result ≡ Err TooLong) ↔ (65536 ≤ length payload.now) }
{
    let len = payload.len();
    if len > 65535 {
        return Err(EncodeError::TooLong);
    }
    match buffer.try_reserve(2 + len) {
        Ok(()) => {}
        Err(e) => return Err(EncodeError::Room(e)),
    }
    push_within(buffer, (len / 256) as u8);
    push_within(buffer, (len % 256) as u8);
    extend_within(buffer, payload);
    Ok(())
}

/// Appends a byte, where there is a place for it.
#[tactic(auto, using(crate::proofs::Encoded::room_spare))]
fn push_within(buffer: &mut ArcBytesMut, byte: u8)
    requires { length buffer.old.items + 1 ≤ capacity_of buffer.old.role }
    ensures items { buffer.new.items ≡ buffer.old.items ++ byte ∷ [] }
    ensures places { capacity_of buffer.new.role ≡ capacity_of buffer.old.role }
{
    match buffer.try_push(byte) {
        Ok(()) => {}
        Err(_) => unreachable!(),
    }
}

/// Appends bytes, where there are places for them.
#[tactic(auto, using(crate::proofs::Encoded::room_spare))]
fn extend_within(buffer: &mut ArcBytesMut, bytes: &[u8])
    requires { length buffer.old.items + length bytes.now ≤ capacity_of buffer.old.role }
    ensures { buffer.new.items ≡ buffer.old.items ++ bytes.now }
{
    match buffer.try_extend_from_slice(bytes) {
        Ok(()) => {}
        Err(_) => unreachable!(),
    }
}

/// The frames of two payloads, as windows on one block.
#[tactic(auto, using(crate::proofs::Encoded::front_framed, crate::proofs::Encoded::back_framed))]
pub fn encode(
    rt: &impl Wait,
    alloc: Global,
    first: &[u8],
    second: &[u8],
) -> Result<(ArcBytes, ArcBytes), EncodeError>
    ensures first { IfOk result (λ frames. IsFrame frames.0.items first.now []) }
    ensures second { IfOk result (λ frames. IsFrame frames.1.items second.now []) }
{
    let mut buffer: ArcBytesMut = ArcBytesMut::new(alloc);
    put_frame(&mut buffer, first)?;
    let end = buffer.len();
    put_frame(&mut buffer, second)?;
    let Ok(mut front) = buffer.try_freeze::<DefaultLayout>() else {
        unreachable!()
    };
    match front.try_split_off(rt, end) {
        Ok(back) => Ok((front, back)),
        Err(e) => Err(EncodeError::Owner(e)),
    }
}
