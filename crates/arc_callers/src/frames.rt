//! An example: a codec of frames, each a payload behind two bytes of its length. Frames are taken
//! off a buffer without a copy.
ghost use Rattle.std.specs.Prelude.{◌≡◌, IfErr, IfOk, OnErr, MatchOption};
ghost use Rattle.arc_callers.specs.Frames.{IsFrame, HasNoFrame, EndsAt};

use arc_slice::ArcBytes;
use arc_slice::error::OwnerError;
use std::alloc::Global;
use std::sync::Wait;

/// A window over bytes that are received, to take frames off. The vector comes back where memory is
/// refused.
pub fn receive(alloc: Global, received: Vec<u8>) -> Result<ArcBytes, Vec<u8>>
    ensures made { IfOk result (λ buffer. buffer.items ≡ received.items) }
    ensures refused { IfErr result (λ back. back.items ≡ received.items) }
{
    match ArcBytes::try_from_vec(alloc, received) {
        Ok(buffer) => Ok(buffer),
        Err(back) => Err(back),
    }
}

/// The bytes that are left, in the vector that was received, where all frames that were taken off
/// have ended. Else the window comes back.
pub fn into_rest(buffer: ArcBytes) -> Result<Vec<u8>, ArcBytes>
    ensures rest { IfOk result (λ rest. rest.items ≡ buffer.items) }
    ensures refused { IfErr result (λ back. back ≡ buffer) }
{
    match buffer.try_into_vec() {
        Ok(rest) => Ok(rest),
        Err(back) => Err(back),
    }
}

/// Where the first frame ends, if all of it is there.
#[tactic(auto, using(crate::proofs::Ends::no_head, crate::proofs::Ends::cut_short, crate::proofs::Ends::ends_at))]
fn frame_end(bytes: &[u8]) -> Option<usize>
    ensures { MatchOption result (HasNoFrame bytes.now) (EndsAt bytes.now) }
{
    let [high, low, more @ ..] = bytes else {
        return None;
    };
    let len = 256 * *high as usize + *low as usize;
    if more.len() < len {
        return None;
    }
    Some(2 + len)
}

/// Takes the payload of the first frame off a buffer, as a window on the same block. The buffer is
/// as it was where it has no whole frame, and where a window is refused.
pub fn take_frame(rt: &impl Wait, buffer: &mut ArcBytes) -> Result<Option<ArcBytes>, OwnerError>
    ensures taken { IfOk result (λ frame. MatchOption frame
        (HasNoFrame buffer.old.items × (buffer.new ≡ buffer.old))
        (λ payload. IsFrame buffer.old.items payload.items buffer.new.items)) }
    ensures refused { OnErr result (buffer.new ≡ buffer.old) }
{
    let Some(end) = frame_end(buffer.as_slice()) else {
        return Ok(None);
    };
    let mut frame = buffer.try_split_to(rt, end)?;
    frame.advance(2);
    Ok(Some(frame))
}
