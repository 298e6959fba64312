//! The program's word for a storm of clones: how many threads it asks for, and what is written.
ghost use Rattle.std.specs.Prelude.{◌≡◌, ◌++◌, ◌∷◌, [], ℕ, ◌<◌, ◌≤◌, MatchOption, String};
ghost use Rattle.std.specs.declared.alloc.Global.{Global};
ghost use Rattle.arc_forms.specs.Text.{hex, line_feed};
ghost use Rattle.arc_script.specs.Traffic.{Takes};
ghost use Rattle.arc_script.specs.Storms.{AsksForStorm, IsStorm, storm_fault_text};

use super::{report, tell};
use crate::io::Sink;
use crate::script::write_out;
use crate::storm::{Gate, StormError, storm};
use arc_forms::parse::number_in;
use arc_forms::text::digit_of;
use arc_owners::error::OwnerError;
use std::sync::Wait;
use std::thread::Threads;

/// The most threads for which the program may be asked.
const MOST_WORKERS: usize = 64;

/// The number of threads for which the words ask, or `None` where they ask for no storm.
pub(crate) fn workers_of(words: &[String]) -> Option<usize>
    ensures { MatchOption result
        ((workers : ℕ) → ¬ AsksForStorm workers words.now)
        (λ workers. AsksForStorm workers words.now) }
{
    let [word, number] = words else {
        return None;
    };
    if word.as_str() != "storm" {
        return None;
    }
    let Some(workers) = number_in(number.as_bytes()) else {
        return None;
    };
    if workers < 1 {
        return None;
    }
    if workers > MOST_WORKERS {
        return None;
    }
    Some(workers)
}

/// The line on standard error for a refusal.
fn refusal_line(error: StormError) -> &'static [u8]
    ensures { result.now ≡ storm_fault_text error }
{
    match error {
        StormError::Owner(OwnerError::AllocError) => b"allocation error\n",
        StormError::Owner(OwnerError::CountFull) => b"count full\n",
        StormError::Thread => b"no thread\n",
        StormError::Taken => b"not alone\n",
    }
}

/// An item as a line: its two hex digits, and a line feed.
fn item_line(item: u8) -> [u8; 3]
    ensures { result ≡ hex (item ∷ []) ++ line_feed ∷ [] }
{
    [digit_of(item / 16), digit_of(item % 16), b'\n']
}

/// Lets `workers` threads, from 1 to 64, clone one window and pass the gate, as `storm` says. It
/// writes the vector that comes back, and answers the program's status: 0 where that was written, 1
/// where something was refused, and 4 where the write failed or took nothing. On a fault it writes
/// one line to `faults`.
///
/// # Allocates
///
/// For the vector, for its window and for the list of threads.
pub fn run_storm<R: Threads + Wait + Sync + AllocGlobal, G: Gate + Sync, W: Sink, F: Sink>(
    rt: &R,
    gate: &G,
    workers: usize,
    writer: &mut W,
    faults: &mut F,
) -> u8
    requires some { 1 ≤ workers }
    requires most { workers ≤ 64 }
    ensures ran { IsStorm (W.traffic writer.old) (W.traffic writer.new)
        (F.traffic faults.old) (F.traffic faults.new) result }
    ensures taken { Takes (W.traffic writer.old) (W.traffic writer.new)
        (W.contents writer.old) (W.contents writer.new) }
    ensures line_taken { Takes (F.traffic faults.old) (F.traffic faults.new)
        (F.contents faults.old) (F.contents faults.new) }
{
    match storm(rt, rt.alloc(), workers, gate) {
        Ok(bytes) => match write_out(writer, &item_line(bytes[0])) {
            Ok(()) => 0,
            Err(error) => report(faults, error),
        },
        Err(error) => {
            tell(faults, refusal_line(error));
            1
        }
    }
}
