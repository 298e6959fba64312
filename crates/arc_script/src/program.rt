//! The program: its words, its statuses, and its lines on standard error.
ghost use Rattle.std.specs.Prelude.{◌≡◌, ◌↔◌, ◌⊎◌, ℕ, List, IsTrue, Err, IfOk, MatchOption};
ghost use Rattle.std.specs.Prelude.{String, length, map, string_bytes};
ghost use Rattle.std.specs.declared.alloc.Global.{Global};
ghost use Rattle.std.specs.declared.env.FillError.TheVariants.{NotPresent};
ghost use Rattle.arc_script.specs.Arguments.{AreWords, IsTextOf, IsWord};
ghost use Rattle.arc_script.specs.Traffic.{Gives, GivesAll, Takes, Tells};
ghost use Rattle.arc_script.specs.Faults.{fault_text};
ghost use Rattle.arc_script.specs.Program.{AsksFor, AsksForNone, IsRun, RunsGiven};
ghost use Rattle.arc_script.specs.Program.{layout_word, status_of};
ghost use Rattle.arc_script.specs.Program.{usage_text};
ghost use Rattle.arc_script.specs.Storms.{AsksForStorm, IsStorm};

use crate::io::{Sink, Source};
use crate::layout::ScriptLayout;
use crate::script::{ScriptError, run_script, write_out};
use crate::storm::{Gate, OpenGate};
use arc_owners::error::AllocError;
use std::alloc::{Allocator, Global};
use std::env::FillError;
use std::rt::Env;
use std::str;
use std::sync::Wait;
use std::thread::Threads;
use storms::{run_storm, workers_of};

pub mod storms;

/// How many bytes are read of a word at most. Each word that the program knows is shorter.
const WORD: usize = 64;

/// The arguments with which a program is started.
pub trait Arguments {
    ghost use Rattle.std.specs.Io.{WritesAtMost};
    ghost use Rattle.arc_script.specs.Arguments.{Answer, filled};

    /// What `arg` may answer for an argument, by its number and the room that it gets.
    ghost answers: { Self → ℕ → ℕ → Answer → Type 0 };

    /// Writes argument `i` to the front of `buf`, and answers its length.
    ///
    /// # Errors
    ///
    /// `NotPresent` behind the last argument, `TooLong` where it has no room in `buf`.
    fn arg(&self, i: usize, buf: &mut [u8]) -> Result<usize, FillError>
        ensures bound { WritesAtMost result buf.new }
        ensures answer { answers self.now i (length buf.new) (filled result buf.new) };
}

/// The arguments that the system gives. Nothing is known of them but how long an answer is, as
/// std's contract says.
#[derive(Clone, Copy)]
pub struct OfSystem<'a, E> {
    /// What gives the system's arguments.
    pub env: &'a E,
}

impl<E: Env> Arguments for OfSystem<'_, E> {
    ghost answers = { λ _ i room answer. Unit {0} };

    fn arg(&self, i: usize, buf: &mut [u8]) -> Result<usize, FillError> {
        self.env.arg(i, buf)
    }
}

/// The line on standard error for a fault.
fn fault_line(error: ScriptError) -> &'static [u8]
    ensures { result.now ≡ fault_text error }
{
    match error {
        ScriptError::Alloc => b"allocation error\n",
        ScriptError::Read => b"read failed\n",
        ScriptError::Write => b"write failed\n",
    }
}

/// Writes a line to standard error. Where a write of it fails nothing is done about that.
fn tell<F: Sink>(faults: &mut F, line: &[u8])
    ensures told { Tells line.now (F.traffic faults.old) (F.traffic faults.new) }
    ensures line_taken { Takes (F.traffic faults.old) (F.traffic faults.new)
        (F.contents faults.old) (F.contents faults.new) }
{
    let _ = write_out(faults, line);
}

/// Writes the line of a fault to standard error, and answers the status of the fault. A write of
/// that line that fails changes no status.
fn report<F: Sink>(faults: &mut F, error: ScriptError) -> u8
    ensures status { result ≡ status_of (Err error) }
    ensures told { Tells (fault_text error) (F.traffic faults.old) (F.traffic faults.new) }
    ensures line_taken { Takes (F.traffic faults.old) (F.traffic faults.new)
        (F.contents faults.old) (F.contents faults.new) }
{
    tell(faults, fault_line(error));
    match error {
        ScriptError::Alloc => 1,
        ScriptError::Read => 3,
        ScriptError::Write => 4,
    }
}

/// Runs the program on its words, and answers its status:
///
/// - For one word that stands for a layout, `arc`, `boxed`, `vec` or `raw`, it runs the script that
///   the reader gives, with windows under that layout. The status is 0 where all of it was
///   answered, 1 where memory was refused, 3 where a read failed, and 4 where a write failed or
///   took nothing.
/// - For `storm` with a number from 1 to 64, so many threads clone one window and pass the gate. It
///   writes the vector that comes back, and reads no input. The status is 0 where that was written,
///   1 where something was refused, and 4 where the write failed or took nothing.
/// - For any other words it writes the usage to `faults`, reads no input, and answers 2.
///
/// On a fault it writes one line to `faults`.
///
/// # Allocates
///
/// As `run_script`, or as `storm`.
pub fn run_args<
    T: Threads + Wait + Sync + AllocGlobal,
    G: Gate + Sync,
    R: Source,
    W: Sink,
    F: Sink,
    A: Allocator + Copy,
>(
    rt: &T,
    gate: &G,
    alloc: A,
    words: &[String],
    reader: &mut R,
    writer: &mut W,
    faults: &mut F,
) -> u8
    ensures script { (layout : ScriptLayout) → AsksFor layout words.now
        → IsRun layout (R.traffic reader.old) (R.traffic reader.new) (W.traffic writer.old)
        (W.traffic writer.new) (F.traffic faults.old) (F.traffic faults.new) result }
    ensures given { Gives (R.traffic reader.old) (R.traffic reader.new)
        (R.remaining reader.old) (R.remaining reader.new) }
    ensures taken { Takes (W.traffic writer.old) (W.traffic writer.new)
        (W.contents writer.old) (W.contents writer.new) }
    ensures line_taken { Takes (F.traffic faults.old) (F.traffic faults.new)
        (F.contents faults.old) (F.contents faults.new) }
    ensures drained { result ≡ 0 → (R.traffic reader.new ≡ R.traffic reader.old)
        ⊎ GivesAll (R.traffic reader.old) (R.traffic reader.new) (R.remaining reader.old) }
    ensures storm { (workers : ℕ) → AsksForStorm workers words.now
        → (R.traffic reader.new ≡ R.traffic reader.old)
        × IsStorm (W.traffic writer.old) (W.traffic writer.new)
        (F.traffic faults.old) (F.traffic faults.new) result }
    ensures usage { AsksForNone words.now → (result ≡ 2)
        × (R.traffic reader.new ≡ R.traffic reader.old)
        × (W.traffic writer.new ≡ W.traffic writer.old)
        × Tells usage_text (F.traffic faults.old) (F.traffic faults.new) }
{
    let Some(layout) = layout_of(words) else {
        if let Some(workers) = workers_of(words) {
            return run_storm(rt, gate, workers, writer, faults);
        }
        tell(faults, b"usage: arcs arc|boxed|vec|raw|storm N\n");
        return 2;
    };
    match run_script(rt, alloc, reader, writer, layout) {
        Ok(()) => 0,
        Err(error) => report(faults, error),
    }
}

/// Whether the words are the one word for this layout.
fn asks_for(words: &[String], layout: ScriptLayout) -> bool
    ensures { IsTrue result ↔ AsksFor layout words.now }
{
    match words {
        [word] => word.as_str() == word_for(layout),
        _ => false,
    }
}

/// The word for a layout.
fn word_for(layout: ScriptLayout) -> &'static str
    ensures { result.now ≡ layout_word layout }
{
    match layout {
        ScriptLayout::Arc => "arc",
        ScriptLayout::Boxed => "boxed",
        ScriptLayout::Vec => "vec",
        ScriptLayout::Raw => "raw",
    }
}

/// The layout whose word is the only one of these, or `None`.
#[tactic(auto, using(crate::proofs::Layouts::asks_for_none))]
fn layout_of(words: &[String]) -> Option<ScriptLayout>
    ensures { MatchOption result ((layout : ScriptLayout) → ¬ AsksFor layout words.now)
        (λ layout. AsksFor layout words.now) }
{
    if asks_for(words, ScriptLayout::Arc) {
        return Some(ScriptLayout::Arc);
    }
    if asks_for(words, ScriptLayout::Boxed) {
        return Some(ScriptLayout::Boxed);
    }
    if asks_for(words, ScriptLayout::Vec) {
        return Some(ScriptLayout::Vec);
    }
    if asks_for(words, ScriptLayout::Raw) {
        return Some(ScriptLayout::Raw);
    }
    None
}

/// The bytes as text; empty where they aren't UTF-8.
fn text_of(bytes: &[u8]) -> &str
    ensures { IsTextOf bytes.now result.now }
{
    match str::from_utf8(bytes) {
        Ok(text) => text,
        Err(_) => "",
    }
}

/// The word of argument `i`, or `None` where there is no such argument.
fn word<G: Arguments>(given: &G, alloc: Global, i: usize) -> Result<Option<String>, AllocError>
    ensures { IfOk result (λ found. MatchOption found
        (G.answers given.now i WORD (Err NotPresent))
        (λ word. IsWord (G.answers given.now i WORD) (string_bytes word))) }
{
    let mut buf = [0u8; WORD];
    match given.arg(i, &mut buf) {
        Ok(len) => Ok(Some(String::from_str(alloc, text_of(&buf[..len]))?)),
        Err(FillError::TooLong) => Ok(Some(String::new(alloc))),
        Err(FillError::NotPresent) => Ok(None),
    }
}

/// The words behind the program's name, in their order. An empty word stands for one that isn't
/// UTF-8, or for which 64 bytes aren't enough.
///
/// # Errors
///
/// `AllocError` where memory is refused for them.
///
/// # Allocates
///
/// Once for each word, and for their list.
pub fn words<G: Arguments>(given: &G, alloc: Global) -> Result<Vec<String>, AllocError>
    ensures { IfOk result (λ words. AreWords (λ i. G.answers given.now i WORD)
        (map string_bytes words.items)) }
{
    let mut words = Vec::new(alloc);
    'words: for i in 1..usize::MAX {
        let Some(word) = word(given, alloc, i)? else {
            return Ok(words);
        };
        words.push(word)?;
    }
    unreachable!()
}

/// Runs the program on the words that it was given, as `run_args` says, with an `OpenGate`, and
/// answers its status. Where memory is refused for the words, the status is 1, and the line of that
/// fault is written to `faults`.
///
/// # Allocates
///
/// For the words, and as `run_args`.
pub fn start<T: Threads + Wait + Sync + AllocGlobal, G: Arguments, R: Source, W: Sink, F: Sink>(
    rt: &T,
    alloc: Global,
    given: &G,
    reader: &mut R,
    writer: &mut W,
    faults: &mut F,
) -> u8
    ensures ran { RunsGiven (λ i. G.answers given.now i WORD) (R.traffic reader.old)
        (R.traffic reader.new) (W.traffic writer.old) (W.traffic writer.new)
        (F.traffic faults.old) (F.traffic faults.new) result }
    ensures given { Gives (R.traffic reader.old) (R.traffic reader.new)
        (R.remaining reader.old) (R.remaining reader.new) }
    ensures taken { Takes (W.traffic writer.old) (W.traffic writer.new)
        (W.contents writer.old) (W.contents writer.new) }
    ensures line_taken { Takes (F.traffic faults.old) (F.traffic faults.new)
        (F.contents faults.old) (F.contents faults.new) }
    ensures drained { result ≡ 0 → (R.traffic reader.new ≡ R.traffic reader.old)
        ⊎ GivesAll (R.traffic reader.old) (R.traffic reader.new) (R.remaining reader.old) }
{
    match words(given, alloc) {
        Ok(words) => run_args(rt, &OpenGate, alloc, &words, reader, writer, faults),
        Err(_) => report(faults, ScriptError::Alloc),
    }
}
