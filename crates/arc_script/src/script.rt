//! Running a script: lines from a reader, replies to a writer.
ghost use Rattle.std.specs.Prelude.{◌≡◌, ◌<◌, ◌≤◌, ◌+◌, ◌++◌, ◌∷◌, List, ℕ, [], false, length};
ghost use Rattle.std.specs.Prelude.{take, drop, OnOk, OnErr, IfOk, IfErr, IfSome, MatchOption};
ghost use Rattle.std.specs.Prelude.{Option, Some, true, vec_len};
ghost use Rattle.arc_forms.specs.Text.{line_feed};
ghost use Rattle.arc_script.specs.Script.{AnswersWhole, AreLines, BeginsReplyText, BreaksOff};
ghost use Rattle.arc_script.specs.Script.{HasNoFeed, IsReplyText, OfWholeLines};
ghost use Rattle.arc_block.specs.Owned.{IsKept};
ghost use Rattle.arc_block.specs.declared.block.TheConstants.{MAX_OWNERS};
ghost use Rattle.arc_script.specs.State.{CarriesOutSaid};
ghost use Rattle.arc_script.specs.Script.{lends, script_setting};
ghost use Rattle.arc_forms.specs.Seen.{line_command};
ghost use Rattle.arc_forms.specs.Commands.{ByteReply};
ghost use Rattle.std.specs.Option.{option_map};
ghost use Rattle.arc_script.specs.Underway.{AnswersInto, IsBrokenOff, IsThrough, ThenEnds};
ghost use Rattle.std.specs.Io.KnownBytes.{IsAtEnd};
ghost use Rattle.arc_script.specs.Traffic.{Exchanges, Gives, GivesAll, NoFault, Takes, TakesFront};
ghost use Rattle.arc_script.specs.Traffic.{Traffic, faults};
ghost use Rattle.arc_script.specs.Faults.{IsCause, IsWhy};
ghost use Rattle.arc_forms.specs.declared.parse.TheConstants.{LONGEST_LINE};
ghost use Rattle.arc_script.specs.declared.script.ScriptError.TheVariants as script_error;

use crate::io::{Sink, Source};
use crate::layout::{NamedLayout, ScriptLayout};
use arc_block::layout::{BoxedSliceLayout, DefaultLayout, LayoutMut, RawLayout, VecLayout};
use arc_buffer::kinds::Plain;
use arc_commands::command::Cmd;
use arc_forms::parse::{Command, LONGEST_LINE, parse, parse_usual};
use arc_forms::text::{push_answer, push_bad_line};
use arc_owners::error::AllocError;
use arc_table::passes::Passes;
use arc_table::table::Table;
use memchr::memchr;
use std::alloc::Allocator;
use std::sync::Wait;
use thiserror::Error;

/// The most bytes that one call reads. Replies that are held are written once they have so many
/// bytes.
const PIECE: usize = 65536;

/// Why a script isn't run to its end.
#[derive(Clone, Copy, Debug, PartialEq, Eq, Error)]
pub enum ScriptError {
    /// A read fails.
    #[error("read failed")]
    Read,
    /// A write fails, or takes nothing.
    #[error("write failed")]
    Write,
    /// Memory is refused: for a piece of the input, for a line, for its items or for replies.
    #[error("allocation error")]
    Alloc,
}

impl From<AllocError> for ScriptError {
    ghost from_gives = { λ _ e. e ≡ script_error.Alloc };

    fn from(_: AllocError) -> Self {
        ScriptError::Alloc
    }
}

/// Writes the bytes, in as many calls as that takes.
///
/// # Errors
///
/// `Write` where a call fails or takes nothing. The calls before it took a beginning of the bytes.
pub fn write_out<W: Sink>(writer: &mut W, bytes: &[u8]) -> Result<(), ScriptError>
    ensures ok { OnOk result
        ((W.traffic writer.new).bytes ≡ (W.traffic writer.old).bytes ++ bytes.now) }
    ensures taken { Takes (W.traffic writer.old) (W.traffic writer.new)
        (W.contents writer.old) (W.contents writer.new) }
    ensures clean { OnOk result (NoFault (W.traffic writer.old) (W.traffic writer.new)) }
    ensures err { OnErr result
        (TakesFront bytes.now (W.traffic writer.old) (W.traffic writer.new)) }
    ensures write { IfErr result (λ e. e ≡ ScriptError.Write) }
    ensures fault { OnErr result
        (faults (W.traffic writer.new) ≡ faults (W.traffic writer.old) + 1) }
{
    let mut rest = bytes;
    while !rest.is_empty() {
        match writer.write(rest) {
            Ok(0) | Err(_) => return Err(ScriptError::Write),
            Ok(n) => rest = &rest[n..],
        }
    }
    Ok(())
}

/// The windows of a script, over bytes.
type ByteTable<L, A> = Table<Plain<u8>, L, Vec<u8, A>, u64, A>;

/// Carries out a command that doesn't only lend, and appends what it is answered.
#[inline(always)]
fn answer_command<L: NamedLayout, A: Allocator + Copy>(
    table: &mut ByteTable<L, A>,
    rt: &impl Wait,
    command: Command<A>,
    out: &mut Vec<u8, A>,
) -> Result<(), AllocError>
where
    L::Writable: LayoutMut,
    requires { lends (line_command command) ≡ false }
    ensures ok { OnOk result (AnswersInto L.named (Some (line_command command)) table.old table.new
        out.old.items out.new.items) }
    ensures err { OnErr result (out.new.items ≡ out.old.items) }
    ensures broken { OnErr result ((reply : Option ByteReply)
        × CarriesOutSaid L.named table.old (Some (line_command command)) reply table.new) }
{
    let reply = table.step_here(rt, command);
    push_answer(out, &reply)
}

/// Carries out the command of a line, and appends the text of its reply to `out`. For a line that
/// says none, it appends `bad line`. The items of a `show` go from the window into the text,
/// without a copy between.
///
/// # Errors
///
/// `AllocError` where memory is refused for that text, of which nothing is appended then. The
/// command is carried out.
#[inline(always)]
fn answer<L: NamedLayout, A: Allocator + Copy>(
    table: &mut ByteTable<L, A>,
    rt: &impl Wait,
    said: Option<Command<A>>,
    out: &mut Vec<u8, A>,
) -> Result<(), AllocError>
where
    L::Writable: LayoutMut,
    ensures ok { OnOk result (AnswersInto L.named (option_map line_command said) table.old table.new
        out.old.items out.new.items) }
    ensures err { OnErr result (out.new.items ≡ out.old.items) }
    ensures broken { OnErr result ((reply : Option ByteReply)
        × CarriesOutSaid L.named table.old (option_map line_command said) reply table.new) }
{
    match said {
        Some(Cmd::Show { window }) => push_answer(out, &table.show_in_place(window)),
        Some(Cmd::Drop { window }) => answer_command(table, rt, Cmd::Drop { window }, out),
        Some(Cmd::Clone { window }) => answer_command(table, rt, Cmd::Clone { window }, out),
        Some(Cmd::Sub { window, start, end }) => {
            answer_command(table, rt, Cmd::Sub { window, start, end }, out)
        }
        Some(command) => answer_said(table, rt, Some(command), out),
        None => push_bad_line(out),
    }
}

/// `answer`, for callers that don't know which command the line says.
#[inline(always)]
fn answer_said<L: NamedLayout, A: Allocator + Copy>(
    table: &mut ByteTable<L, A>,
    rt: &impl Wait,
    said: Option<Command<A>>,
    out: &mut Vec<u8, A>,
) -> Result<(), AllocError>
where
    L::Writable: LayoutMut,
    ensures ok { OnOk result (AnswersInto L.named (option_map line_command said) table.old table.new
        out.old.items out.new.items) }
    ensures err { OnErr result (out.new.items ≡ out.old.items) }
    ensures broken { OnErr result ((reply : Option ByteReply)
        × CarriesOutSaid L.named table.old (option_map line_command said) reply table.new) }
{
    match said {
        Some(command) => {
            if let Cmd::Show { window } = command {
                return push_answer(out, &table.show_in_place(window));
            }
            let reply = table.step(rt, command);
            push_answer(out, &reply)
        }
        None => push_bad_line(out),
    }
}

/// A script that is being run: its windows, what is held of a line, and the replies that are not
/// yet written. It can't be dropped: it ends by `end`, which ends its windows.
///
/// Each of its methods begins with the table's `agree`, which does nothing. That call names the
/// types of the table's kind, as the borrow checker asks.
struct Engine<L: NamedLayout, A: Allocator + Copy>
where
    L::Writable: LayoutMut,
{
    table: ByteTable<L, A>,
    line: Vec<u8, A>,
    too_long: bool,
    out: Vec<u8, A>,
    alloc: A,
    ghost short: { vec_len line ≤ LONGEST_LINE },
}

impl<L: NamedLayout, A: Allocator + Copy> Engine<L, A>
where
    L::Writable: LayoutMut,
{
    ghost use Rattle.std.specs.Prelude.{◌≡◌};
    ghost use Rattle.arc_block.specs.Owned.{IsKept};
    ghost use Rattle.arc_block.specs.declared.block.TheConstants.{MAX_OWNERS};
    ghost use Rattle.arc_forms.specs.Seen.{IsReadAs};
    ghost use Rattle.arc_commands.specs.State.{EndsWith, empty_state};
    ghost use Rattle.arc_script.specs.Underway.{Holds, Ends, MayEnd, IsAnswered, IsBegun};
    ghost use Rattle.arc_script.specs.Script.{HasNoFeed};
    ghost use Rattle.arc_script.specs.Engine.{HasRead, IsRunning, Reads, Stops};

    fn new(alloc: A) -> Self
        ensures windows { result.table ≡ empty_state }
        ensures line { (result.line.items ≡ []) × (result.too_long ≡ false) }
        ensures out { result.out.items ≡ [] }
    {
        Engine {
            table: Table::new(alloc),
            line: Vec::new(alloc),
            too_long: false,
            out: Vec::new(alloc),
            alloc,
        }
    }

    /// Holds the bytes as more of the line. Of a line of more than `LONGEST_LINE` bytes it holds
    /// only that it is too long.
    fn hold(&mut self, bytes: &[u8]) -> Result<(), AllocError>
        ensures ok { OnOk result ((line : List ℕ) → Holds self.old.line.items self.old.too_long line
            → Holds self.new.line.items self.new.too_long (line ++ bytes.now)) }
        ensures windows { self.new.table ≡ self.old.table }
        ensures out { self.new.out.items ≡ self.old.out.items }
    {
        self.table.agree();
        if self.too_long || bytes.len() > LONGEST_LINE - self.line.len() {
            self.too_long = true;
            self.line.clear();
        } else {
            self.line.extend_from_slice(bytes)?;
        }
        Ok(())
    }

    /// Reads the line that is held as a command, or as `None` where it says none.
    fn read_line(&self) -> Result<Option<Command<A>>, AllocError>
        ensures { IfOk result (λ said. (line : List ℕ)
            → Holds self.now.line.items self.now.too_long line → IsReadAs line said) }
    {
        self.table.agree();
        if self.too_long {
            return Ok(None);
        }
        parse(self.alloc, &self.line)
    }

    /// Answers the line that is held. Then none is held.
    #[inline(never)]
    fn end_line(&mut self, rt: &impl Wait) -> Result<(), AllocError>
        ensures ok { OnOk result
            (Ends L.named self.old.line.items self.old.too_long self.old.table
            self.new.table self.old.out.items self.new.out.items) }
        ensures line { OnOk result ((self.new.line.items ≡ []) × (self.new.too_long ≡ false)) }
        ensures err { OnErr result (self.new.out.items ≡ self.old.out.items) }
        ensures broken { OnErr result
            (MayEnd L.named self.old.line.items self.old.too_long self.old.table
            self.new.table) }
    {
        self.table.agree();
        let said = self.read_line()?;
        answer_said(&mut self.table, rt, said, &mut self.out)?;
        self.line.clear();
        self.too_long = false;
        Ok(())
    }

    /// Answers a line that isn't held, whatever it says.
    #[inline(never)]
    fn answer_any(&mut self, rt: &impl Wait, line: &[u8]) -> Result<(), AllocError>
        ensures ok { OnOk result (Ends L.named line.now false self.old.table self.new.table
            self.old.out.items self.new.out.items) }
        ensures line { (self.new.line.items ≡ self.old.line.items)
            × (self.new.too_long ≡ self.old.too_long) }
        ensures err { OnErr result (self.new.out.items ≡ self.old.out.items) }
        ensures broken { OnErr result
            (MayEnd L.named line.now false self.old.table self.new.table) }
    {
        self.table.agree();
        let said = parse(self.alloc, line)?;
        answer_said(&mut self.table, rt, said, &mut self.out)
    }

    /// Answers a line that isn't held. The line that is held stays as it is.
    #[inline(always)]
    fn answer_in_place(&mut self, rt: &impl Wait, line: &[u8]) -> Result<(), AllocError>
        ensures ok { OnOk result (Ends L.named line.now false self.old.table self.new.table
            self.old.out.items self.new.out.items) }
        ensures line { (self.new.line.items ≡ self.old.line.items)
            × (self.new.too_long ≡ self.old.too_long) }
        ensures err { OnErr result (self.new.out.items ≡ self.old.out.items) }
        ensures broken { OnErr result
            (MayEnd L.named line.now false self.old.table self.new.table) }
    {
        self.table.agree();
        match parse_usual(self.alloc, line) {
            Ok(Some(command)) => answer(&mut self.table, rt, Some(command), &mut self.out),
            Ok(None) => self.answer_any(rt, line),
            Err(error) => Err(error),
        }
    }

    /// Takes the rest of a line up to its line feed, and answers the line. A line of which nothing
    /// is held is answered without being held.
    fn close_line(&mut self, rt: &impl Wait, bytes: &[u8]) -> Result<(), AllocError>
        requires { HasNoFeed bytes.now }
        ensures ok { OnOk result ((writer : Traffic)
            → Reads L.named (bytes.now ++ line_feed ∷ []) writer writer self.old self.new) }
        ensures out { OnErr result (self.new.out.items ≡ self.old.out.items) }
        ensures err { OnErr result ((writer : Traffic)
            → Stops L.named (bytes.now ++ line_feed ∷ []) writer writer self.old self.new
            ScriptError.Alloc) }
    {
        self.table.agree();
        if !self.too_long && self.line.is_empty() {
            self.answer_in_place(rt, bytes)?;
            return Ok(());
        }
        self.hold(bytes)?;
        self.end_line(rt)?;
        Ok(())
    }

    /// Writes the replies that are held. None is held afterwards, also where the write fails: so no
    /// later reply is written behind a gap.
    fn flush<W: Sink>(&mut self, writer: &mut W) -> Result<(), ScriptError>
        ensures ok { OnOk result
            ((W.traffic writer.new).bytes ≡ (W.traffic writer.old).bytes ++ self.old.out.items) }
        ensures out { self.new.out.items ≡ [] }
        ensures windows { self.new.table ≡ self.old.table }
        ensures line { (self.new.line.items ≡ self.old.line.items)
            × (self.new.too_long ≡ self.old.too_long) }
        ensures taken { Takes (W.traffic writer.old) (W.traffic writer.new)
            (W.contents writer.old) (W.contents writer.new) }
        ensures clean { OnOk result (NoFault (W.traffic writer.old) (W.traffic writer.new)) }
        ensures err { OnErr result
            (TakesFront self.old.out.items (W.traffic writer.old) (W.traffic writer.new)) }
        ensures write { IfErr result (λ e. e ≡ ScriptError.Write) }
        ensures fault { IfErr result (IsWhy (W.traffic writer.old) (W.traffic writer.new)) }
    {
        self.table.agree();
        let written = write_out(writer, &self.out);
        self.out.clear();
        written
    }

    /// Takes the rest of a line up to its line feed, answers the line, and writes the replies that
    /// are held where these are `PIECE` bytes or more.
    fn take_line<W: Sink>(
        &mut self,
        rt: &impl Wait,
        writer: &mut W,
        bytes: &[u8],
    ) -> Result<(), ScriptError>
        requires { HasNoFeed bytes.now }
        ensures few { length self.old.out.items < PIECE → length self.new.out.items < PIECE }
        ensures ok { OnOk result
            (Reads L.named (bytes.now ++ line_feed ∷ []) (W.traffic writer.old)
            (W.traffic writer.new) self.old self.new) }
        ensures taken { Takes (W.traffic writer.old) (W.traffic writer.new)
            (W.contents writer.old) (W.contents writer.new) }
        ensures clean { OnOk result (NoFault (W.traffic writer.old) (W.traffic writer.new)) }
        ensures err { IfErr result
            (Stops L.named (bytes.now ++ line_feed ∷ []) (W.traffic writer.old)
            (W.traffic writer.new) self.old self.new) }
        ensures fault { IfErr result (IsWhy (W.traffic writer.old) (W.traffic writer.new)) }
    {
        self.table.agree();
        self.close_line(rt, bytes)?;
        if self.out.len() >= PIECE {
            self.flush(writer)?;
        }
        Ok(())
    }

    /// Takes a piece of the input: answers its lines, and holds what is behind the last line feed.
    fn feed<W: Sink>(
        &mut self,
        rt: &impl Wait,
        writer: &mut W,
        piece: &[u8],
    ) -> Result<(), ScriptError>
        ensures few { length self.old.out.items < PIECE → length self.new.out.items < PIECE }
        ensures ok { OnOk result
            (Reads L.named piece.now (W.traffic writer.old) (W.traffic writer.new)
            self.old self.new) }
        ensures taken { Takes (W.traffic writer.old) (W.traffic writer.new)
            (W.contents writer.old) (W.contents writer.new) }
        ensures clean { OnOk result (NoFault (W.traffic writer.old) (W.traffic writer.new)) }
        ensures err { IfErr result
            (Stops L.named piece.now (W.traffic writer.old) (W.traffic writer.new)
            self.old self.new) }
        ensures fault { IfErr result (IsWhy (W.traffic writer.old) (W.traffic writer.new)) }
    {
        self.table.agree();
        let mut rest = piece;
        'lines: while let Some((line, behind)) = first_line(rest) {
            self.take_line(rt, writer, line)?;
            rest = behind;
        }
        self.hold(rest)?;
        Ok(())
    }

    /// Reads a piece of the input, answers its lines and writes their replies. Where memory is
    /// refused for a line, it writes the replies to the lines before. It answers `false` at the end
    /// of the input.
    fn take_piece<R: Source, W: Sink>(
        &mut self,
        rt: &impl Wait,
        reader: &mut R,
        writer: &mut W,
        piece: &mut [u8],
    ) -> Result<bool, ScriptError>
        requires { 0 < length piece.old }
        ensures ok { OnOk result ((r w : Traffic)
            → IsRunning L.named r (R.traffic reader.old) w (W.traffic writer.old) self.old
            → IsRunning L.named r (R.traffic reader.new) w (W.traffic writer.new) self.new) }
        ensures end { IfOk result (λ more. more ≡ false
            → (R.traffic reader.new).empties ≡ (R.traffic reader.old).empties + 1) }
        ensures empties { IfOk result (λ more. more ≡ true
            → (R.traffic reader.new).empties ≡ (R.traffic reader.old).empties) }
        ensures given { Gives (R.traffic reader.old) (R.traffic reader.new)
            (R.remaining reader.old) (R.remaining reader.new) }
        ensures taken { Takes (W.traffic writer.old) (W.traffic writer.new)
            (W.contents writer.old) (W.contents writer.new) }
        ensures drained { IfOk result (λ more. more ≡ false → IsAtEnd (R.remaining reader.new)) }
        ensures begun { IfErr result (λ fault. (r w : Traffic)
            → IsRunning L.named r (R.traffic reader.old) w (W.traffic writer.old) self.old
            → Exchanges (IsBrokenOff L.named fault (R.traffic reader.new).last self.new.table)
            r (R.traffic reader.new) w (W.traffic writer.new)) }
        ensures answered { IfErr result (λ fault. fault ≡ ScriptError.Read → (r w : Traffic)
            → IsRunning L.named r (R.traffic reader.old) w (W.traffic writer.old) self.old
            → Exchanges (OfWholeLines (IsThrough L.named self.new.table)) r (R.traffic reader.new)
            w (W.traffic writer.new)) }
        ensures fault { IfErr result
            (IsCause (R.traffic reader.old) (R.traffic reader.new) (W.traffic writer.old)
            (W.traffic writer.new)) }
    {
        self.table.agree();
        let Ok(read) = reader.read(piece) else {
            return Err(ScriptError::Read);
        };
        if read == 0 {
            return Ok(false);
        }
        match self.feed(rt, writer, &piece[..read]) {
            Ok(()) => {
                self.flush(writer)?;
                Ok(true)
            }
            // Nothing is written behind a write that failed.
            Err(ScriptError::Write) => Err(ScriptError::Write),
            // A write that fails is the fault, also where memory was refused before: `Alloc` says
            // that every reply that had room is written.
            Err(fault) => {
                self.flush(writer)?;
                Err(fault)
            }
        }
    }

    /// Answers what is behind the last line feed, unless that is empty.
    fn answer_rest(&mut self, rt: &impl Wait) -> Result<(), AllocError>
        ensures ok { OnOk result ((early : ℕ) (start input : List ℕ) (writer : Traffic)
            → HasRead L.named early start input writer self.old
            → IsAnswered L.named early start input writer self.new.out.items self.new.table) }
        ensures err { OnErr result ((early : ℕ) (start input : List ℕ) (writer : Traffic)
            → HasRead L.named early start input writer self.old
            → IsBegun L.named ScriptError.Alloc early start input writer self.new.out.items
            self.new.table) }
    {
        self.table.agree();
        if !self.too_long && self.line.is_empty() {
            return Ok(());
        }
        self.end_line(rt)?;
        Ok(())
    }

    /// Answers what is behind the last line feed, unless that is empty, and writes the replies that
    /// are held, also where memory is refused for that line.
    fn finish<W: Sink>(&mut self, rt: &impl Wait, writer: &mut W) -> Result<(), ScriptError>
        ensures ok { OnOk result ((early : ℕ) (start input : List ℕ)
            → HasRead L.named early start input (W.traffic writer.old) self.old
            → IsAnswered L.named early start input (W.traffic writer.new) [] self.new.table) }
        ensures taken { Takes (W.traffic writer.old) (W.traffic writer.new)
            (W.contents writer.old) (W.contents writer.new) }
        ensures clean { OnOk result (NoFault (W.traffic writer.old) (W.traffic writer.new)) }
        ensures err { IfErr result (λ fault. (early : ℕ) (start input : List ℕ)
            → HasRead L.named early start input (W.traffic writer.old) self.old
            → IsBegun L.named fault early start input (W.traffic writer.new) [] self.new.table) }
        ensures fault { IfErr result (IsWhy (W.traffic writer.old) (W.traffic writer.new)) }
    {
        self.table.agree();
        let answered = self.answer_rest(rt);
        self.flush(writer)?;
        answered?;
        Ok(())
    }

    /// Runs a script to its end, or to the first fault. It leaves the windows as they are.
    fn run<R: Source, W: Sink>(
        &mut self,
        rt: &impl Wait,
        reader: &mut R,
        writer: &mut W,
    ) -> Result<(), ScriptError>
        requires windows { self.old.table ≡ empty_state }
        requires line { (self.old.line.items ≡ []) × (self.old.too_long ≡ false) }
        requires out { self.old.out.items ≡ [] }
        ensures ok { OnOk result
            (Exchanges (IsThrough L.named self.new.table) (R.traffic reader.old)
            (R.traffic reader.new) (W.traffic writer.old) (W.traffic writer.new)) }
        ensures end { OnOk result
            ((R.traffic reader.new).empties ≡ (R.traffic reader.old).empties + 1) }
        ensures given { Gives (R.traffic reader.old) (R.traffic reader.new)
            (R.remaining reader.old) (R.remaining reader.new) }
        ensures taken { Takes (W.traffic writer.old) (W.traffic writer.new)
            (W.contents writer.old) (W.contents writer.new) }
        ensures drained { OnOk result
            (GivesAll (R.traffic reader.old) (R.traffic reader.new) (R.remaining reader.old)) }
        ensures clean { OnOk result
            (((R.traffic reader.new).failures ≡ (R.traffic reader.old).failures)
            × NoFault (W.traffic writer.old) (W.traffic writer.new)) }
        ensures begun { IfErr result (λ fault.
            Exchanges (IsBrokenOff L.named fault (R.traffic reader.new).last self.new.table)
            (R.traffic reader.old) (R.traffic reader.new) (W.traffic writer.old)
            (W.traffic writer.new)) }
        ensures answered { IfErr result (λ fault. fault ≡ ScriptError.Read
            → Exchanges (OfWholeLines (IsThrough L.named self.new.table)) (R.traffic reader.old)
            (R.traffic reader.new) (W.traffic writer.old) (W.traffic writer.new)) }
        ensures fault { IfErr result
            (IsCause (R.traffic reader.old) (R.traffic reader.new) (W.traffic writer.old)
            (W.traffic writer.new)) }
    {
        self.table.agree();
        let mut piece = room(self.alloc)?;
        'pieces: for _ in rt.forever() {
            if !self.take_piece(rt, reader, writer, &mut piece)? {
                return self.finish(rt, writer);
            }
        }
        unreachable!()
    }

    /// Ends the engine and the windows that are left. It answers the passes of their blocks, of
    /// which none has a live owner.
    fn end(self) -> Passes<A>
        ensures ended { IsKept MAX_OWNERS [] result.of_blocks.items }
        ensures blocks { length result.of_blocks.items ≡ self.table.table.blocks }
        ensures passes { EndsWith (script_setting L.named) self.table result.of_blocks.items }
    {
        let Engine {
            table,
            line: _,
            too_long: _,
            out: _,
            alloc: _,
        } = self;
        table.end()
    }
}

/// The bytes before the first line feed, and those behind it.
#[inline(always)]
fn first_line(bytes: &[u8]) -> Option<(&[u8], &[u8])>
    ensures { MatchOption result (HasNoFeed bytes.now) (λ parts. HasNoFeed parts.0.now
        × (bytes.now ≡ parts.0.now ++ line_feed ∷ parts.1.now)) }
{
    let end = memchr(b'\n', bytes)?;
    Some((&bytes[..end], &bytes[end + 1..]))
}

/// Room for a piece of the input.
fn room<A: Allocator>(alloc: A) -> Result<Vec<u8, A>, AllocError>
    ensures { IfOk result (λ piece. vec_len piece ≡ PIECE) }
{
    Ok(vec![in alloc; 0u8; PIECE]?)
}

/// Runs a script as `run_script` says, and ends every window that is left. With the result it
/// answers the passes of the blocks, which have seen their whole histories.
fn run_to_end<L: NamedLayout, R: Source, W: Sink, A: Allocator + Copy>(
    rt: &impl Wait,
    alloc: A,
    reader: &mut R,
    writer: &mut W,
) -> (Result<(), ScriptError>, Passes<A>)
where
    L::Writable: LayoutMut,
    ensures ok { OnOk result.0
        (Exchanges (ThenEnds L.named (IsThrough L.named) result.1.of_blocks.items)
        (R.traffic reader.old) (R.traffic reader.new) (W.traffic writer.old)
        (W.traffic writer.new)) }
    ensures end { OnOk result.0
        ((R.traffic reader.new).empties ≡ (R.traffic reader.old).empties + 1) }
    ensures given { Gives (R.traffic reader.old) (R.traffic reader.new)
        (R.remaining reader.old) (R.remaining reader.new) }
    ensures taken { Takes (W.traffic writer.old) (W.traffic writer.new)
        (W.contents writer.old) (W.contents writer.new) }
    ensures drained { OnOk result.0
        (GivesAll (R.traffic reader.old) (R.traffic reader.new) (R.remaining reader.old)) }
    ensures clean { OnOk result.0
        (((R.traffic reader.new).failures ≡ (R.traffic reader.old).failures)
        × NoFault (W.traffic writer.old) (W.traffic writer.new)) }
    ensures ended { IsKept MAX_OWNERS [] result.1.of_blocks.items }
    ensures begun { IfErr result.0 (λ fault.
        Exchanges (ThenEnds L.named (IsBrokenOff L.named fault (R.traffic reader.new).last)
        result.1.of_blocks.items) (R.traffic reader.old) (R.traffic reader.new)
        (W.traffic writer.old) (W.traffic writer.new)) }
    ensures answered { IfErr result.0 (λ fault. fault ≡ ScriptError.Read
        → Exchanges (OfWholeLines
        (ThenEnds L.named (IsThrough L.named) result.1.of_blocks.items))
        (R.traffic reader.old) (R.traffic reader.new) (W.traffic writer.old)
        (W.traffic writer.new)) }
    ensures fault { IfErr result.0
        (IsCause (R.traffic reader.old) (R.traffic reader.new) (W.traffic writer.old)
        (W.traffic writer.new)) }
{
    let mut engine: Engine<L, A> = Engine::new(alloc);
    engine.table.agree();
    let result = engine.run(rt, reader, writer);
    (result, engine.end())
}

/// Runs a script as `run_script` says, under the layout `L`.
fn run_under<L: NamedLayout, R: Source, W: Sink, A: Allocator + Copy>(
    rt: &impl Wait,
    alloc: A,
    reader: &mut R,
    writer: &mut W,
) -> Result<(), ScriptError>
where
    L::Writable: LayoutMut,
    ensures ok { OnOk result
        (Exchanges (IsReplyText L.named) (R.traffic reader.old) (R.traffic reader.new)
        (W.traffic writer.old) (W.traffic writer.new)) }
    ensures end { OnOk result
        ((R.traffic reader.new).empties ≡ (R.traffic reader.old).empties + 1) }
    ensures given { Gives (R.traffic reader.old) (R.traffic reader.new)
        (R.remaining reader.old) (R.remaining reader.new) }
    ensures taken { Takes (W.traffic writer.old) (W.traffic writer.new)
        (W.contents writer.old) (W.contents writer.new) }
    ensures drained { OnOk result
        (GivesAll (R.traffic reader.old) (R.traffic reader.new) (R.remaining reader.old)) }
    ensures clean { OnOk result (((R.traffic reader.new).failures ≡ (R.traffic reader.old).failures)
        × NoFault (W.traffic writer.old) (W.traffic writer.new)) }
    ensures begun { OnErr result
        (Exchanges (BeginsReplyText L.named) (R.traffic reader.old) (R.traffic reader.new)
        (W.traffic writer.old) (W.traffic writer.new)) }
    ensures broken { IfErr result (λ fault.
        Exchanges (BreaksOff L.named fault (R.traffic reader.new).last) (R.traffic reader.old)
        (R.traffic reader.new) (W.traffic writer.old) (W.traffic writer.new)) }
    ensures answered { IfErr result (λ fault. fault ≡ ScriptError.Read
        → Exchanges (AnswersWhole L.named) (R.traffic reader.old) (R.traffic reader.new)
        (W.traffic writer.old) (W.traffic writer.new)) }
    ensures fault { IfErr result
        (IsCause (R.traffic reader.old) (R.traffic reader.new) (W.traffic writer.old)
        (W.traffic writer.new)) }
{
    let (result, _) = run_to_end::<L, R, W, A>(rt, alloc, reader, writer);
    result
}

/// Runs a script: answers each line of the input by one line of the output. Each window is released
/// at the end, and on every fault.
///
/// It reads in pieces of at most 65,536 bytes, and holds at most 65,536 bytes of a line. It writes
/// the replies when a piece is done, and whenever 65,536 bytes of them are held.
///
/// # Errors
///
/// - `Read` where a read fails: written are the replies to all lines whose line feed was read, and
///   no other.
/// - `Write` where a write fails or takes nothing: written is a beginning of the replies.
/// - `Alloc` where memory is refused: written are the replies to the lines that were carried out,
///   but perhaps not the last one.
///
/// On each error, every line that ended before the last read has its whole reply.
///
/// # Allocates
///
/// For a piece of the input, for a line that comes in two pieces, for the items of a command, for
/// replies that are held, and for what the commands ask for.
pub fn run_script<R: Source, W: Sink, A: Allocator + Copy>(
    rt: &impl Wait,
    alloc: A,
    reader: &mut R,
    writer: &mut W,
    layout: ScriptLayout,
) -> Result<(), ScriptError>
    ensures ok { OnOk result
        (Exchanges (IsReplyText layout) (R.traffic reader.old) (R.traffic reader.new)
        (W.traffic writer.old) (W.traffic writer.new)) }
    ensures end { OnOk result
        ((R.traffic reader.new).empties ≡ (R.traffic reader.old).empties + 1) }
    ensures given { Gives (R.traffic reader.old) (R.traffic reader.new)
        (R.remaining reader.old) (R.remaining reader.new) }
    ensures taken { Takes (W.traffic writer.old) (W.traffic writer.new)
        (W.contents writer.old) (W.contents writer.new) }
    ensures drained { OnOk result
        (GivesAll (R.traffic reader.old) (R.traffic reader.new) (R.remaining reader.old)) }
    ensures clean { OnOk result (((R.traffic reader.new).failures ≡ (R.traffic reader.old).failures)
        × NoFault (W.traffic writer.old) (W.traffic writer.new)) }
    ensures begun { OnErr result
        (Exchanges (BeginsReplyText layout) (R.traffic reader.old) (R.traffic reader.new)
        (W.traffic writer.old) (W.traffic writer.new)) }
    ensures broken { IfErr result (λ fault.
        Exchanges (BreaksOff layout fault (R.traffic reader.new).last) (R.traffic reader.old)
        (R.traffic reader.new) (W.traffic writer.old) (W.traffic writer.new)) }
    ensures answered { IfErr result (λ fault. fault ≡ ScriptError.Read
        → Exchanges (AnswersWhole layout) (R.traffic reader.old) (R.traffic reader.new)
        (W.traffic writer.old) (W.traffic writer.new)) }
    ensures fault { IfErr result
        (IsCause (R.traffic reader.old) (R.traffic reader.new) (W.traffic writer.old)
        (W.traffic writer.new)) }
{
    match layout {
        ScriptLayout::Arc => run_under::<DefaultLayout, _, _, _>(rt, alloc, reader, writer),
        ScriptLayout::Boxed => run_under::<BoxedSliceLayout, _, _, _>(rt, alloc, reader, writer),
        ScriptLayout::Vec => run_under::<VecLayout, _, _, _>(rt, alloc, reader, writer),
        ScriptLayout::Raw => run_under::<RawLayout, _, _, _>(rt, alloc, reader, writer),
    }
}

/// Each input has replies, and is cut into lines in one way only. Does nothing: its contract is the
/// law.
pub fn every_input_is_answered()
    ensures answered { (layout : ScriptLayout) (input : List ℕ)
        → (text : List ℕ) × IsReplyText layout input text }
    ensures lines { (input : List ℕ) (lines others : List (List ℕ)) → AreLines input lines
        → AreLines input others → lines ≡ others }
{}
