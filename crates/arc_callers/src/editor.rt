//! An example: an editor's text. It is written into a string's memory and frozen to be shown.
//! Others read parts of it where it lies. It is written again when their parts have ended, and
//! taken back as the string. Another text is written by two threads at once, each in its own part.
//! Showing it and handing out parts copies nothing. The proofs of its contracts are found by
//! search.
ghost use Rattle.std.specs.Prelude.{◌≡◌, ◌++◌, ◌↔◌, take, slice_range, false, IfOk, IfErr, OnOk};
ghost use Rattle.std.specs.Prelude.{OnErr, Err, IfSome};
ghost use Rattle.std.specs.String.{string_bytes};
ghost use Rattle.arc_block.specs.Table.{bare};
ghost use Rattle.arc_parts.specs.Shared.{IsOneBlock};
ghost use Rattle.arc_parts.specs.Window.{IsVecPart};
ghost use Rattle.arc_buffer.specs.Slice.{edge_answer, range_answer};
ghost use Rattle.arc_buffer.specs.Text.{is_between_characters};
ghost use Rattle.arc_owners.specs.declared.error.RangeError.{RangeError};
ghost use Rattle.arc_callers.specs.declared.editor.PartError.TheVariants.{Range};

use arc_slice::error::{OwnerError, RangeError, TryReserveError};
use arc_slice::layout::{DefaultLayout, DefaultLayoutMut};
use arc_slice::{ArcBytesMut, ArcBytesShared, ArcStr, ArcStrMut, IntoMut};
use std::alloc::Global;
use std::sync::Wait;
use std::thread::{Threads, join};

/// A text that is written.
#[derive(Drop)]
pub struct Editor {
    /// What is written.
    pub text: ArcStrMut,
}

impl Editor {
    /// An editor that writes on a string, in its own memory. The string comes back where memory is
    /// refused.
    pub fn open(alloc: Global, text: String) -> Result<Self, String>
        ensures opened { IfOk result (λ editor. editor.text.items ≡ string_bytes text) }
        ensures refused { IfErr result (λ back. string_bytes back ≡ string_bytes text) }
    {
        match ArcStrMut::try_from_vec(alloc, text) {
            Ok(text) => Ok(Editor { text }),
            Err(text) => Err(text),
        }
    }

    /// Appends a text. Where there is no room for it nothing is changed, but for what a caller's
    /// buffer that was asked for room makes of that.
    pub fn write(&mut self, more: &str) -> Result<(), TryReserveError>
        ensures written { OnOk result (self.new.text.items ≡ self.old.text.items ++ more.now) }
        ensures refused { OnErr result (bare self.new.text ≡ bare self.old.text) }
    {
        self.text.try_extend_from_str(more)
    }

    /// Takes off what is behind `end`, where that is between two characters.
    pub fn cut_back(&mut self, end: usize) -> Result<(), RangeError>
        ensures answer { result ≡ edge_answer is_between_characters self.old.text.items end }
        ensures cut { OnOk result (self.new.text.items ≡ take end self.old.text.items) }
        ensures refused { OnErr result (self.new.text ≡ self.old.text) }
    {
        if let Err(e) = self.text.check_at(end) {
            return Err(e);
        }
        self.text.truncate(end);
        Ok(())
    }

    /// The text as a page, to be shown.
    pub fn show(self) -> Page
        ensures { result.text.items ≡ self.text.items }
    {
        let Ok(text) = self.text.try_freeze::<DefaultLayout>() else {
            unreachable!()
        };
        Page { text }
    }

    /// The text as a string, where it stands on one; else the editor comes back.
    pub fn close(self) -> Result<String, Self>
        ensures closed { IfOk result (λ text. string_bytes text ≡ self.text.items) }
        ensures refused { IfErr result (λ back. (back.text ≡ self.text)
            × (¬ IsVecPart false self.text.items self.text.place)) }
    {
        match self.text.try_into_vec() {
            Ok(text) => Ok(text),
            Err(text) => Err(Editor { text }),
        }
    }
}

/// Why a part isn't handed out.
#[derive(Drop)]
pub enum PartError {
    /// It is no range of the text.
    Range(RangeError),
    /// A new owner is refused.
    Owner(OwnerError),
}

/// A text that is shown, of which others may have parts.
#[derive(Drop)]
pub struct Page {
    /// What is shown.
    pub text: ArcStr,
}

impl Page {
    /// The text from `start` to `end`, for a reader, as a window on the same block.
    pub fn part(&self, rt: &impl Wait, start: usize, end: usize) -> Result<ArcStr, PartError>
        ensures part { IfOk result (λ part.
            part.items ≡ slice_range self.now.text.items start end) }
        ensures range { (e : RangeError) → (result ≡ Err (Range e))
            ↔ (range_answer is_between_characters self.now.text.items start end ≡ Err e) }
    {
        if let Err(e) = self.text.check_range(start, end) {
            return Err(PartError::Range(e));
        }
        match self.text.try_subslice(rt, start, end) {
            Ok(part) => Ok(part),
            Err(e) => Err(PartError::Owner(e)),
        }
    }

    /// The text, to be written again, where no part of it lives; else the page comes back.
    pub fn edit(self) -> Result<Editor, Self>
        ensures edited { IfOk result (λ editor. editor.text.items ≡ self.text.items) }
        ensures refused { IfErr result (λ page. page.text ≡ self.text) }
    {
        match self.text.try_into_mut::<DefaultLayoutMut>() {
            Ok(text) => Ok(Editor { text }),
            Err(text) => Err(Page { text }),
        }
    }
}

/// Writes a text into the places of these bytes, as much of it as there are places for.
fn write_over(places: &mut [u8], text: &str) {
    for (place, byte) in places.iter_mut().zip(text.as_bytes()) {
        *place = *byte;
    }
}

/// Writes two texts in two parts of one block, each in a thread of its own.
fn write_at_once(
    rt: &impl Threads,
    front: &mut ArcBytesShared,
    first: &str,
    back: &mut ArcBytesShared,
    second: &str,
)
    ensures front { front.new.place ≡ front.old.place }
    ensures back { back.new.place ≡ back.old.place }
{
    front.known_written();
    back.known_written();
    let there = front.as_mut_slice();
    let behind = back.as_mut_slice();
    join(
        rt,
        || write_over(there, first),
        || write_over(behind, second),
    );
}

/// Zeros for two writers: so many for the first one, and those behind for the second.
fn for_two<R: Wait>(
    rt: &R,
    alloc: Global,
    middle: usize,
    places: usize,
) -> Option<(ArcBytesShared, ArcBytesShared)>
    ensures { IfSome result (λ two. IsOneBlock two.0.place two.1.place) }
{
    let bytes = ArcBytesMut::<DefaultLayoutMut>::try_zeroed(alloc, places).ok()?;
    let mut front: ArcBytesShared = bytes.into_shared().ok()?;
    front.check_split_off(middle).ok()?;
    match front.try_split_off(rt, middle) {
        Ok(back) => Some((front, back)),
        Err(_) => None,
    }
}

/// What two writers of one block have written, as one text.
fn of_two(mut front: ArcBytesShared, back: ArcBytesShared) -> Option<ArcStrMut>
    requires { IsOneBlock front.place back.place }
{
    front.try_unsplit(back).ok()?;
    let bytes = front.try_into_unique().ok()?;
    ArcStrMut::try_from_arc_slice_mut(bytes).ok()
}

/// Two texts, one behind the other, which two threads write at once in one block.
pub fn written_by_two<R: Threads + Wait>(
    rt: &R,
    alloc: Global,
    first: &str,
    second: &str,
) -> Option<ArcStrMut> {
    let places = first.len().checked_add(second.len())?;
    let (mut front, mut back) = for_two(rt, alloc, first.len(), places)?;
    write_at_once(rt, &mut front, first, &mut back, second);
    of_two(front, back)
}
