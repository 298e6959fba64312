//! Reads a line as a command. The first word tells the form, the operands are read as plain values,
//! and the command is made of these. What isn't there is handled by `let .. else`: a `?` makes the
//! proof of its function longer by a third.
ghost use Rattle.std.specs.Prelude.{◌≡◌, ◌+◌, ◌*◌, ◌<◌, ℕ, List, [], ◌∷◌, length, IfOk};
ghost use Rattle.std.specs.Prelude.{MatchOption, IfSome, IsSomeAnd, OnErr};
ghost use Rattle.std.specs.Option.{option_map};
ghost use Rattle.arc_forms.specs.Text.{Number, Byte, Items, Says, IsBad};
ghost use Rattle.arc_forms.specs.Seen.{line_command};
ghost use Rattle.arc_forms.specs.Commands.{ByteCmd};
ghost use Rattle.arc_forms.specs.Reading.{ANumber, SomeItems, BringsItems, command_of, first_by};
ghost use Rattle.arc_forms.specs.Reading.{number_of, operand_of};
ghost use Rattle.arc_forms.specs.Reading.{operands_of, pairs, words_in, named, read_behind};
ghost use Rattle.arc_forms.specs.Reading.{buffer_verbs, cut_verbs, making_verbs, other_verbs};
ghost use Rattle.arc_forms.specs.Reading.{last_verbs, rare_verbs, turning_verbs, usual_verbs};
ghost use Rattle.arc_forms.specs.Reading.{verbs};
ghost use Rattle.arc_forms.specs.Reading.{number_form, numbers_form};
ghost use Rattle.arc_forms.specs.Reading.{AByte, read_as};
ghost use Rattle.arc_forms.specs.Reading.{words_of_line};

use crate::hex::{Hex, byte_in, decoded, digits_in};
use arc_block::static_slice::StaticSlice;
use arc_commands::command::{Carries, Cmd};
use arc_owners::error::AllocError;
use std::alloc::Allocator;

/// A command over bytes.
pub type Command<A> = Cmd<Carries<Vec<u8, A>, StaticSlice<u8>, Vec<u8, A>, u64, u8>>;

/// The bytes over which `static` makes a window.
const STATIC_BYTES: &[u8] = b"abcd";

/// The longest line, in bytes and without its line feed.
pub const LONGEST_LINE: usize = 65536;

/// The most digits of a number.
const MOST_DIGITS: usize = 18;

/// A form of a line, by what is behind its first word.
#[derive(Clone, Copy)]
enum Verb {
    /// Nothing.
    Bare(Bare),
    /// A number.
    Number(OneNumber),
    /// Two numbers.
    Numbers(TwoNumbers),
    /// Three numbers.
    Sub,
    /// A number and a byte.
    Push,
    /// Items.
    Items(JustItems),
    /// A number and items.
    Ext,
    /// Items and a number.
    ItemsNumber(ItemsAndNumber),
}

/// The forms with nothing behind their first word.
#[derive(Clone, Copy)]
enum Bare {
    New,
    Static,
}

/// The forms of a number.
#[derive(Clone, Copy)]
enum OneNumber {
    Cap,
    Zero,
    Clone,
    Uniq,
    Show,
    Len,
    Room,
    Freeze,
    Mut,
    Share,
    Unique,
    Drop,
    Meta,
    Take,
    TakeBox,
    TakeBuf,
    TakeRaw,
    TakeStatic,
}

/// The forms of two numbers.
#[derive(Clone, Copy)]
enum TwoNumbers {
    Off,
    To,
    Res,
    Rec,
    Adv,
    Trunc,
    Join,
}

/// The forms of items.
#[derive(Clone, Copy)]
enum JustItems {
    Slice,
    MSlice,
    Small,
    Vec,
    Raw,
}

/// The forms of items and a number.
#[derive(Clone, Copy)]
enum ItemsAndNumber {
    Buf,
    MBuf,
}

/// What is left of a line behind a word, or `None` behind the last one.
type Rest<'a> = Option<&'a [u8]>;

/// The first word of a line, and what is left behind it.
#[inline(always)]
fn word(line: &[u8]) -> (&[u8], Rest)
    ensures { words_of_line line.now ≡ result.0.now ∷ words_in result.1 }
{
    for i in 0..line.len() {
        if line[i] == b' ' {
            return (&line[..i], Some(&line[i + 1..]));
        }
    }
    (line, None)
}

/// The number that a word says: at most 18 digits, the first one 0 in `0` alone.
#[inline(always)]
pub fn number_in(word: &[u8]) -> Option<usize>
    ensures { result ≡ number_of word.now }
{
    if word.is_empty() || word.len() > MOST_DIGITS {
        return None;
    }
    // A number has one form, so no other digit is behind a first 0.
    if word[0] == b'0' && word.len() > 1 {
        return None;
    }
    let mut number = 0;
    for byte in word {
        if !byte.is_ascii_digit() {
            return None;
        }
        number = 10 * number + usize::from(*byte - b'0');
    }
    Some(number)
}

/// The number that the first word says, and what is left behind it.
#[inline(always)]
fn number(rest: Rest) -> Option<(usize, Rest)>
    ensures { option_map (λ x. (Number x.0, words_in x.1)) result
        ≡ first_by (operand_of ANumber) (words_in rest.entry) }
{
    let Some(line) = rest else {
        return None;
    };
    let (word, rest) = word(line);
    let Some(number) = number_in(word) else {
        return None;
    };
    Some((number, rest))
}

/// The number that is left, where nothing else is.
#[inline(always)]
#[tactic(auto, using(crate::proofs::Forms::last_operand, crate::proofs::Forms::none_left))]
fn one_number(rest: Rest) -> Option<usize>
    ensures { option_map (λ n. Number n ∷ []) result
        ≡ operands_of (ANumber ∷ []) (words_in rest.entry) }
{
    // All that is left is read: a number has no space, so another word behind it is refused.
    match rest {
        Some(line) => number_in(line),
        None => None,
    }
}

/// The two numbers that are left, where nothing else is.
#[inline(always)]
#[tactic(auto, unfolding(crate::specs::Reading::operands_of))]
fn two_numbers(rest: Rest) -> Option<(usize, usize)>
    ensures { option_map (λ x. Number x.0 ∷ Number x.1 ∷ []) result
        ≡ operands_of (ANumber ∷ ANumber ∷ []) (words_in rest.entry) }
{
    let Some((first, rest)) = number(rest) else {
        return None;
    };
    let Some(second) = one_number(rest) else {
        return None;
    };
    Some((first, second))
}

/// The byte that is left, where nothing else is.
#[inline(always)]
#[tactic(auto, using(crate::proofs::Forms::last_operand, crate::proofs::Forms::none_left))]
fn one_byte(rest: Rest) -> Option<u8>
    ensures { option_map (λ x. Byte x ∷ []) result
        ≡ operands_of (AByte ∷ []) (words_in rest.entry) }
{
    match rest {
        Some(line) => byte_in(line),
        None => None,
    }
}

/// The digits of the items that are left, where one word is left.
#[inline(always)]
#[tactic(auto, using(crate::proofs::Forms::last_operand, crate::proofs::Forms::none_left))]
fn one_hex(rest: Rest) -> Option<Hex>
    ensures { option_map (λ hex. Items (pairs hex.digits.now) ∷ []) result
        ≡ operands_of (SomeItems ∷ []) (words_in rest.entry) }
{
    match rest {
        Some(line) => digits_in(line),
        None => None,
    }
}

/// The form whose first word this is. A match tests the length and then bytes, and search proves a
/// match of a few words: so the forms are in six groups.
fn verb_named(word: &[u8]) -> Option<Verb>
    ensures { result ≡ named word.now verbs }
{
    if let Some(verb) = usual_verb_named(word) {
        return Some(verb);
    }
    if let Some(verb) = cut_verb_named(word) {
        return Some(verb);
    }
    rare_verb_named(word)
}

/// The form whose first word this is, of those that few lines have.
fn rare_verb_named(word: &[u8]) -> Option<Verb>
    ensures { result ≡ named word.now rare_verbs }
{
    if let Some(verb) = making_verb_named(word) {
        return Some(verb);
    }
    if let Some(verb) = buffer_verb_named(word) {
        return Some(verb);
    }
    last_verb_named(word)
}

/// The form whose first word this is, of the last two groups.
fn last_verb_named(word: &[u8]) -> Option<Verb>
    ensures { result ≡ named word.now last_verbs }
{
    if let Some(verb) = other_verb_named(word) {
        return Some(verb);
    }
    turning_verb_named(word)
}

/// The form whose first word this is, of those that most lines have.
#[inline(always)]
fn usual_verb_named(word: &[u8]) -> Option<Verb>
    ensures { result ≡ named word.now usual_verbs }
{
    match word {
        b"show" => Some(Verb::Number(OneNumber::Show)),
        b"drop" => Some(Verb::Number(OneNumber::Drop)),
        b"slice" => Some(Verb::Items(JustItems::Slice)),
        b"clone" => Some(Verb::Number(OneNumber::Clone)),
        b"sub" => Some(Verb::Sub),
        b"push" => Some(Verb::Push),
        b"small" => Some(Verb::Items(JustItems::Small)),
        _ => None,
    }
}

/// The form whose first word this is, of those of cuts and lengths.
#[inline(always)]
fn cut_verb_named(word: &[u8]) -> Option<Verb>
    ensures { result ≡ named word.now cut_verbs }
{
    match word {
        b"ext" => Some(Verb::Ext),
        b"off" => Some(Verb::Numbers(TwoNumbers::Off)),
        b"to" => Some(Verb::Numbers(TwoNumbers::To)),
        b"len" => Some(Verb::Number(OneNumber::Len)),
        b"adv" => Some(Verb::Numbers(TwoNumbers::Adv)),
        b"trunc" => Some(Verb::Numbers(TwoNumbers::Trunc)),
        _ => None,
    }
}

/// The form whose first word this is, of those that make a window.
#[inline(always)]
fn making_verb_named(word: &[u8]) -> Option<Verb>
    ensures { result ≡ named word.now making_verbs }
{
    match word {
        b"mslice" => Some(Verb::Items(JustItems::MSlice)),
        b"new" => Some(Verb::Bare(Bare::New)),
        b"cap" => Some(Verb::Number(OneNumber::Cap)),
        b"zero" => Some(Verb::Number(OneNumber::Zero)),
        b"static" => Some(Verb::Bare(Bare::Static)),
        b"vec" => Some(Verb::Items(JustItems::Vec)),
        b"raw" => Some(Verb::Items(JustItems::Raw)),
        _ => None,
    }
}

/// The form whose first word this is, of those of buffers and of what is taken back.
#[inline(always)]
fn buffer_verb_named(word: &[u8]) -> Option<Verb>
    ensures { result ≡ named word.now buffer_verbs }
{
    match word {
        b"buf" => Some(Verb::ItemsNumber(ItemsAndNumber::Buf)),
        b"mbuf" => Some(Verb::ItemsNumber(ItemsAndNumber::MBuf)),
        b"meta" => Some(Verb::Number(OneNumber::Meta)),
        b"take" => Some(Verb::Number(OneNumber::Take)),
        b"takebox" => Some(Verb::Number(OneNumber::TakeBox)),
        b"takebuf" => Some(Verb::Number(OneNumber::TakeBuf)),
        b"takeraw" => Some(Verb::Number(OneNumber::TakeRaw)),
        _ => None,
    }
}

/// The form whose first word this is, of those in no other group.
#[inline(always)]
fn other_verb_named(word: &[u8]) -> Option<Verb>
    ensures { result ≡ named word.now other_verbs }
{
    match word {
        b"uniq" => Some(Verb::Number(OneNumber::Uniq)),
        b"res" => Some(Verb::Numbers(TwoNumbers::Res)),
        b"rec" => Some(Verb::Numbers(TwoNumbers::Rec)),
        b"room" => Some(Verb::Number(OneNumber::Room)),
        b"takestatic" => Some(Verb::Number(OneNumber::TakeStatic)),
        _ => None,
    }
}

/// The form whose first word this is, of those that turn or join windows.
#[inline(always)]
fn turning_verb_named(word: &[u8]) -> Option<Verb>
    ensures { result ≡ named word.now turning_verbs }
{
    match word {
        b"freeze" => Some(Verb::Number(OneNumber::Freeze)),
        b"mut" => Some(Verb::Number(OneNumber::Mut)),
        b"share" => Some(Verb::Number(OneNumber::Share)),
        b"unique" => Some(Verb::Number(OneNumber::Unique)),
        b"join" => Some(Verb::Numbers(TwoNumbers::Join)),
        _ => None,
    }
}

/// The form of a line and what is left behind its first word, where it is a form that many lines
/// have and something is left.
#[inline(always)]
#[tactic(auto, unfolding(crate::specs::Reading::command_of, crate::specs::Reading::read_as))]
fn usual_verb(line: &[u8]) -> Option<(Verb, &[u8])>
    ensures { IfSome result (λ found.
        read_as (words_of_line found.1.now) found.0 ≡ command_of (words_of_line line.now)) }
{
    match line {
        [b'd', b'r', b'o', b'p', b' ', rest @ ..] => Some((Verb::Number(OneNumber::Drop), rest)),
        [b's', b'h', b'o', b'w', b' ', rest @ ..] => Some((Verb::Number(OneNumber::Show), rest)),
        [b's', b'l', b'i', b'c', b'e', b' ', rest @ ..] => {
            Some((Verb::Items(JustItems::Slice), rest))
        }
        [b's', b'u', b'b', b' ', rest @ ..] => Some((Verb::Sub, rest)),
        [b'c', b'l', b'o', b'n', b'e', b' ', rest @ ..] => Some((
            Verb::Number(OneNumber::Clone),
            rest,
        )),
        [b'l', b'e', b'n', b' ', rest @ ..] => Some((Verb::Number(OneNumber::Len), rest)),
        [b'r', b'o', b'o', b'm', b' ', rest @ ..] => Some((Verb::Number(OneNumber::Room), rest)),
        [b'u', b'n', b'i', b'q', b' ', rest @ ..] => Some((Verb::Number(OneNumber::Uniq), rest)),
        [b'p', b'u', b's', b'h', b' ', rest @ ..] => Some((Verb::Push, rest)),
        [b'e', b'x', b't', b' ', rest @ ..] => Some((Verb::Ext, rest)),
        [b'r', b'e', b's', b' ', rest @ ..] => Some((Verb::Numbers(TwoNumbers::Res), rest)),
        [b'r', b'e', b'c', b' ', rest @ ..] => Some((Verb::Numbers(TwoNumbers::Rec), rest)),
        [b't', b'r', b'u', b'n', b'c', b' ', rest @ ..] => Some((
            Verb::Numbers(TwoNumbers::Trunc),
            rest,
        )),
        [b'o', b'f', b'f', b' ', rest @ ..] => Some((Verb::Numbers(TwoNumbers::Off), rest)),
        [b'c', b'a', b'p', b' ', rest @ ..] => Some((Verb::Number(OneNumber::Cap), rest)),
        [b's', b'm', b'a', b'l', b'l', b' ', rest @ ..] => Some((
            Verb::Items(JustItems::Small),
            rest,
        )),
        _ => None,
    }
}

/// The form of a line, and what is left behind its first word.
fn verb_of(line: &[u8]) -> Option<(Verb, Rest)>
    ensures { read_behind result ≡ command_of (words_of_line line.now) }
{
    if let Some((verb, rest)) = usual_verb(line) {
        return Some((verb, Some(rest)));
    }
    let (word, rest) = word(line);
    let Some(verb) = verb_named(word) else {
        return None;
    };
    Some((verb, rest))
}

/// The command of a form with nothing behind its first word.
#[tactic(auto, using(crate::proofs::Forms::nothing_is_left, crate::proofs::Forms::word_is_left), unfolding(crate::specs::Reading::read_as))]
fn with_nothing<A: Allocator>(verb: Bare, rest: Rest) -> Option<Command<A>>
    ensures { option_map line_command result
        ≡ read_as (words_in rest.entry) (Verb.Bare verb) }
{
    if rest.is_some() {
        return None;
    }
    match verb {
        Bare::New => Some(Cmd::New),
        Bare::Static => Some(Cmd::Static(StaticSlice::new(STATIC_BYTES))),
    }
}

/// The command of a form of one number, for this number.
#[inline(always)]
fn number_command<A: Allocator>(verb: OneNumber, number: usize) -> Command<A>
    ensures { line_command result ≡ (number_form verb).1 number }
{
    let window = number;
    match verb {
        OneNumber::Cap => Cmd::Cap { places: number },
        OneNumber::Zero => Cmd::Zero { count: number },
        OneNumber::Clone => Cmd::Clone { window },
        OneNumber::Uniq => Cmd::Uniq { window },
        OneNumber::Show => Cmd::Show { window },
        OneNumber::Len => Cmd::Len { window },
        OneNumber::Room => Cmd::Room { window },
        OneNumber::Freeze => Cmd::Freeze { window },
        OneNumber::Mut => Cmd::Mut { window },
        OneNumber::Share => Cmd::Share { window },
        OneNumber::Unique => Cmd::Unique { window },
        OneNumber::Drop => Cmd::Drop { window },
        OneNumber::Meta => Cmd::Meta { window },
        OneNumber::Take => Cmd::Take { window },
        OneNumber::TakeBox => Cmd::TakeBox { window },
        OneNumber::TakeBuf => Cmd::TakeBuf { window },
        OneNumber::TakeRaw => Cmd::TakeRaw { window },
        OneNumber::TakeStatic => Cmd::TakeStatic { window },
    }
}

/// The command of a form of one number, for the number that is left.
#[inline(always)]
#[tactic(auto, unfolding(crate::specs::Reading::read_as))]
fn with_number<A: Allocator>(verb: OneNumber, rest: Rest) -> Option<Command<A>>
    ensures { option_map line_command result
        ≡ read_as (words_in rest.entry) (Verb.Number verb) }
{
    match one_number(rest) {
        Some(number) => Some(number_command(verb, number)),
        None => None,
    }
}

/// The command of a form of two numbers, for these numbers.
#[inline(always)]
fn numbers_command<A: Allocator>(verb: TwoNumbers, window: usize, number: usize) -> Command<A>
    ensures { line_command result ≡ (numbers_form verb).1 window number }
{
    match verb {
        TwoNumbers::Off => Cmd::Off { window, at: number },
        TwoNumbers::To => Cmd::To { window, at: number },
        TwoNumbers::Res => Cmd::Res {
            window,
            additional: number,
        },
        TwoNumbers::Rec => Cmd::Rec {
            window,
            additional: number,
        },
        TwoNumbers::Adv => Cmd::Adv { window, by: number },
        TwoNumbers::Trunc => Cmd::Trunc {
            window,
            len: number,
        },
        TwoNumbers::Join => Cmd::Join {
            window,
            other: number,
        },
    }
}

/// The command of a form of two numbers, for the numbers that are left.
#[inline(always)]
#[tactic(auto, unfolding(crate::specs::Reading::read_as))]
fn with_numbers<A: Allocator>(verb: TwoNumbers, rest: Rest) -> Option<Command<A>>
    ensures { option_map line_command result
        ≡ read_as (words_in rest.entry) (Verb.Numbers verb) }
{
    match two_numbers(rest) {
        Some((window, number)) => Some(numbers_command(verb, window, number)),
        None => None,
    }
}

/// The command `Sub`.
#[inline(always)]
#[tactic(auto, unfolding(crate::specs::Reading::operands_of, crate::specs::Reading::read_as))]
fn sub<A: Allocator>(rest: Rest) -> Option<Command<A>>
    ensures { option_map line_command result ≡ read_as (words_in rest.entry) Verb.Sub }
{
    let Some((window, rest)) = number(rest) else {
        return None;
    };
    let Some((start, end)) = two_numbers(rest) else {
        return None;
    };
    Some(Cmd::Sub { window, start, end })
}

/// The command `Push`.
#[inline(always)]
#[tactic(auto, unfolding(crate::specs::Reading::operands_of, crate::specs::Reading::read_as))]
fn push<A: Allocator>(rest: Rest) -> Option<Command<A>>
    ensures { option_map line_command result ≡ read_as (words_in rest.entry) Verb.Push }
{
    let Some((window, rest)) = number(rest) else {
        return None;
    };
    let Some(item) = one_byte(rest) else {
        return None;
    };
    Some(Cmd::Push { window, item })
}

/// The command of a form of items. `Err` where memory is refused for them.
#[tactic(auto, unfolding(crate::specs::Reading::read_as))]
fn with_items<A: Allocator>(
    alloc: A,
    verb: JustItems,
    rest: Rest,
) -> Result<Option<Command<A>>, AllocError>
    ensures ok { IfOk result (λ said. option_map line_command said
        ≡ read_as (words_in rest.entry) (Verb.Items verb)) }
    ensures err { OnErr result (IsSomeAnd (read_as (words_in rest.entry) (Verb.Items verb))
        BringsItems) }
{
    let Some(hex) = one_hex(rest) else {
        return Ok(None);
    };
    match decoded(alloc, hex) {
        Ok(items) => Ok(Some(match verb {
            JustItems::Slice => Cmd::Slice(items),
            JustItems::MSlice => Cmd::MSlice(items),
            JustItems::Small => Cmd::Small(items),
            JustItems::Vec => Cmd::Vec(items),
            JustItems::Raw => Cmd::Raw(items),
        })),
        Err(error) => Err(error),
    }
}

/// The command `Ext`. `Err` where memory is refused for its items.
#[inline(always)]
#[tactic(auto, unfolding(crate::specs::Reading::operands_of, crate::specs::Reading::read_as))]
fn ext<A: Allocator>(alloc: A, rest: Rest) -> Result<Option<Command<A>>, AllocError>
    ensures ok { IfOk result (λ said. option_map line_command said
        ≡ read_as (words_in rest.entry) Verb.Ext) }
    ensures err { OnErr result (IsSomeAnd (read_as (words_in rest.entry) Verb.Ext) BringsItems) }
{
    let Some((window, rest)) = number(rest) else {
        return Ok(None);
    };
    let Some(hex) = one_hex(rest) else {
        return Ok(None);
    };
    match decoded(alloc, hex) {
        Ok(items) => Ok(Some(Cmd::Ext { window, items })),
        Err(error) => Err(error),
    }
}

/// The command of a line that is one word, if many lines are that word.
#[inline(always)]
#[tactic(auto, unfolding(crate::specs::Reading::command_of, crate::specs::Reading::operands_of))]
fn usual_bare<A: Allocator>(line: &[u8]) -> Option<Command<A>>
    ensures { IfSome result (λ c. Some (line_command c) ≡ command_of (words_of_line line.now)) }
{
    match line {
        [b's', b't', b'a', b't', b'i', b'c'] => {
            Some(Cmd::Static(StaticSlice::new(STATIC_BYTES)))
        }
        _ => None,
    }
}

/// The digits of the items that the first word says, and what is left behind it.
fn first_hex(rest: Rest) -> Option<(Hex, Rest)>
    ensures { option_map (λ x. (Items (pairs x.0.digits.now), words_in x.1)) result
        ≡ first_by (operand_of SomeItems) (words_in rest.entry) }
{
    let Some(line) = rest else {
        return None;
    };
    let (word, rest) = word(line);
    let Some(hex) = digits_in(word) else {
        return None;
    };
    Some((hex, rest))
}

/// The command of a form of items and a number. `Err` where memory is refused for the items.
#[tactic(auto, unfolding(crate::specs::Reading::operands_of, crate::specs::Reading::read_as))]
fn with_items_and_number<A: Allocator>(
    alloc: A,
    verb: ItemsAndNumber,
    rest: Rest,
) -> Result<Option<Command<A>>, AllocError>
    ensures ok { IfOk result (λ said. option_map line_command said
        ≡ read_as (words_in rest.entry) (Verb.ItemsNumber verb)) }
    ensures err { OnErr result (IsSomeAnd (read_as (words_in rest.entry) (Verb.ItemsNumber verb))
        BringsItems) }
{
    let Some((hex, rest)) = first_hex(rest) else {
        return Ok(None);
    };
    let Some(number) = one_number(rest) else {
        return Ok(None);
    };
    let metadata = number as u64;
    match decoded(alloc, hex) {
        Ok(buffer) => Ok(Some(match verb {
            ItemsAndNumber::Buf => Cmd::Buf { buffer, metadata },
            ItemsAndNumber::MBuf => Cmd::MBuf { buffer, metadata },
        })),
        Err(error) => Err(error),
    }
}

/// The command that the words of a line say, or `None` where they say none. `Err` where memory is
/// refused for items.
fn command<A: Allocator>(alloc: A, line: &[u8]) -> Result<Option<Command<A>>, AllocError>
    ensures ok { IfOk result (λ said.
        option_map line_command said ≡ command_of (words_of_line line.now)) }
    ensures err { OnErr result (IsSomeAnd (command_of (words_of_line line.now)) BringsItems) }
{
    let Some((verb, rest)) = verb_of(line) else {
        return Ok(None);
    };
    match verb {
        Verb::Bare(verb) => Ok(with_nothing(verb, rest)),
        Verb::Number(verb) => Ok(with_number(verb, rest)),
        Verb::Numbers(verb) => Ok(with_numbers(verb, rest)),
        Verb::Sub => Ok(sub(rest)),
        Verb::Push => Ok(push(rest)),
        Verb::Items(verb) => with_items(alloc, verb, rest),
        Verb::Ext => ext(alloc, rest),
        Verb::ItemsNumber(verb) => with_items_and_number(alloc, verb, rest),
    }
}

/// The command that a line says, or `None` where it says none (`Says` and `IsBad` in `specs/`). A
/// line of more than `LONGEST_LINE` bytes says none.
///
/// # Errors
///
/// `AllocError` where memory is refused for the items that the command brings.
///
/// # Allocates
///
/// Once for the items that a command brings, a byte for each.
pub fn parse<A: Allocator + Copy>(alloc: A, line: &[u8]) -> Result<Option<Command<A>>, AllocError>
    ensures ok { IfOk result (λ said.
        MatchOption said (IsBad line.now) (λ c. Says line.now (line_command c))) }
    ensures err { OnErr result ((c : ByteCmd) × Says line.now c × BringsItems c) }
{
    if line.len() > LONGEST_LINE {
        return Ok(None);
    }
    command(alloc, line)
}

/// The command that a line says, where it is one of those that many lines say: a form of
/// `usual_verb` with numbers, a byte or items to be appended, or `static`. `None` means that
/// another command may be said, or none.
///
/// # Errors
///
/// `AllocError` where memory is refused for the items that the command brings.
///
/// # Allocates
///
/// Once for items to be appended, a byte for each.
#[inline(always)]
pub fn parse_usual<A: Allocator>(alloc: A, line: &[u8]) -> Result<Option<Command<A>>, AllocError>
    ensures ok { IfOk result (λ said. IfSome said (λ c. Says line.now (line_command c))) }
    ensures err { OnErr result ((c : ByteCmd) × Says line.now c × BringsItems c) }
{
    if line.len() > LONGEST_LINE {
        return Ok(None);
    }
    match usual_verb(line) {
        Some((Verb::Number(verb), rest)) => Ok(with_number(verb, Some(rest))),
        Some((Verb::Numbers(verb), rest)) => Ok(with_numbers(verb, Some(rest))),
        Some((Verb::Sub, rest)) => Ok(sub(Some(rest))),
        Some((Verb::Push, rest)) => Ok(push(Some(rest))),
        Some((Verb::Ext, rest)) => ext(alloc, Some(rest)),
        Some(_) => Ok(None),
        None => Ok(usual_bare(line)),
    }
}

/// No line says two commands. Does nothing: its contract is the law.
pub fn one_command()
    ensures { (line : List ℕ) (c d : ByteCmd) → Says line c → Says line d → c ≡ d }
{}
