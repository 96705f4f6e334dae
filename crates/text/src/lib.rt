//! What a line of text says: an event, a call, a setting.
#![tactic(auto)]

ghost use Rattle.std.specs.Prelude.{◌≡◌, Some};
ghost use Rattle.text.specs.Lines.{alteration, alteration_word, beginning, event, event_read, note_on, length_on, verb, field, edit_on, edit_read, pair_on, bars_on, call_on, call_words, call_read, named, whole, call_line, event_line, setting_line, said};
ghost use Rattle.score.specs.Calls.{refused};
ghost use Rattle.score.specs.Spelling.{spelled_answer};
ghost use Rattle.score.specs.Meaning.{call_meant, event_meant};
ghost use Rattle.words.specs.Words.{outcome};

use score::{Call, Event};
use std::error::Error;
use std::fmt;
use words::{Read, read_one_of, read_place, read_spaced, read_word};

/// The number under which a line that cannot be read stands in the list of refusals.
// Not `Refusal::Unreadable`: its place has four bytes, and a line may be longer.
pub const UNREADABLE: u8 = 1;

/// The first byte of a line that does not fit, or its length where it ends too early.
#[derive(Clone, Copy, PartialEq, Eq, Debug)]
pub struct Unfit {
    pub at: usize,
}

/// As what answers a line that is no call: `refused 1 at 4`.
impl fmt::Display for Unfit {
    ghost output = { λ u. Some (spelled_answer (refused 1 u.at)) };

    fn fmt<W: fmt::Write>(&self, f: &mut fmt::Formatter<W>) -> fmt::Result {
        let at = self.at;
        write!(f, "refused {UNREADABLE} at {at}")
    }
}

impl Error for Unfit {}

/// How an event begins.
#[derive(Clone, Copy, PartialEq, Eq, Debug)]
pub enum Beginning {
    Step(u8),
    Silence,
}

/// Which call a line is.
#[derive(Clone, Copy, PartialEq, Eq, Debug)]
pub enum Verb {
    Put,
    Cut,
    Change,
    Show,
    HeardIn,
    HowLong,
}

/// Reads how an event begins: with a step, or as a silence.
// Not notation's table of steps: silence is an eighth word, and which of all words fits furthest says where a line is refused.
#[tactic(auto, unfolding(crate::specs::Lines::beginning))]
fn read_beginning(line: &[u8]) -> Read<Beginning>
    ensures { outcome result ≡ beginning line.now }
{
    read_one_of(
        line,
        &[
            ("c", Beginning::Step(0)),
            ("d", Beginning::Step(1)),
            ("e", Beginning::Step(2)),
            ("f", Beginning::Step(3)),
            ("g", Beginning::Step(4)),
            ("a", Beginning::Step(5)),
            ("b", Beginning::Step(6)),
            ("silence", Beginning::Silence),
        ],
    )
}

/// Reads one of the alterations but for none.
#[tactic(auto, unfolding(crate::specs::Lines::alteration_word))]
fn read_alteration_word(line: &[u8]) -> Read<u8>
    ensures { outcome result ≡ alteration_word line.now }
{
    read_one_of(
        line,
        &[
            ("double flat ", 0),
            ("flat ", 1),
            ("sharp ", 3),
            ("double sharp ", 4),
        ],
    )
}

/// Reads how a note is altered: a space leads to an alteration, else there is none.
fn read_alteration(line: &[u8]) -> Read<u8>
    ensures { outcome result ≡ alteration line.now }
{
    match read_word(line, b" ") {
        Ok(rest) => read_alteration_word(rest),
        // an alteration is a number (see `Event`), and none is 2
        Err(_) => Ok((2, line)),
    }
}

/// Reads a length.
fn read_length(line: &[u8]) -> Read<u16>
    ensures { outcome result ≡ length_on line.now }
{
    let (length, rest) = read_spaced(line, u16::MAX as u32)?;
    Ok((length as u16, rest))
}

/// Reads a note behind its step.
fn read_note(line: &[u8], step: u8) -> Read<Event>
    ensures { event_read (outcome result) ≡ note_on step line.now }
{
    let (alteration, rest) = read_alteration(line)?;
    let (place, rest) = read_place(rest, step)?;
    let (length, rest) = read_length(rest)?;
    Ok((
        Event::Note {
            place,
            alteration,
            length,
        },
        rest,
    ))
}

/// Reads an event, as `c4 48`, `f sharp 4 96` or `silence 60`.
pub fn read_event(line: &[u8]) -> Read<Event>
    ensures { event_read (outcome result) ≡ event line.now }
{
    let (beginning, rest) = read_beginning(line)?;
    match beginning {
        Beginning::Step(step) => read_note(rest, step),
        Beginning::Silence => {
            let (length, rest) = read_length(rest)?;
            Ok((Event::Silence { length }, rest))
        }
    }
}

/// Reads which call a line is, by its first word.
#[tactic(auto, unfolding(crate::specs::Lines::verb))]
fn read_verb(line: &[u8]) -> Read<Verb>
    ensures { outcome result ≡ verb line.now }
{
    read_one_of(
        line,
        &[
            ("put", Verb::Put),
            ("cut", Verb::Cut),
            ("change", Verb::Change),
            ("show", Verb::Show),
            ("heard in", Verb::HeardIn),
            ("how long", Verb::HowLong),
        ],
    )
}

/// Reads a field of a call.
fn read_field(line: &[u8]) -> Read<u32>
    ensures { outcome result ≡ field line.now }
{
    read_spaced(line, u32::MAX)
}

/// Reads two fields: a voice and an index, or from where to where.
fn read_pair(line: &[u8]) -> Read<(u32, u32)>
    ensures { outcome result ≡ pair_on line.now }
{
    let (first, rest) = read_field(line)?;
    let (second, rest) = read_field(rest)?;
    Ok(((first, second), rest))
}

/// Reads a voice, an index and an event.
fn read_edit(line: &[u8]) -> Read<(u32, u32, Event)>
    ensures { edit_read (outcome result) ≡ edit_on line.now }
{
    let ((voice, index), rest) = read_pair(line)?;
    let rest = read_word(rest, b" ")?;
    let (event, rest) = read_event(rest)?;
    Ok(((voice, index, event), rest))
}

/// Reads a voice, a bar and how many bars.
fn read_bars(line: &[u8]) -> Read<(u32, u32, u32)>
    ensures { outcome result ≡ bars_on line.now }
{
    let ((voice, bar), rest) = read_pair(line)?;
    let (count, rest) = read_field(rest)?;
    Ok(((voice, bar, count), rest))
}

/// Reads a call behind its first word.
fn read_fields(line: &[u8], verb: Verb) -> Read<Call>
    ensures { call_read (outcome result) ≡ call_on verb line.now }
{
    match verb {
        Verb::Put => read_edit(line).map(|((voice, index, event), rest)| {
            (
                Call::Put {
                    voice,
                    index,
                    event,
                },
                rest,
            )
        }),
        Verb::Cut => {
            read_pair(line).map(|((voice, index), rest)| (Call::Cut { voice, index }, rest))
        }
        Verb::Change => read_edit(line).map(|((voice, index, event), rest)| {
            (
                Call::Change {
                    voice,
                    index,
                    event,
                },
                rest,
            )
        }),
        Verb::Show => read_bars(line).map(|((voice, bar, count), rest)| (
            Call::Show { voice, bar, count },
            rest,
        )),
        Verb::HeardIn => {
            read_pair(line).map(|((from, to), rest)| (Call::HeardIn { from, to }, rest))
        }
        Verb::HowLong => read_field(line).map(|(voice, rest)| (Call::HowLong { voice }, rest)),
    }
}

/// What was read of a line, if that is all of it.
fn all_of<T: Drop>(line: &[u8], read: Read<T>) -> Result<T, Unfit>
    ensures { said (λ x. x) result ≡ whole line.now (outcome read.entry) }
{
    match read {
        Ok((value, [])) => Ok(value),
        Ok((_, rest)) | Err(rest) => Err(Unfit {
            at: line.len().saturating_sub(rest.len()),
        }),
    }
}

/// The call that the words at the front of a line say, and what is behind it.
fn read_words(line: &[u8]) -> Read<Call>
    ensures { call_read (outcome result) ≡ call_words line.now }
{
    let (verb, rest) = read_verb(line)?;
    read_fields(rest, verb)
}

/// The call that a line says.
pub fn read_call(line: &[u8]) -> Result<Call, Unfit>
    ensures { said call_meant result ≡ call_line line.now }
{
    all_of(line, read_words(line))
}

/// The event that a line says.
pub fn read_event_line(line: &[u8]) -> Result<Event, Unfit>
    ensures { said event_meant result ≡ event_line line.now }
{
    all_of(line, read_event(line))
}

/// The number behind a name at the front of a line, and what is behind it.
fn read_named<'a>(line: &'a [u8], name: &str) -> Read<'a, u32>
    ensures { outcome result ≡ named name.now line.now }
{
    let rest = read_word(line, name.as_bytes())?;
    read_field(rest)
}

/// The number that a line gives a setting of this name, as `key 7`.
pub fn read_setting(line: &[u8], name: &str) -> Result<u32, Unfit>
    ensures { said (λ x. x) result ≡ setting_line name.now line.now }
{
    all_of(line, read_named(line, name))
}
