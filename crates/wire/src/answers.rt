//! Answers: what is written, and what is read of it.
ghost use Rattle.std.specs.Prelude.{◌≡◌, ◌≤◌, ◌++◌, length, drop};
ghost use Rattle.score.specs.Calls as Calls;
ghost use Rattle.score.specs.Calls.{done};
ghost use Rattle.score.specs.Meaning.{refusal_meant};
ghost use Rattle.wire.specs.Bytes.{symbols_head, sounds_head, said_bytes, answer_bytes};
ghost use Rattle.wire.specs.Reading.{number_of, refusal_of, said_of};

use super::{write_fields, write_row};
use score::{Answer, Refusal};

// The first byte of an answer says its kind:
const DONE: u8 = 0;

const REFUSED: u8 = 1;

const SYMBOLS: u8 = 2;

const SOUNDS: u8 = 3;

const NUMBER: u8 = 4;

/// How long an answer's head is, behind which its symbols or sounds stand: its kind, and how many they are.
pub const ITEMS_AT: usize = 5;

/// Writes what is said first in an answer, and returns how many bytes that is; symbols or sounds may stand behind already.
#[tactic(auto, unfolding(crate::specs::Bytes::each))]
pub fn write_answer(out: &mut [u8], answer: Answer) -> usize
    requires { length (said_bytes answer) ≤ length out.old }
    ensures wrote { out.new ≡ said_bytes answer ++ drop result out.old }
    ensures many { result ≡ length (said_bytes answer) }
{
    match answer {
        Answer::Done => write_fields(out, DONE, &[]),
        Answer::Refused { number, place } => {
            let [a, b, c, d] = place.to_le_bytes();
            write_row(out, &[REFUSED, number, a, b, c, d])
        }
        Answer::Symbols { count } => write_fields(out, SYMBOLS, &[count]),
        Answer::Sounds { count } => write_fields(out, SOUNDS, &[count]),
        Answer::Number { number } => write_fields(out, NUMBER, &[number]),
    }
}

/// Writes the answer that a call, or an opening, was turned away.
pub fn write_refused(out: &mut [u8], refusal: Refusal) -> usize
    requires { 6 ≤ length out.old }
    ensures wrote { out.new ≡ answer_bytes (refusal_meant refusal) ++ drop result out.old }
    ensures many { result ≡ 6 }
{
    write_answer(out, Answer::from(refusal))
}

/// What is said first in the answer that stands at the front of bytes: none if they are too few or its kind is unknown.
pub fn read_answer(bytes: &[u8]) -> Option<Answer>
    ensures { result ≡ said_of bytes.now }
{
    let [kind, rest @ ..] = bytes else {
        return None;
    };
    // An enum of kinds of answer would need this match, from a byte, and another to what is read by it.
    match *kind {
        DONE => Some(Answer::Done),
        REFUSED => read_refusal(rest),
        SYMBOLS => read_number(rest).map(|count| Answer::Symbols { count }),
        SOUNDS => read_number(rest).map(|count| Answer::Sounds { count }),
        NUMBER => read_number(rest).map(|number| Answer::Number { number }),
        _ => None,
    }
}

/// A refusal's number and place.
fn read_refusal(bytes: &[u8]) -> Option<Answer>
    ensures { result ≡ refusal_of bytes.now }
{
    let [number, rest @ ..] = bytes else {
        return None;
    };
    let place = read_number(rest)?;
    Some(Answer::Refused {
        number: *number,
        place,
    })
}

/// A number in four bytes.
fn read_number(bytes: &[u8]) -> Option<u32>
    ensures { result ≡ number_of bytes.now }
{
    Some(u32::from_le_bytes(*bytes.first_chunk()?))
}
