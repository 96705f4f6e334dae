//! Events as records: numbers, four to a record, that are put last in their voices one after the other.
#![tactic(auto)]

ghost use Rattle.std.specs.Prelude.{◌≡◌, ◌<◌, ◌≤◌, length};
ghost use Rattle.std.specs.Iterator.{YieldsFirst, item_count};
ghost use Rattle.score.specs.Calls.{voice as voice_of_score};
ghost use Rattle.memory.specs.Store.{score_of};
ghost use Rattle.memory.specs.Words.{Holds, answer_at, next_words};
ghost use Rattle.voices.specs.Said.{said_done};
ghost use Rattle.records.specs.Records.{put_last, records_of, end_of, entered, said_next, SoManyPuts};

use rows::Row;
use score::{Event, Refusal};
use voices::{Stored, StoredMut};

/// An event for a voice, as numbers. The alteration of a silence is not read.
#[derive(Clone, Copy, PartialEq, Eq, Debug)]
pub struct Record {
    pub voice: u32,
    pub row: Row,
}

/// Records as they stand in numbers, four to each, given from the front on; numbers that are over at the end are none.
#[derive(Clone, Copy)]
struct Records<'a> {
    numbers: &'a [u32],
}

impl Iterator for Records<'_> {
    type Item = Record;

    ghost next_gives = { YieldsFirst (λ r. records_of r.numbers.now) };

    ghost remaining = { item_count (λ r. records_of r.numbers.now) };

    fn next(&mut self) -> Option<Record> {
        let [voice, place, alteration, length, rest @ ..] = self.numbers else {
            return None;
        };
        self.numbers = rest;
        let row = Row {
            place: *place,
            alteration: *alteration,
            length: *length,
        };
        Some(Record { voice: *voice, row })
    }
}

/// How many records were put, and why the next was not, if one was left.
#[derive(Clone, Copy, PartialEq, Eq, Debug)]
pub struct Entered {
    pub count: usize,
    pub refusal: Option<Refusal>,
}

/// How many events a voice has, which is none if it is not there.
fn count_of(score: Stored<'_>, voice: u32) -> u32
    ensures { result ≡ length (voice_of_score (score_of score.entry.words.now) voice) }
{
    score.find_voice(voice).map_or(0, |span| span.count as u32)
}

impl Record {
    /// Puts the event last in its voice. One that has a number too large for its field cannot be written.
    fn put_last(self, score: &mut StoredMut<'_>) -> Result<(), Refusal>
        ensures same { score.new.words.ghost_name ≡ score.old.words.ghost_name }
        ensures said { said_done result ≡ answer_at score.old.words.now (put_last (score_of score.old.words.now) self) }
        ensures left { score.new.words.now ≡ next_words score.old.words.now (put_last (score_of score.old.words.now) self) }
    {
        let Ok(event) = Event::try_from(self.row) else {
            return Err(Refusal::OutOfRange);
        };
        let count = count_of(score.read(), self.voice);
        score.put(self.voice, count, event)
    }
}

/// Numbers that are over behind the last record are one that ends too early.
fn end_of(numbers: &[u32]) -> Option<Refusal>
    requires { length numbers.now < 4294967296 }
    ensures { said_next result ≡ end_of numbers.now }
{
    (numbers.len() % 4 != 0).then_some(Refusal::Unreadable(numbers.len() as u32))
}

/// Puts records last in their voices of a score, one after the other, until one cannot be.
fn put_all(score: &mut StoredMut<'_>, numbers: &[u32]) -> Entered
    ensures same { score.new.words.ghost_name ≡ score.old.words.ghost_name }
    ensures few { result.count ≤ 65536 }
    ensures count { result.count ≡ (entered score.old.words.now numbers.now).count }
    ensures next { said_next result.refusal ≡ (entered score.old.words.now numbers.now).next }
    ensures left { score.new.words.now ≡ (entered score.old.words.now numbers.now).words }
    ensures puts { SoManyPuts score.old.words.now (records_of numbers.now) score.new.words.now result.count (said_next result.refusal) }
{
    let records = Records { numbers };
    for (count, record) in records.enumerate() {
        if let Err(refusal) = record.put_last(score) {
            return Entered {
                count,
                refusal: Some(refusal),
            };
        }
    }
    Entered {
        count: numbers.len() / 4,
        refusal: end_of(numbers),
    }
}

/// Puts records last in their voices, one after the other, until one cannot be. It takes words, since callers lend a part of theirs, and what a StoredMut
/// leaves in a part is not known when it is back: its value in the goal is any of that length (`words-1.given.0`).
pub fn put_records(words: &mut [u32], numbers: &[u32]) -> Entered
    requires { Holds words.old }
    ensures few { result.count ≤ 65536 }
    ensures count { result.count ≡ (entered words.old numbers.now).count }
    ensures next { said_next result.refusal ≡ (entered words.old numbers.now).next }
    ensures left { words.new ≡ (entered words.old numbers.now).words }
    ensures puts { SoManyPuts words.old (records_of numbers.now) words.new result.count (said_next result.refusal) }
    ensures holds { Holds words.new }
{
    put_all(&mut StoredMut::of(words), numbers)
}
