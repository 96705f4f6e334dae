//! Words that hold a score, to be changed.
ghost use Rattle.std.specs.Prelude.{◌≡◌, ◌+◌, ◌*◌, ◌<◌, ◌≤◌, length, slice_index};
ghost use Rattle.score.specs.Calls.{put as put_call, cut as cut_call, change as change_call};
ghost use Rattle.score.specs.Meaning.{event_meant};
ghost use Rattle.memory.specs.Moves.{rows_in, rows_out, with_event, without_event, with_other};
ghost use Rattle.memory.specs.Store.{counts_from, limit_in, voices_in};
ghost use Rattle.memory.specs.Words.{Holds, answer_at, next_words};
ghost use Rattle.voices.specs.Said.{said_done};

use super::keeping::keep;
use super::moves::{insert_at, remove_at};
use super::regions::regions_of;
use super::{COUNTS, LIMIT, Span, Stored};
use rows::Row;
use score::{Event, Refusal};

/// What is written for where an event begins before that is derived.
const UNKNOWN: Row = Row {
    place: 0,
    alteration: 0,
    length: 0,
};

/// A score as it is stored in lent words, to be changed.
// What changes it says `same` too, that it lends the same words still: before and after are no field's.
#[derive(Drop)]
pub struct StoredMut<'a> {
    words: &'a mut [u32],
    pub ghost holds: { Holds words.now },
}

// The next five go over plain words: between the first write and the last no score lies there. They take a voice, places and ticks one by one, as the
// definitions with_event, without_event and with_other do.

/// A word comes in at a place of each of three regions of `limit` words, of which so many are in use. The first of them begins at a word.
fn insert_row(words: &mut [u32], begin: usize, limit: usize, used: usize, at: usize, row: Row)
    requires within { at ≤ used }
    requires room { used < limit }
    requires regions { begin + 3 * limit ≤ length words.old }
    ensures { words.new ≡ rows_in words.old begin limit used at row.place row.alteration row.length }
{
    let next = begin + limit;
    let last = next + limit;
    insert_at(words, begin + at, begin + used, row.place);
    insert_at(words, next + at, next + used, row.alteration);
    insert_at(words, last + at, last + used, row.length);
}

/// A word goes out at a place of each of three regions of `limit` words, of which so many are in use. The first of them begins at a word.
fn remove_row(words: &mut [u32], begin: usize, limit: usize, used: usize, at: usize)
    requires within { at < used }
    requires room { used ≤ limit }
    requires regions { begin + 3 * limit ≤ length words.old }
    ensures { words.new ≡ rows_out words.old begin limit used at }
{
    let next = begin + limit;
    let last = next + limit;
    remove_at(words, begin + at, begin + used);
    remove_at(words, next + at, next + used);
    remove_at(words, last + at, last + used);
}

/// An event comes in at a place, into a voice that ends at another and is then so many ticks long. Where the voice's events begin on paper is derived anew
/// behind the event, so of that only other voices' words are moved.
fn insert_event(
    words: &mut [u32],
    voice: usize,
    used: usize,
    at: usize,
    end: usize,
    ticks: u32,
    row: Row,
)
    requires holds { Holds words.old }
    requires there { voice < voices_in words.old }
    requires within { at ≤ used }
    requires inside { end ≤ used }
    requires room { used < limit_in words.old }
    ensures { words.new ≡ with_event words.old voice used at end ticks row.place row.alteration row.length }
{
    let regions = regions_of(words);
    let limit = words[LIMIT] as usize;
    let ticks_at = Stored::of(words).ticks_at(voice);
    let count = words[COUNTS + voice];
    insert_row(words, regions.rows[0], limit, used, at, row);
    words[COUNTS + voice] = count + 1;
    words[ticks_at] = ticks;
    insert_row(words, regions.onsets[0], limit, used, end, UNKNOWN);
}

/// The event at a place goes out, from a voice whose last is at another and which is then so many ticks long.
fn remove_event(words: &mut [u32], voice: usize, used: usize, at: usize, last: usize, ticks: u32)
    requires holds { Holds words.old }
    requires there { voice < voices_in words.old }
    requires some { 0 < slice_index words.old (counts_from + voice) }
    requires within { at < used }
    requires inside { last < used }
    requires room { used ≤ limit_in words.old }
    ensures { words.new ≡ without_event words.old voice used at last ticks }
{
    let regions = regions_of(words);
    let limit = words[LIMIT] as usize;
    let ticks_at = Stored::of(words).ticks_at(voice);
    let count = words[COUNTS + voice];
    remove_row(words, regions.rows[0], limit, used, at);
    words[COUNTS + voice] = count - 1;
    words[ticks_at] = ticks;
    remove_row(words, regions.onsets[0], limit, used, last);
}

/// The event at a place of each region becomes another, in a voice that is then so many ticks long.
fn set_event(words: &mut [u32], voice: usize, at: usize, ticks: u32, row: Row)
    requires holds { Holds words.old }
    requires there { voice < voices_in words.old }
    requires within { at < limit_in words.old }
    ensures { words.new ≡ with_other words.old voice at ticks row.place row.alteration row.length }
{
    let [places, alterations, lengths] = regions_of(words).rows;
    let ticks_at = Stored::of(words).ticks_at(voice);
    words[places + at] = row.place;
    words[alterations + at] = row.alteration;
    words[lengths + at] = row.length;
    words[ticks_at] = ticks;
}

impl<'a> StoredMut<'a> {
    /// The score that words hold.
    pub fn of(words: &'a mut [u32]) -> StoredMut<'a>
        requires { Holds words.old }
        ensures same { result.words.ghost_name ≡ words.entry.ghost_name }
        ensures now { result.words.now ≡ words.entry.now }
    {
        StoredMut { words }
    }

    /// The score, to be read.
    pub fn read(&self) -> Stored<'_>
        ensures { result.words.now ≡ self.now.words.now }
    {
        Stored::of(self.words)
    }

    /// Puts an event into a voice, before its event of an index or last.
    pub fn put(&mut self, voice: u32, index: u32, event: Event) -> Result<(), Refusal>
        ensures same { self.new.words.ghost_name ≡ self.old.words.ghost_name }
        ensures said { said_done result ≡ answer_at self.old.words.now (put_call voice index (event_meant event)) }
        ensures left { self.new.words.now ≡ next_words self.old.words.now (put_call voice index (event_meant event)) }
    {
        let score = self.read();
        let (row, span) = score.find_writable(voice, event)?;
        let Some(at) = span.find(index, span.count + 1) else {
            return Err(Refusal::NoEvent(index));
        };
        let Some(used) = score.find_room() else {
            return Err(Refusal::Full);
        };
        let Some(ticks) = score.find_ticks(voice as usize, 0, row.length) else {
            return Err(Refusal::Full);
        };
        let words = &mut *self.words;
        let end = span.begin + span.count;
        insert_event(words, voice as usize, used, at, end, ticks, row);
        let count = span.count + 1;
        keep(words, Span { count, ..span }, index as usize, count);
        Ok(())
    }

    /// Cuts the event of an index out of a voice.
    pub fn cut(&mut self, voice: u32, index: u32) -> Result<(), Refusal>
        ensures same { self.new.words.ghost_name ≡ self.old.words.ghost_name }
        ensures said { said_done result ≡ answer_at self.old.words.now (cut_call voice index) }
        ensures left { self.new.words.now ≡ next_words self.old.words.now (cut_call voice index) }
    {
        let score = self.read();
        let Some(span) = score.find_voice(voice) else {
            return Err(Refusal::NoVoice(voice));
        };
        let Some(at) = span.find(index, span.count) else {
            return Err(Refusal::NoEvent(index));
        };
        let ticks = score.ticks_of(voice as usize) - score.row_at(at).length;
        let used = score.events_in();
        let words = &mut *self.words;
        let count = span.count - 1;
        remove_event(words, voice as usize, used, at, span.begin + count, ticks);
        keep(words, Span { count, ..span }, index as usize, count);
        Ok(())
    }

    /// Changes the event of an index in a voice into another.
    pub fn change(&mut self, voice: u32, index: u32, event: Event) -> Result<(), Refusal>
        ensures same { self.new.words.ghost_name ≡ self.old.words.ghost_name }
        ensures said { said_done result ≡ answer_at self.old.words.now (change_call voice index (event_meant event)) }
        ensures left { self.new.words.now ≡ next_words self.old.words.now (change_call voice index (event_meant event)) }
    {
        let score = self.read();
        let (row, span) = score.find_writable(voice, event)?;
        let Some(at) = span.find(index, span.count) else {
            return Err(Refusal::NoEvent(index));
        };
        let old = score.row_at(at);
        let Some(ticks) = score.find_ticks(voice as usize, old.length, row.length) else {
            return Err(Refusal::Full);
        };
        let end = score.end_of_change(span, index as usize, row.length == old.length);
        let words = &mut *self.words;
        set_event(words, voice as usize, at, ticks, row);
        keep(words, span, index as usize, end);
        Ok(())
    }
}
