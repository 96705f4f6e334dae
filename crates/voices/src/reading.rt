//! Words that hold a score, to be read.
ghost use Rattle.std.specs.Prelude.{◌≡◌, ◌+◌, ◌-◌, ◌^◌, ◌<◌, ◌≤◌, length, take, drop, sum, true, ◌⊎◌, ◌≢◌, MatchOption, MatchResult, slice_index};
ghost use Rattle.std.specs.Option.{option_map};
ghost use Rattle.score.specs.Meaning.{event_meant};
ghost use Rattle.score.specs.Music.{length_end, total};
ghost use Rattle.score.specs.Calls.{all_events, ticks_end, how_long, voice as voice_of_score};
ghost use Rattle.memory.specs.Store.{counts_from, ticks_from, voices_in, limit_in, places_from, alterations_from, lengths_from, bars_from, beats_from, signs_from, score_of};
ghost use Rattle.memory.specs.Words.{Holds, Spans, answer_at};
ghost use Rattle.voices.specs.Said.{said_number, event_at, Writable, NotWritable};
ghost use Rattle.voices.specs.Rows.{row_in};

use super::regions::regions_of;
use super::{BAR, COUNTS, KEY, LIMIT, Span, VOICES, find_row};
use rows::{Onsets, Row, Rows};
use score::{Event, Layout, Refusal, TICKS_END};

/// A score as it is stored in lent words.
#[derive(Clone, Copy, PartialEq, Eq, Debug)]
pub struct Stored<'a> {
    words: &'a [u32],
    pub ghost holds: { Holds words.now },
}

/// The sum of some words.
fn sum_of(words: &[u32]) -> u32
    requires { sum words.now < 2 ^ 32 }
    ensures { result ≡ sum words.now }
{
    words.iter().sum()
}

impl<'a> Stored<'a> {
    /// The score that words hold.
    pub fn of(words: &'a [u32]) -> Stored<'a>
        requires { Holds words.now }
        ensures { result.words.now ≡ words.now }
    {
        Stored { words }
    }

    /// How the score is laid out.
    pub fn layout(self) -> Layout
        ensures { result ≡ record { key = slice_index self.entry.words.now 0; bar = slice_index self.entry.words.now 1 } }
    {
        Layout {
            key: self.words[KEY],
            bar: self.words[BAR],
        }
    }

    /// The counts of the voices' events, in the order of the voices.
    pub fn counts(self) -> &'a [u32]
        ensures { result.now ≡ take (voices_in self.entry.words.now) (drop counts_from self.entry.words.now) }
    {
        let words = self.words;
        &words[COUNTS..COUNTS + words[VOICES] as usize]
    }

    /// The rows of words of the events that lie in a span.
    pub fn rows(self, span: Span) -> Rows<'a>
        requires { span.begin + span.count ≤ limit_in self.words.now }
        ensures places { result.places.now ≡ take span.count (drop (places_from self.entry.words.now + span.begin) self.entry.words.now) }
        ensures alterations { result.alterations.now ≡ take span.count (drop (alterations_from self.entry.words.now + span.begin) self.entry.words.now) }
        ensures lengths { result.lengths.now ≡ take span.count (drop (lengths_from self.entry.words.now + span.begin) self.entry.words.now) }
    {
        let words = self.words;
        let [places, alterations, lengths] = regions_of(words).rows;
        Rows {
            places: span.part_of(words, places),
            alterations: span.part_of(words, alterations),
            lengths: span.part_of(words, lengths),
        }
    }

    /// Where the events that lie in a span begin on paper.
    pub fn onsets(self, span: Span) -> Onsets<'a>
        requires { span.begin + span.count ≤ limit_in self.words.now }
        ensures bars { result.bars.now ≡ take span.count (drop (bars_from self.entry.words.now + span.begin) self.entry.words.now) }
        ensures ticks { result.ticks.now ≡ take span.count (drop (beats_from self.entry.words.now + span.begin) self.entry.words.now) }
        ensures signs { result.signs.now ≡ take span.count (drop (signs_from self.entry.words.now + span.begin) self.entry.words.now) }
    {
        let words = self.words;
        let [bars, ticks, signs] = regions_of(words).onsets;
        Onsets {
            bars: span.part_of(words, bars),
            ticks: span.part_of(words, ticks),
            signs: span.part_of(words, signs),
        }
    }

    /// The rows of words of all events, and behind them the rest of each region, up to the limit.
    pub fn regions(self) -> Rows<'a>
        ensures places { result.places.now ≡ take (limit_in self.entry.words.now) (drop (places_from self.entry.words.now) self.entry.words.now) }
        ensures alterations { result.alterations.now ≡ take (limit_in self.entry.words.now) (drop (alterations_from self.entry.words.now) self.entry.words.now) }
        ensures lengths { result.lengths.now ≡ take (limit_in self.entry.words.now) (drop (lengths_from self.entry.words.now) self.entry.words.now) }
    {
        self.rows(Span {
            begin: 0,
            count: self.words[LIMIT] as usize,
        })
    }

    /// The words of the event at a place in each region.
    pub(crate) fn row_at(self, at: usize) -> Row
        requires { at < limit_in self.words.now }
        ensures { result ≡ row_in self.entry.words.now at }
    {
        self.regions().row(at)
    }

    /// How many events stand before a voice, in the voices before it.
    fn events_before(self, voice: usize) -> usize
        requires { voice ≤ voices_in self.words.now }
        ensures value { result ≡ all_events (take voice (score_of self.entry.words.now)) }
        ensures small { result ≤ limit_in self.entry.words.now }
    {
        sum_of(&self.words[COUNTS..COUNTS + voice]) as usize
    }

    /// How many events there are in all voices.
    pub(crate) fn events_in(self) -> usize
        ensures value { result ≡ all_events (score_of self.entry.words.now) }
        ensures small { result ≤ limit_in self.entry.words.now }
    {
        self.events_before(self.words[VOICES] as usize)
    }

    /// How many events there are, if there may be one more.
    pub(crate) fn find_room(self) -> Option<usize>
        ensures { MatchOption result (limit_in self.entry.words.now ≤ all_events (score_of self.entry.words.now)) (λ u. (u ≡ all_events (score_of self.entry.words.now)) × (u < limit_in self.entry.words.now)) }
    {
        let used = self.events_in();
        (used < self.words[LIMIT] as usize).then_some(used)
    }

    /// A voice's number as an index, if the voice is there.
    fn voice_index(self, voice: u32) -> Option<usize>
        ensures { MatchOption result (voices_in self.entry.words.now ≤ voice) (λ v. (v ≡ voice) × (v < voices_in self.entry.words.now)) }
    {
        (voice < self.words[VOICES]).then_some(voice as usize)
    }

    /// Where the events of a voice lie, if the voice is there.
    pub fn find_voice(self, voice: u32) -> Option<Span>
        ensures { MatchOption result (voices_in self.entry.words.now ≤ voice) (λ p. Spans self.entry.words.now voice p.begin p.count) }
    {
        let index = self.voice_index(voice)?;
        let begin = self.events_before(index);
        let count = self.words[COUNTS + index] as usize;
        Some(Span { begin, count })
    }

    // Here and where a score is changed each check hands on its value or returns the refusal (a rule of the project).
    /// What a put and a change begin with: the words of the event, and where the events of the voice lie; or why neither can be done.
    pub(crate) fn find_writable(self, voice: u32, event: Event) -> Result<(Row, Span), Refusal>
        ensures { MatchResult result (λ b. Writable self.entry.words.now voice (event_meant event) b.0 b.1) (λ f. NotWritable self.entry.words.now voice (event_meant event) f) }
    {
        let Some(row) = find_row(event) else {
            return Err(Refusal::OutOfRange);
        };
        let Some(span) = self.find_voice(voice) else {
            return Err(Refusal::NoVoice(voice));
        };
        Ok((row, span))
    }

    /// The event of a voice at an index, if it is there.
    pub fn find_event(self, voice: u32, index: u32) -> Option<Event>
        ensures { option_map event_meant result ≡ event_at (score_of self.entry.words.now) voice index }
    {
        let span = self.find_voice(voice)?;
        let at = span.find(index, span.count)?;
        Event::try_from(self.row_at(at)).ok()
    }

    /// Which word says how long a voice is that is there.
    // A voice that is there is its number, here and where a score is changed: the definitions take the number, and a value of its own would be taken apart.
    pub(crate) fn ticks_at(self, voice: usize) -> usize
        requires { voice < voices_in self.words.now }
        ensures { result ≡ ticks_from self.entry.words.now + voice }
    {
        COUNTS + self.words[VOICES] as usize + voice
    }

    /// How long a voice is that is there.
    pub(crate) fn ticks_of(self, voice: usize) -> u32
        requires { voice < voices_in self.words.now }
        ensures value { result ≡ total (voice_of_score (score_of self.entry.words.now) voice) }
        ensures short { result < ticks_end }
    {
        self.words[self.ticks_at(voice)]
    }

    /// How long a voice is.
    pub fn how_long(self, voice: u32) -> Result<u32, Refusal>
        ensures { said_number result ≡ answer_at self.entry.words.now (how_long voice) }
    {
        let Some(index) = self.voice_index(voice) else {
            return Err(Refusal::NoVoice(voice));
        };
        Ok(self.ticks_of(index))
    }

    /// How long a voice is with some ticks less and some more, if that is not too long.
    pub(crate) fn find_ticks(self, voice: usize, less: u32, more: u32) -> Option<u32>
        requires there { voice < voices_in self.words.now }
        requires less { less ≤ total (voice_of_score (score_of self.words.now) voice) }
        requires more { more < length_end }
        ensures { MatchOption result (ticks_end ≤ total (voice_of_score (score_of self.entry.words.now) voice) - less + more) (λ t. (t ≡ total (voice_of_score (score_of self.entry.words.now) voice) - less + more) × (t < ticks_end)) }
    {
        let ticks = self.ticks_of(voice) - less + more;
        (ticks < TICKS_END).then_some(ticks)
    }

    /// How far a change of an event reaches: if the event is as long as it was, up to the first event behind it that begins in another bar, else to the
    /// voice's end.
    pub(crate) fn end_of_change(self, span: Span, index: usize, same: bool) -> usize
        requires there { index < span.count }
        requires within { span.begin + span.count ≤ limit_in self.words.now }
        ensures behind { index < result }
        ensures within { result ≤ span.count }
        ensures other { (result ≡ span.count) ⊎ ((same ≡ true) × (slice_index self.entry.words.now (bars_from self.entry.words.now + (span.begin + result)) ≢ slice_index self.entry.words.now (bars_from self.entry.words.now + (span.begin + index)))) }
    {
        if !same {
            return span.count;
        }
        let bars = self.onsets(span).bars;
        let behind = index + 1;
        let other = bars[behind..].iter().position(|bar| *bar != bars[index]);
        other.map_or(span.count, |passed| behind + passed)
    }
}
