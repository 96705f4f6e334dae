//! All voices of a score together.
ghost use Rattle.std.specs.Prelude.{◌≡◌, ℕ, ◌+◌, ◌*◌, ◌<◌, ◌≤◌, ◌++◌, length, take, drop, sum, slice_index};
ghost use Rattle.score.specs.Calls.{all_events, widest_span, together};
ghost use Rattle.wire.specs.Bytes.{sounds_bytes};
ghost use Rattle.memory.specs.Store.{score_of};
ghost use Rattle.sounds.specs.Spans.{grain, silences, Laid, AllTimed};

use super::slots::Slots;
use super::{reach, silences_first, sound_of};
use rows::{Onsets, Row, Rows};
use score::{MOST_VOICES, Sound};
use voices::{Span, Stored};
use wire::Item;

/// There are as many cursors as there may be voices.
const CURSORS: usize = MOST_VOICES as usize;

/// The voices of a score as they lie in lent words: how many events each has, and the events of all, one voice after the other. With them is kept where they
/// begin on paper, in bars of so many ticks.
#[derive(Clone, Copy)]
pub struct Voices<'a> {
    counts: &'a [u32],
    rows: Rows<'a>,
    onsets: Onsets<'a>,
    measure: usize,
    ghost laid: { Laid counts.now rows.places.now rows.alterations.now rows.lengths.now },
    ghost timed: { AllTimed counts.now rows.lengths.now measure onsets.bars.now onsets.ticks.now },
}

impl<'a> From<Stored<'a>> for Voices<'a> {
    ghost use Rattle.sounds.specs.Scores.{score_in};

    ghost from_gives = { λ s v. score_in v ≡ score_of s.words.now };

    fn from(score: Stored<'a>) -> Voices<'a> {
        let rows = score.regions();
        let all = Span {
            begin: 0,
            count: rows.places.len(),
        };
        Voices {
            counts: score.counts(),
            rows,
            onsets: score.onsets(all),
            measure: score.layout().bar as usize,
        }
    }
}

impl Voices<'_> {
    ghost use Rattle.rows.specs.Rows.{row_at};
    ghost use Rattle.sounds.specs.Spans.{passed, ticks_from, part};
    ghost use Rattle.sounds.specs.Scores.{score_in, end_of, all_left, Marks, IsMarked};

    /// Sets a voice's bit in the slots in which it begins notes; its events lie in a span. Returns how many of them begin before the first slot.
    fn mark_voice(self, voice: usize, span: Span, slots: &mut Slots) -> usize
        requires there { voice < length self.counts.now }
        requires begin { span.begin ≡ sum (take voice self.counts.now) }
        requires count { span.count ≡ slice_index self.counts.now voice }
        ensures index { result ≡ passed (grain * slots.old.first) 0 (part self.entry.counts.now voice self.entry.rows.lengths.now) }
        ensures marked { Marks voice (ticks_from (end_of slots.old) (part self.entry.counts.now voice self.entry.rows.places.now) (part self.entry.counts.now voice self.entry.rows.lengths.now) result) slots.old slots.new }
        ensures inside { result ≤ span.count }
        ensures reached { result < span.count → grain * slots.old.first ≤ sum (take result (part self.entry.counts.now voice self.entry.rows.lengths.now)) }
    {
        let end = span.begin + span.count;
        let bars = &self.onsets.bars[span.begin..end];
        let ticks = &self.onsets.ticks[span.begin..end];
        let from = slots.tick(0) as usize;
        let Some((passed, tick)) = reach(bars, ticks, self.measure, from) else {
            return span.count;
        };
        let next = span.begin + passed;
        let places = &self.rows.places[next..end];
        let lengths = &self.rows.lengths[next..end];
        slots.mark(voice as u32, tick, places, lengths);
        passed
    }

    /// Sets the bits of all voices in empty slots, where they begin notes. Returns which event comes first in each voice from the first slot on.
    #[tactic(auto, using(crate::proofs::Walks::ticks_more))]
    fn mark(self, slots: &mut Slots) -> [usize; CURSORS]
        requires empty { (k : ℕ) → slice_index slots.old.voices k ≡ 0 }
        ensures ready { IsMarked self.entry result slots.new }
        ensures whole { all_left self.entry result slots.new ≡ together (score_in self.entry) 0 (grain * slots.old.first) (end_of slots.old) }
    {
        let mut cursors = [0; CURSORS];
        let mut begin = 0;
        for (voice, count) in self.counts.iter().enumerate() {
            let span = Span {
                begin,
                count: *count as usize,
            };
            let passed = self.mark_voice(voice, span, slots);
            // by its index: what is written through a zip with `iter_mut()` is not known in the loop's invariant (tried)
            cursors[voice] = begin + passed;
            begin += span.count;
        }
        cursors
    }

    /// The next note from an event on, over silences: where it stands, and its words.
    fn next_note(self, from: usize) -> (usize, Row)
        requires { from + silences (drop from self.rows.places.now) < length self.rows.places.now }
        ensures at { result.0 ≡ from + silences (drop from self.entry.rows.places.now) }
        ensures row { result.1 ≡ row_at self.entry.rows result.0 }
    {
        let at = from + silences_first(&self.rows.places[from..]);
        (at, self.rows.row(at))
    }

    /// Writes the notes that begin from a tick up to before another, by time, and by voice where times are the same. Returns how many they are.
    pub fn write_span(self, from: u32, to: u32, out: &mut [u8]) -> usize
        requires span { to ≤ from + widest_span }
        requires room { 8 * all_events (score_in self) ≤ length out.old }
        ensures wrote { out.new ≡ sounds_bytes (together (score_in self.entry) 0 from to) ++ drop (8 * result) out.old }
        ensures many { result ≡ length (together (score_in self.entry) 0 from to) }
    {
        if let [_] = self.counts {
            return self.write_alone(from, to, out);
        }
        let mut slots = Slots::of(from, to);
        let cursors = self.mark(&mut slots);
        self.write(&slots, cursors, out)
    }

    /// Writes the notes of the only voice that begin from a tick up to before another: there is nothing to merge. Returns how many they are.
    fn write_alone(self, from: u32, to: u32, out: &mut [u8]) -> usize
        requires alone { length self.counts.now ≡ 1 }
        requires room { 8 * length (together (score_in self) 0 from to) ≤ length out.old }
        ensures wrote { out.new ≡ sounds_bytes (together (score_in self.entry) 0 from to) ++ drop (8 * result) out.old }
        ensures many { result ≡ length (together (score_in self.entry) 0 from to) }
    {
        let end = self.counts[0] as usize;
        let bars = &self.onsets.bars[..end];
        let ticks = &self.onsets.ticks[..end];
        let Some((first, mut tick)) = reach(bars, ticks, self.measure, from as usize) else {
            return 0;
        };
        let mut count = 0;
        for at in first..end {
            if tick >= to as usize {
                return count;
            }
            let row = self.rows.row(at);
            if !row.is_silent() {
                sound_of(row, 0, tick as u32).write(&mut out[Sound::SIZE * count..]);
                count += 1;
            }
            tick += row.length as usize;
        }
        count
    }

    /// Writes the notes that slots tell of: slot by slot, and in each the voices in order; a cursor says which event comes next in its voice. Returns how many
    /// they are.
    fn write(self, slots: &Slots, mut cursors: [usize; CURSORS], out: &mut [u8]) -> usize
        requires ready { IsMarked self cursors slots.now }
        requires room { 8 * length (all_left self cursors slots.now) ≤ length out.old }
        ensures wrote { out.new ≡ sounds_bytes (all_left self.entry cursors slots.now) ++ drop (8 * result) out.old }
        ensures many { result ≡ length (all_left self.entry cursors slots.now) }
    {
        let mut count = 0;
        let mut next = 0;
        'slots: while let Some(slot) = slots.next_used(next) {
            let start = slots.tick(slot);
            let mut voices = slots.voices_in(slot);
            'voices: while voices != 0 {
                let voice = voices.trailing_zeros();
                voices ^= 1 << voice;
                let (at, row) = self.next_note(cursors[voice as usize]);
                cursors[voice as usize] = at + 1;
                sound_of(row, voice as u8, start).write(&mut out[Sound::SIZE * count..]);
                // notes are written into lent bytes, of which those of `count` notes are taken: there is no heap here
                count += 1;
            }
            next = slot + 1;
        }
        count
    }
}
