//! The slots of a span of time, which say where in it notes begin.
ghost use Rattle.std.specs.Prelude.{◌≡◌, ℕ, ◌+◌, ◌-◌, ◌*◌, ◌^◌, ◌<◌, ◌≤◌, length, sum, slice_index, slice_set, bit_or, MatchOption};
ghost use Rattle.std.specs.Int.{div_ceil};
ghost use Rattle.score.specs.Calls.{widest_span};
ghost use Rattle.sounds.specs.Spans.{grain, note_ticks, Tells, NoneBetween, NextUsed};

use super::GRAIN;
use score::{SILENT, WIDEST_SPAN};

/// The widest span has so many slots.
const MOST_SLOTS: usize = WIDEST_SPAN as usize / GRAIN;

/// A word has a bit for each of so many slots.
const BITS: usize = 64;

/// So many words have a bit for every slot.
const WORDS: usize = MOST_SLOTS / BITS;

/// The slots of a span, one for each tick at which a note may begin.
#[derive(Drop)]
pub(crate) struct Slots {
    /// The first slot's number, counted from tick 0 on, and how many slots the span has.
    first: usize,
    count: usize,
    /// In each slot, a bit for each voice that begins a note there.
    voices: [u64; MOST_SLOTS],
    /// A bit for each slot in which any does, so that the others are never looked at.
    used: [u64; WORDS],
    ghost few: { count ≤ length voices },
    ghost small: { grain * (first + count) < 2 ^ 32 },
    ghost tells: { Tells count used voices },
}

impl Slots {
    ghost use Rattle.sounds.specs.Scores.{end_of, Marks};

    /// The slots of the ticks from one up to before another, without notes as yet.
    pub(crate) fn of(from: u32, to: u32) -> Slots
        requires { to ≤ from + widest_span }
        ensures first { result.first ≡ div_ceil from grain }
        ensures count { result.count ≡ div_ceil to grain - div_ceil from grain }
        ensures empty { (k : ℕ) → slice_index result.voices k ≡ 0 }
    {
        let first = (from as usize).div_ceil(GRAIN);
        Slots {
            first,
            count: (to as usize).div_ceil(GRAIN).saturating_sub(first),
            voices: [0; MOST_SLOTS],
            used: [0; WORDS],
        }
    }

    /// The tick of a slot, or the one at which they end.
    pub(crate) fn tick(&self, slot: usize) -> u32
        requires { slot ≤ self.now.count }
        ensures { result ≡ grain * (self.now.first + slot) }
    {
        (GRAIN * (self.first + slot)) as u32
    }

    /// The voices that begin a note in a slot, a bit for each.
    pub(crate) fn voices_in(&self, slot: usize) -> u64
        requires { slot < self.now.count }
        ensures { result ≡ slice_index self.now.voices slot }
    {
        self.voices[slot]
    }

    /// The first slot from one on in which a note begins.
    pub(crate) fn next_used(&self, from: usize) -> Option<usize>
        ensures { MatchOption result (NoneBetween from (length self.now.voices) self.now.voices) (NextUsed from self.now.count self.now.voices) }
    {
        for word in from / BITS..WORDS {
            let passed = from.saturating_sub(BITS * word);
            let left = self.used[word] & (u64::MAX << passed);
            if left != 0 {
                return Some(BITS * word + left.trailing_zeros() as usize);
            }
        }
        None
    }

    /// Sets a voice's bit in a slot.
    fn put(&mut self, slot: usize, voice: u32)
        requires slot { slot < self.old.count }
        requires voice { voice < 64 }
        ensures first { self.new.first ≡ self.old.first }
        ensures count { self.new.count ≡ self.old.count }
        ensures voices { self.new.voices ≡ slice_set self.old.voices slot (bit_or (slice_index self.old.voices slot) (2 ^ voice)) }
    {
        self.voices[slot] |= 1 << voice;
        self.used[slot / BITS] |= 1 << (slot % BITS);
    }

    /// Sets a voice's bit in the slots in which its notes begin, from a tick on up to the end of the slots.
    // `places` and `lengths` are no `Rows`, since alterations are not looked at (no plainer)
    pub(crate) fn mark(&mut self, voice: u32, start: usize, places: &[u32], lengths: &[u32])
        requires rows { length places.now ≡ length lengths.now }
        requires voice { voice < 64 }
        requires short { start + sum lengths.now < 2 ^ 32 }
        requires begun { grain * self.old.first ≤ start }
        ensures { Marks voice (note_ticks (end_of self.old) start places.now lengths.now) self.old self.new }
    {
        let mut tick = start;
        for (place, length) in places.iter().zip(lengths) {
            let slot = tick / GRAIN - self.first;
            if slot >= self.count {
                return;
            }
            if *place != SILENT {
                self.put(slot, voice);
            }
            tick += *length as usize;
        }
    }
}
