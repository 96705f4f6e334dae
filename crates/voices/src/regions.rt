//! Where the regions begin in lent words.
ghost use Rattle.std.specs.Prelude.{◌≡◌, ◌+◌, ◌<◌, length, slice_index};
ghost use Rattle.memory.specs.Moves.{rows_set};
ghost use Rattle.memory.specs.Store.{marks_asked, words_asked, voices_in, limit_in, bars_from, beats_from};
ghost use Rattle.voices.specs.Regions.{regions_in};
ghost use Rattle.voices.specs.Rows.{row_in};

use super::{COUNTS, LIMIT, VOICES};
use rows::Row;

/// Where the regions begin: those of the events' places, alterations and lengths, those of their bars, ticks and signs, and the marks.
#[derive(Clone, Copy, PartialEq, Eq, Debug)]
pub(crate) struct Regions {
    pub rows: [usize; 3],
    pub onsets: [usize; 3],
    pub marks: usize,
}

/// Where the regions begin, in as many words as are asked for.
pub(crate) fn regions_of(words: &[u32]) -> Regions
    requires { length words.now ≡ words_asked (voices_in words.now) (limit_in words.now) }
    ensures begins { result ≡ regions_in words.now }
    ensures within { result.marks + marks_asked (limit_in words.now) ≡ length words.now }
{
    let limit = words[LIMIT] as usize;
    let first = COUNTS + 2 * words[VOICES] as usize;
    Regions {
        rows: [first, first + limit, first + 2 * limit],
        onsets: [first + 3 * limit, first + 4 * limit, first + 5 * limit],
        marks: first + 6 * limit,
    }
}

impl Regions {
    /// The words of the event at a place.
    pub(crate) fn row_at(self, words: &[u32], at: usize) -> Row
        requires regions { self ≡ regions_in words.now }
        requires size { length words.now ≡ words_asked (voices_in words.now) (limit_in words.now) }
        requires within { at < limit_in words.now }
        ensures { result ≡ row_in words.now at }
    {
        let [places, alterations, lengths] = self.rows;
        Row {
            place: words[places + at],
            alteration: words[alterations + at],
            length: words[lengths + at],
        }
    }

    /// Where the event at a place begins, as it is kept: its bar, and the tick of that bar.
    pub(crate) fn onset_at(self, words: &[u32], at: usize) -> (u32, u32)
        requires regions { self ≡ regions_in words.now }
        requires size { length words.now ≡ words_asked (voices_in words.now) (limit_in words.now) }
        requires within { at < limit_in words.now }
        ensures bar { result.0 ≡ slice_index words.now (bars_from words.now + at) }
        ensures tick { result.1 ≡ slice_index words.now (beats_from words.now + at) }
    {
        let [bars, beats, _] = self.onsets;
        (words[bars + at], words[beats + at])
    }

    /// Writes where the event at a place begins: its bar, the tick of that bar, and its sign.
    pub(crate) fn write_onset(self, words: &mut [u32], at: usize, bar: u32, tick: u32, sign: u32)
        requires regions { self ≡ regions_in words.old }
        requires size { length words.old ≡ words_asked (voices_in words.old) (limit_in words.old) }
        requires within { at < limit_in words.old }
        ensures { words.new ≡ rows_set words.old (bars_from words.old) (limit_in words.old) at bar tick sign }
    {
        let [bars, beats, signs] = self.onsets;
        words[bars + at] = bar;
        words[beats + at] = tick;
        words[signs + at] = sign;
    }
}
