//! Voices in lent words: where the events of a voice lie, where each begins on paper, how long the voice is, and the calls that put, cut and change events.
#![tactic(auto)]

ghost use Rattle.std.specs.Prelude.{◌≡◌, ◌+◌, ◌^◌, ◌<◌, ◌≤◌, true, false, length, take, drop, MatchOption};
ghost use Rattle.score.specs.Meaning.{event_meant};
ghost use Rattle.score.specs.Music.{fine};
ghost use Rattle.score.specs.Calls.{empty_voices};
ghost use Rattle.score.specs.Promise.{GoodLayout, GoodLimits, whole};
ghost use Rattle.memory.specs.Store.{words_asked, stored, limits_at, layout_at};
ghost use Rattle.memory.specs.Words.{Holds};
ghost use Rattle.rows.specs.Rows.{row_of};

mod editing;
mod holding;
mod keeping;
mod moves;
mod reading;
mod regions;
mod runs;

pub use editing::StoredMut;
pub use reading::Stored;
use rows::Row;
use score::{Event, Opening};

/// The header's word for the key.
pub const KEY: usize = 0;

/// The header's word for a bar's length.
pub const BAR: usize = 1;

/// The header's word for how many voices there are.
pub const VOICES: usize = 2;

/// The header's word for how many events there may be.
pub const LIMIT: usize = 3;

/// Behind the header: the first voice's word for how many events it has.
pub const COUNTS: usize = 4;

/// Where the events of a voice lie in each region: so many words from a beginning on.
#[derive(Clone, Copy, PartialEq, Eq, Debug)]
pub struct Span {
    pub begin: usize,
    pub count: usize,
}

/// Lays out a score of empty voices in words that are as many as are asked for.
pub fn lay_out(words: &mut [u32], opening: Opening)
    requires layout { GoodLayout (layout_at opening.key opening.bar) }
    requires limits { GoodLimits (limits_at whole true opening.voices opening.events) }
    requires size { length words.old ≡ words_asked opening.voices opening.events }
    ensures left { words.new ≡ stored (limits_at whole true opening.voices opening.events) (layout_at opening.key opening.bar) (empty_voices opening.voices) }
    ensures holds { Holds words.new }
{
    words.fill(0);
    words[KEY] = opening.key;
    words[BAR] = opening.bar;
    words[VOICES] = opening.voices;
    words[LIMIT] = opening.events;
}

impl Span {
    /// The place in each region that an index has, if it is below an end: the count of the events, or one more where the place behind the last will do.
    pub(crate) fn find(self, index: u32, end: usize) -> Option<usize>
        requires { self.begin + end ≤ 2 ^ 32 }
        ensures { MatchOption result (end ≤ index) (λ at. (index < end) × (at ≡ self.begin + index)) }
    {
        ((index as usize) < end).then_some(self.begin + index as usize)
    }

    /// The part of a region that the span is, of words in which the region begins at one of them.
    pub(crate) fn part_of<'a>(self, words: &'a [u32], begin: usize) -> &'a [u32]
        requires { begin + (self.begin + self.count) ≤ length words.now }
        ensures { result.now ≡ take self.count (drop (begin + self.begin) words.now) }
    {
        let from = begin + self.begin;
        &words[from..from + self.count]
    }
}

/// Whether an event can be written.
pub fn is_fine(event: Event) -> bool
    ensures { result ≡ fine (event_meant event) }
{
    let row = Row::from(event);
    match event {
        Event::Note { .. } => row.is_fine() && !row.is_silent(),
        Event::Silence { .. } => row.is_fine(),
    }
}

/// The words of an event, if it can be written.
pub(crate) fn find_row(event: Event) -> Option<Row>
    ensures { MatchOption result (fine (event_meant event) ≡ false) (λ r. (r ≡ row_of (event_meant event)) × (fine (event_meant event) ≡ true)) }
{
    is_fine(event).then_some(Row::from(event))
}

#[cfg(test)]
mod tests {
    use super::*;
    use score::Refusal;

    // The words after each call, of two voices and at most two events.
    #[test]
    fn calls_leave_words(rt: HostRuntime) {
        let c = Event::Note {
            place: 28,
            alteration: 2,
            length: 48,
        };
        let silence = Event::Silence { length: 96 };
        let mut words = [1; 21];
        let opening = Opening {
            key: 7,
            bar: 192,
            voices: 2,
            events: 2,
        };
        lay_out(&mut words, opening);
        assert_eq!(rt;
            words,
            [
                7, 192, 2, 2, 0, 0, 0, 0, 0, 0, 0, 0, 0, 0, 0, 0, 0, 0, 0, 0, 0,
            ]
        );
        assert_eq!(rt; StoredMut::of(&mut words).put(1, 0, c), Ok(()));
        assert_eq!(rt; StoredMut::of(&mut words).put(0, 0, silence), Ok(()));
        assert_eq!(rt;
            words,
            [
                7, 192, 2, 2, 1, 1, 96, 48, 70, 28, 0, 2, 96, 48, 0, 0, 0, 0, 0, 0, 0,
            ]
        );
        assert_eq!(rt; StoredMut::of(&mut words).put(0, 1, c), Err(Refusal::Full));
        assert_eq!(rt; StoredMut::of(&mut words).change(1, 0, silence), Ok(()));
        assert_eq!(rt; Stored::of(&words).how_long(1), Ok(96));
        assert_eq!(rt; StoredMut::of(&mut words).cut(0, 0), Ok(()));
        assert_eq!(rt;
            StoredMut::of(&mut words).cut(0, 0),
            Err(Refusal::NoEvent(0))
        );
        assert_eq!(rt;
            words,
            [
                7, 192, 2, 2, 0, 1, 0, 96, 70, 0, 0, 0, 96, 0, 0, 0, 0, 0, 0, 0, 0,
            ]
        );
    }
}
