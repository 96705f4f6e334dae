//! What is heard of a score: of one voice, and of all voices together in a span of time.
//!
//! The contract of `heard_in` cites `together`, the definition of which crate `laws` proves that it is in order and that nothing of any voice is lost.
#![tactic(auto)]

ghost use Rattle.std.specs.Prelude.{◌≡◌, ◌+◌, ◌*◌, ◌<◌, ◌≤◌, ◌++◌, length, drop, MatchOption};
ghost use Rattle.score.specs.Music.{places, alterations, length_end};
ghost use Rattle.score.specs.Meaning.{sound_meant};
ghost use Rattle.score.specs.Calls.{widest_span, together};
ghost use Rattle.wire.specs.Bytes.{sound_bytes, sounds_bytes};
ghost use Rattle.memory.specs.Store.{limit_in, score_of};
ghost use Rattle.sounds.specs.Spans.{InOrder, AllBefore, Reached, silences};
ghost use Rattle.sounds.specs.Rows.{heard_at};

mod single;
mod slots;
mod together;

use keys::tone;
use rows::Row;
use score::{SHORTEST, SILENT, Sound};
pub use single::{Notes, heard, notes_heard};
use together::Voices;
use voices::Stored;

/// Notes begin only at multiples of so many ticks.
const GRAIN: usize = SHORTEST as usize;

/// The note of a row as it is heard.
fn sound_of(row: Row, voice: u8, start: u32) -> Sound
    requires place { row.place < places }
    requires alteration { row.alteration < alterations }
    requires long { row.length < length_end }
    ensures { sound_meant result ≡ (voice, heard_at row start) }
{
    Sound {
        voice,
        start,
        length: row.length as u16,
        tone: tone(row.place, row.alteration) as u8,
    }
}

/// The first event of a voice that begins at a tick or later, and when it begins, if there is one. Of each event there is the bar in which it begins, and
/// the tick of that bar.
fn reach(bars: &[u32], ticks: &[u32], measure: usize, from: usize) -> Option<(usize, usize)>
    requires { InOrder measure bars.now ticks.now }
    ensures { MatchOption result (AllBefore from measure bars.now ticks.now (length bars.now)) (λ r. Reached from measure bars.now ticks.now r.0 r.1) }
{
    let bar = from / measure;
    // the bars before the tick's are passed by halves; in its own bar are few events
    let passed = bars.partition_point(|at| (*at as usize) < bar);
    for index in passed..bars.len() {
        let start = bars[index] as usize * measure + ticks[index] as usize;
        if start >= from {
            return Some((index, start));
        }
    }
    None
}

/// How many silences come first.
fn silences_first(places: &[u32]) -> usize
    ensures { result ≡ silences places.now }
{
    places.iter().take_while(|place| **place == SILENT).count()
}

/// Writes the notes of all voices that begin from a tick up to before another, by time, and by voice where times are the same, over the front of lent
/// bytes: eight bytes each. Returns how many they are.
pub fn heard_in(score: Stored<'_>, from: u32, to: u32, out: &mut [u8]) -> usize
    requires span { to ≤ from + widest_span }
    requires room { 8 * limit_in score.words.now ≤ length out.old }
    ensures wrote { out.new ≡ sounds_bytes (together (score_of score.entry.words.now) 0 from to) ++ drop (8 * result) out.old }
    ensures many { result ≡ length (together (score_of score.entry.words.now) 0 from to) }
    ensures few { result ≤ limit_in score.entry.words.now }
{
    Voices::from(score).write_span(from, to, out)
}
