//! What is kept with the events, which is where each begins on paper, derived anew behind a change.
ghost use Rattle.std.specs.Prelude.{◌≡◌, ℕ, List, ◌+◌, ◌-◌, ◌/◌, ◌%◌, ◌^◌, ◌<◌, ◌≤◌, true, ◌⊎◌, length, IfSome, take, drop, ◌≢◌, slice_index};
ghost use Rattle.score.specs.Print.{key};
ghost use Rattle.keys.specs.Held.{held_in};
ghost use Rattle.memory.specs.Store.{counts_from};
ghost use Rattle.memory.specs.Words.{kept_anew, Unkept, Deriving};
ghost use Rattle.voices.specs.Ahead.{Ahead};
ghost use Rattle.voices.specs.Holding.{holds_in, UpTo};
ghost use Rattle.voices.specs.Regions.{regions_in};

use super::holding::Holding;
use super::regions::{Regions, regions_of};
use super::runs::take_run;
use super::{BAR, KEY, Span};
use marks::{is_marked, mark};

/// The last event that begins in another bar.
fn last_before(bars: &[u32], bar: u32) -> Option<usize>
    ensures { IfSome result (λ i. (i < length bars.now) × (slice_index bars.now i ≢ bar) × ((q : ℕ) → i < q → q < length bars.now → slice_index bars.now q ≡ bar)) }
{
    bars.iter().rposition(|other| *other != bar)
}

/// The first event of the bar in which the event before an index begins, or the first of all: there the key holds.
fn first_of_bar(bars: &[u32], index: usize) -> usize
    requires { index ≤ length bars.now }
    ensures before { result ≤ index }
    ensures first { (result ≡ 0) ⊎ ((0 < result) × (result < index) × (slice_index bars.now (result - 1) ≢ slice_index bars.now result)) }
{
    let [before @ .., bar] = &bars[..index] else {
        return 0;
    };
    match last_before(before, *bar) {
        Some(other) => other + 1,
        None => 0,
    }
}

/// Writes where the event at a place begins, and returns how long the event is. Its mark is taken already.
fn keep_onset(
    words: &mut [u32],
    regions: Regions,
    holding: &mut Holding,
    at: usize,
    bar: u32,
    tick: u32,
) -> u32
    requires regions { regions ≡ regions_in words.old }
    requires state { (to : ℕ) × (whole : List ℕ) × (at < to) × Ahead words.old whole at to bar tick (held_in (slice_index words.old 0) (holds_in holding.old bar)) }
    requires up_to { UpTo (slice_index words.old 0) holding.old bar }
    ensures next { (to : ℕ) → (whole : List ℕ) → at < to → Ahead words.old whole at to bar tick (held_in (slice_index words.old 0) (holds_in holding.old bar)) → let next = bar + (tick + result) / slice_index words.old 1 in Ahead words.new whole (at + 1) to next ((tick + result) % slice_index words.old 1) (held_in (slice_index words.old 0) (holds_in holding.new next)) }
    ensures up_to { UpTo (slice_index words.old 0) holding.new (bar + (tick + result) / slice_index words.old 1) }
    ensures header { take counts_from words.new ≡ take counts_from words.old }
    ensures small { bar + (tick + result) < 2 ^ 32 }
{
    let row = regions.row_at(words, at);
    let sign = holding.sign_in(bar, row.place, row.alteration);
    regions.write_onset(words, at, bar, tick, sign);
    row.length
}

/// The bar and the tick of it so many ticks behind the beginning of a bar. Few events are longer than a bar, so that there is seldom something to divide.
fn behind(bar: u32, ticks: u32, measure: u32) -> (u32, u32)
    requires positive { 0 < measure }
    requires small { bar + ticks < 2 ^ 32 }
    ensures bar { result.0 ≡ bar + ticks / measure }
    ensures tick { result.1 ≡ ticks % measure }
{
    // no branch between this bar and the next, which a processor could not foresee: what is less than nothing wraps to more than any bar has
    let rest = ticks.min(ticks.wrapping_sub(measure));
    if rest < measure {
        (bar + (ticks >= measure) as u32, rest)
    } else {
        (bar + ticks / measure, ticks % measure)
    }
}

/// Derives anew where the marked events begin. The first of them is at a place, and begins at a tick of a bar where the key holds.
fn derive(words: &mut [u32], regions: Regions, first: usize, bar: u32, tick: u32)
    requires regions { regions ≡ regions_in words.old }
    requires state { Deriving words.old first bar tick (key (slice_index words.old 0)) }
    ensures { words.new ≡ kept_anew words.old }
{
    let measure = words[BAR];
    let mut holding = Holding::of(words[KEY], bar);
    let (mut at, mut bar, mut tick) = (first, bar, tick);
    'runs: while is_marked(&words[regions.marks..], at) {
        let end = take_run(&mut words[regions.marks..], at);
        'events: for event in at..end {
            tick += keep_onset(words, regions, &mut holding, event, bar, tick);
            (bar, tick) = behind(bar, tick, measure);
        }
        at = end;
    }
}

/// Derives anew where the events of a voice begin, from an index up to before an end.
pub fn keep(words: &mut [u32], span: Span, index: usize, end: usize)
    requires unkept { Unkept words.old span.begin span.count index end }
    requires range { index ≤ end }
    requires within { end ≤ span.count }
    ensures { words.new ≡ kept_anew words.old }
{
    let regions = regions_of(words);
    let [bars, ..] = regions.onsets;
    let first = first_of_bar(span.part_of(words, bars), index);
    let at = span.begin + first;
    let (bar, tick) = if first > 0 {
        regions.onset_at(words, at)
    } else {
        (0, 0)
    };
    mark(&mut words[regions.marks..], at, span.begin + end);
    derive(words, regions, at, bar, tick);
}
