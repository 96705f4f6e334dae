//! A voice printed as symbols, from any bar on.
#![tactic(auto)]

ghost use Rattle.std.specs.Prelude.{◌≡◌, ◌%◌, ◌≤◌, List, ◌++◌, length, take, drop};
ghost use Rattle.score.specs.Calls.{most_bars};
ghost use Rattle.score.specs.Meaning.{symbol_meant};
ghost use Rattle.score.specs.Music.{places, alterations};
ghost use Rattle.score.specs.Print.{from_bar, so_many};
ghost use Rattle.score.specs.Print.{Symbol as Printed};
ghost use Rattle.laws.specs.Onsets.{signs_of};
ghost use Rattle.laws.specs.Owed.{one};
ghost use Rattle.wire.specs.Bytes.{symbols_bytes};
ghost use Rattle.keys.specs.Held.{sign_number};
ghost use Rattle.engraving.specs.Kept.{Reached};
ghost use Rattle.engraving.specs.Shown.{shown, left_of, page_bytes, bars_take};
ghost use Rattle.engraving.specs.Voice.{SignsFit};
ghost use Rattle.rows.specs.Rows.{voice_in};

use keys::{begin_bar, sign_of};
use lengths::{ValuesOf, part_in_bar};
use rows::Row;
use score::{PLACES, Symbol};
use wire::Item;

mod kept;
pub mod voice;

use kept::Begin;
use voice::{KeptVoice, Voice};

/// One symbol of an event: a rest if it is a silence, else a head, with the sign that it needs, a number as it is kept.
fn symbol_of(row: Row, sign: u32, value: u32, tied: bool) -> Symbol
    requires place { row.place ≤ places }
    requires sign { sign ≤ alterations }
    requires value { value ≤ 192 }
    ensures { symbol_meant result ≡ one row.place sign value tied }
{
    if row.is_silent() {
        return Symbol::Rest {
            value: value as u16,
        };
    }
    Symbol::Head {
        place: row.place as u8,
        sign: sign as u8,
        value: value as u16,
        tied,
    }
}

/// A sign as it is kept and as it stands on paper: a number, 0 for none, or one more than the alteration.
fn kept_sign(sign: Option<u32>) -> u32
    requires { sign_number sign ≤ alterations }
    ensures { result ≡ sign_number sign }
{
    sign.map_or(0, |alteration| alteration + 1)
}

impl Voice<'_> {
    /// Writes which sign the first head of each event has, over the front of `signs`.
    fn derive_signs(self, signs: &mut [u32])
        requires { length self.rows.lengths.now ≤ length signs.old }
        ensures { signs.new ≡ signs_of self.entry.layout.key self.entry.layout.bar (voice_in self.entry.rows) ++ drop (length self.entry.rows.lengths.now) signs.old }
    {
        let Voice { rows, layout } = self;
        let mut key = [0; PLACES];
        begin_bar(layout.key, &mut key);
        let mut holds = key;
        let mut tick = 0;
        // by its index: of a zip with `signs.iter_mut()` the loop's invariant knows the words that are left and not `signs` (tried in `lengths`)
        for (i, row) in rows.enumerate() {
            signs[i] = kept_sign(sign_of(&mut holds, row.place, row.alteration));
            tick += row.length as u64;
            if tick >= layout.bar as u64 {
                tick %= layout.bar as u64;
                holds = key;
            }
        }
    }

    /// Passes over the events that have ended where printing begins: it begins with the next, of which part may be gone.
    fn reach(self, begin: Begin) -> Begin
        requires { begin.skip % 3 ≡ 0 }
        ensures { Reached self.entry.rows self.entry.layout begin result }
    {
        let lengths = self.rows.lengths;
        let mut skip = begin.skip;
        for event in begin.event..lengths.len() {
            let length = lengths[event] as u64;
            if skip < length {
                return Begin { event, skip };
            }
            skip -= length;
        }
        Begin {
            event: lengths.len(),
            skip: 0,
        }
    }

    /// Prints up to `count` bars from where `begin` says, with the signs that are given.
    fn print_bars(self, signs: &[u32], begin: Begin, count: u32, out: &mut [u8]) -> usize
        requires signed { SignsFit self.rows signs.now }
        requires thirds { begin.skip % 3 ≡ 0 }
        requires room { length (symbols_bytes (left_of self.layout.bar (voice_in self.rows) signs.now begin.event begin.skip count)) ≤ length out.old }
        ensures wrote { out.new ≡ symbols_bytes (left_of self.entry.layout.bar (voice_in self.entry.rows) signs.now begin.event begin.skip count) ++ drop result out.old }
        ensures many { result ≡ length (symbols_bytes (left_of self.entry.layout.bar (voice_in self.entry.rows) signs.now begin.event begin.skip count)) }
    {
        let Voice { rows, layout } = self;
        if count == 0 {
            return 0;
        }
        let Begin { event, skip } = self.reach(begin);
        // symbols are written into lent bytes, of which the first `at` are taken: there is no heap here
        let mut at = 0;
        let mut begun = 0;
        let mut more = count;
        let mut gone = skip as u32;
        // by their number: the signs lie beside them, and printing begins in the middle at once
        'events: for i in event..rows.lengths.len() {
            let row = rows.row(i);
            let mut left = row.length - gone;
            // an event that has begun before has no sign
            let mut sign = if gone == 0 { signs[i] } else { 0 };
            gone = 0;
            'bars: while left > 0 {
                let part = part_in_bar(left, layout.bar, begun);
                begun += part;
                'values: for value in ValuesOf(part) {
                    left -= value;
                    at += symbol_of(row, sign, value, left > 0).write(&mut out[at..]);
                    sign = 0;
                }
                if begun == layout.bar {
                    at += Symbol::BarLine.write(&mut out[at..]);
                    begun = 0;
                    more -= 1;
                    if more == 0 {
                        break 'events;
                    }
                }
            }
        }
        at
    }

    /// Prints the voice from bar `from` on, up to `count` bars with their lines, over the front of `out`, and returns how many bytes that is. Its signs are
    /// left over the front of `signs`.
    pub fn engrave(self, signs: &mut [u32], from: u32, count: u32, out: &mut [u8]) -> usize
        requires row { length self.rows.lengths.now ≤ length signs.old }
        requires room { length (shown self.layout.key self.layout.bar (voice_in self.rows) from count) ≤ length out.old }
        ensures wrote { out.new ≡ shown self.entry.layout.key self.entry.layout.bar (voice_in self.entry.rows) from count ++ drop result out.old }
        ensures many { result ≡ length (shown self.entry.layout.key self.entry.layout.bar (voice_in self.entry.rows) from count) }
        ensures left { signs.new ≡ signs_of self.entry.layout.key self.entry.layout.bar (voice_in self.entry.rows) ++ drop (length self.entry.rows.lengths.now) signs.old }
    {
        self.derive_signs(signs);
        let begin = Begin {
            event: 0,
            skip: from as u64 * self.layout.bar as u64,
        };
        self.print_bars(&signs[0..self.rows.lengths.len()], begin, count, out)
    }
}

impl KeptVoice<'_> {
    /// As `Voice::engrave`, by what is kept: it begins with the event that reaches bar `from`, however long the voice is.
    pub fn engrave(self, from: u32, count: u32, out: &mut [u8]) -> usize
        requires { length (shown self.voice.layout.key self.voice.layout.bar (voice_in self.voice.rows) from count) ≤ length out.old }
        ensures wrote { out.new ≡ shown self.entry.voice.layout.key self.entry.voice.layout.bar (voice_in self.entry.voice.rows) from count ++ drop result out.old }
        ensures many { result ≡ length (shown self.entry.voice.layout.key self.entry.voice.layout.bar (voice_in self.entry.voice.rows) from count) }
    {
        let begin = self.begin(from);
        self.voice.print_bars(self.onsets.signs, begin, count, out)
    }

    // A function of its own, so that who shows a page need not know how long its bars are.
    /// As `engrave`, for bars that a score may be opened with and as many as may be shown, in bytes that are enough for any of them.
    pub fn engrave_page(self, from: u32, count: u32, out: &mut [u8]) -> usize
        requires bar { self.voice.layout.bar ≤ 768 }
        requires few { count ≤ most_bars }
        requires room { page_bytes ≤ length out.old }
        ensures wrote { out.new ≡ shown self.entry.voice.layout.key self.entry.voice.layout.bar (voice_in self.entry.voice.rows) from count ++ drop result out.old }
        ensures many { result ≡ length (shown self.entry.voice.layout.key self.entry.voice.layout.bar (voice_in self.entry.voice.rows) from count) }
    {
        self.engrave(from, count, out)
    }
}

/// How many bytes the first `count` bars of what is printed take, with their lines.
fn bytes_of_bars(page: &[u8], count: u32) -> usize
    ensures is { result ≡ bars_take count page.now }
    ensures within { result ≤ length page.now }
{
    let mut more = count;
    for (passed, symbol) in page.chunks_exact(Symbol::SIZE).enumerate() {
        if more == 0 {
            return Symbol::SIZE * passed;
        }
        if Symbol::read(symbol) == Some(Symbol::BarLine) {
            more -= 1;
        }
    }
    page.len() - page.len() % Symbol::SIZE
}

/// Of what is printed, the bars from number `from` on, up to `count` of them: a part that is handed on as it stands there.
pub fn bars_of(page: &[u8], from: u32, count: u32) -> &[u8]
    ensures part { result.now ≡ take (bars_take count (drop (bars_take from page.now) page.now)) (drop (bars_take from page.now) page.now) }
    ensures bars { (xs : List Printed) → page.now ≡ symbols_bytes xs → result.now ≡ symbols_bytes (so_many (from_bar from xs) count) }
{
    let begin = bytes_of_bars(page, from);
    let end = begin + bytes_of_bars(&page[begin..], count);
    &page[begin..end]
}
