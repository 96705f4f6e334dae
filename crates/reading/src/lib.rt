//! The reader: symbols and a key in, notes out. It knows nothing of voices.
#![tactic(auto)]

ghost use Rattle.std.specs.Prelude.{◌≡◌, Some, ◌+◌, ◌*◌, ◌^◌, ◌<◌, ◌≤◌, true, [], ◌∷◌, ◌++◌, map, length, take, drop};
ghost use Rattle.std.specs.Iterator.{item_count};
ghost use Rattle.std.specs.Option.{option_map};
ghost use Rattle.score.specs.Meaning.{symbol_meant};
ghost use Rattle.score.specs.Music.{pick, places};
ghost use Rattle.score.specs.Print.{nothing, let_go, goes_on, longer as made_longer, read_from};
ghost use Rattle.score.specs.Spelling.{spelled_heard};
ghost use Rattle.wire.specs.Reading.{symbol_of};
ghost use Rattle.reading.specs.Few.{FewNotes};
ghost use Rattle.reading.specs.Keeps.{held_meant};
ghost use Rattle.reading.specs.Player.{said, then_held, after, after_head, let_go_head, ended_head, let_go_by, ended_by, lasts, can_play};
ghost use Rattle.reading.specs.Symbols.{playable, symbols_of, outcome, Steps};
ghost use Rattle.reading.specs.Told.{state, heard_meant, notes, listed};

use keys::{Holds, begin_bar, tone};
use score::{ALTERATIONS, PLACES, Symbol};
use std::fmt;
use wire::Item;

pub mod player;

use player::{Held, Player};

/// A note as it is heard: when it begins and how long it is, in ticks, and its tone in half tones.
// Not score's `Sound`: a reader knows no voice, and what it reads may be longer than a score.
#[derive(Clone, Copy, PartialEq, Eq, Debug)]
pub struct Heard {
    pub start: u64,
    pub length: u64,
    pub tone: u64,
}

/// As `start length tone`.
impl fmt::Display for Heard {
    ghost output = { λ h. Some (spelled_heard (heard_meant h)) };

    fn fmt<W: fmt::Write>(&self, f: &mut fmt::Formatter<W>) -> fmt::Result {
        let start = self.start;
        let length = self.length;
        let tone = self.tone;
        write!(f, "{start} {length} {tone}")
    }
}

/// A player one symbol later, and the notes that have ended by then: what was held and does not go on, and the symbol's own if it is not tied on.
#[derive(Clone, Copy, PartialEq, Eq, Debug)]
pub struct Played {
    pub player: Player,
    pub first: Option<Heard>,
    pub second: Option<Heard>,
}

impl Held {
    /// What is heard of the note once it is let go.
    #[tactic(auto, unfolding(score::specs::Print::let_go))]
    fn let_go(self) -> Heard
        ensures { heard_meant result ∷ [] ≡ let_go (held_meant (Some self)) }
    {
        Heard {
            start: self.since,
            length: self.long,
            tone: tone(self.place as u32, self.alteration),
        }
    }

    /// Whether a head goes on with the note: it has no sign, and stands at the note's place.
    #[tactic(auto, unfolding(score::specs::Print::goes_on))]
    fn goes_on(self, at: u8, sign: u8) -> bool
        ensures { result ≡ goes_on (held_meant (Some self)) at sign }
    {
        // on paper a sign is a number, and none is 0 (see `Symbol`)
        self.place == at && sign == 0
    }

    /// The note longer by a value.
    #[tactic(auto, unfolding(score::specs::Print::longer))]
    fn longer(self, value: u16) -> Held
        requires { self.long + value < 2 ^ 64 }
        ensures is { held_meant (Some result) ≡ made_longer (held_meant (Some self)) value }
        ensures long { result.long ≡ self.long + value }
    {
        Held {
            long: self.long + value as u64,
            ..self
        }
    }
}

impl Player {
    /// What is heard of the note that is held, if there is one, once it is let go.
    #[tactic(auto, unfolding(score::specs::Print::let_go))]
    fn let_go(self) -> Option<Heard>
        ensures { notes result ≡ let_go (held_meant self.held) }
    {
        self.held.map(|held| held.let_go())
    }
}

/// The alteration of a head that begins a note: its sign's, which then holds at its place, or what holds there if it has none.
fn alter(holds: &mut Holds, place: u8, sign: u8) -> u32
    requires { place < places }
    ensures says { result ≡ said holds.old place sign }
    ensures then { holds.new ≡ then_held holds.old place sign }
{
    let at = place as usize;
    if let Some(alteration) = sign.checked_sub(1) {
        holds[at] = alteration as u32;
    }
    holds[at]
}

/// A note is held if its head is tied to the next, else it has ended.
fn after_head(time: u64, first: Option<Heard>, note: Held, tied: bool) -> Played
    requires { note.long ≤ time }
    ensures first { result.first ≡ first }
    ensures second { notes result.second ≡ pick tied [] (let_go (held_meant (Some note))) }
    ensures time { result.player.time ≡ time }
    ensures held { held_meant result.player.held ≡ pick tied (held_meant (Some note)) nothing }
{
    let (held, second) = if tied {
        (Some(note), None)
    } else {
        (None, Some(note.let_go()))
    };
    Played {
        player: Player { time, held },
        first,
        second,
    }
}

/// A head is played: what is held goes on, or is let go and a note begins.
// The numbers of a head stand in the case of `Symbol` (a rule of the project), so they are handed on one by one.
#[tactic(auto, unfolding(score::specs::Print::goes_on))]
fn play_head(
    player: Player,
    place: u8,
    sign: u8,
    value: u16,
    tied: bool,
    holds: &mut Holds,
) -> Played
    requires there { place < places }
    requires time { player.time + value < 2 ^ 64 }
    ensures keeps { state result.player holds.new ≡ after_head place sign value tied (state player holds.old) }
    ensures first { notes result.first ≡ let_go_head place sign (state player holds.old) }
    ensures second { notes result.second ≡ ended_head place sign value tied (state player holds.old) }
{
    let time = player.time + value as u64;
    if let Some(held) = player.held
        && held.goes_on(place, sign)
    {
        return after_head(time, None, held.longer(value), tied);
    }
    let note = Held {
        place,
        alteration: alter(holds, place, sign),
        since: player.time,
        long: value as u64,
    };
    after_head(time, player.let_go(), note, tied)
}

/// One symbol is played.
pub fn play(player: Player, symbol: Symbol, signature: u32, holds: &mut Holds) -> Played
    requires playable { can_play (symbol_meant symbol) ≡ true }
    requires time { player.time + lasts (symbol_meant symbol) < 2 ^ 64 }
    ensures keeps { state result.player holds.new ≡ after signature (symbol_meant symbol) (state player holds.old) }
    ensures first { notes result.first ≡ let_go_by (symbol_meant symbol) (state player holds.old) }
    ensures second { notes result.second ≡ ended_by (symbol_meant symbol) (state player holds.old) }
{
    match symbol {
        Symbol::BarLine => {
            begin_bar(signature, holds);
            Played {
                player,
                first: None,
                second: None,
            }
        }
        Symbol::Rest { value } => Played {
            player: Player {
                time: player.time + value as u64,
                held: None,
            },
            first: player.let_go(),
            second: None,
        },
        Symbol::Head {
            place,
            sign,
            value,
            tied,
        } => play_head(player, place, sign, value, tied, holds),
    }
}

/// The symbol at the front of bytes, if there is one and it can be played: its place and its sign are among those that there are.
fn next_symbol(bytes: &[u8]) -> Option<Symbol>
    ensures { option_map symbol_meant result ≡ playable (symbol_of bytes.now) }
{
    let symbol = Symbol::read(bytes)?;
    if let Symbol::Head { place, sign, .. } = symbol
        && (place as usize >= PLACES || sign as u32 > ALTERATIONS)
    {
        return None;
    }
    Some(symbol)
}

/// The symbols at the front of bytes, up to the first that cannot be played.
#[derive(Clone, Copy, PartialEq, Eq, Debug)]
pub struct Symbols<'a>(pub &'a [u8]);

impl<'a> Iterator for Symbols<'a> {
    type Item = Symbol;

    ghost next_gives = { Steps };

    ghost remaining = { item_count (λ s. symbols_of s.0.now) };

    #[tactic(auto, using(crate::proofs::Rows::by_first))]
    fn next(&mut self) -> Option<Symbol> {
        let symbol = next_symbol(self.0)?;
        self.0 = &self.0[Symbol::SIZE..];
        Some(symbol)
    }
}

/// A note that has ended is written down as heard. Returns how many notes that is.
fn write_note(heard: &mut [Heard], note: Option<Heard>) -> usize
    requires { length (listed note) ≤ length heard.old }
    ensures wrote { heard.new ≡ listed note ++ drop result heard.old }
    ensures many { result ≡ length (listed note) }
{
    let Some(note) = note else {
        return 0;
    };
    heard[0] = note;
    1
}

/// Two notes that may have ended are written down, the held one first. Returns how many notes that is.
fn write_both(heard: &mut [Heard], first: Option<Heard>, second: Option<Heard>) -> usize
    requires { length (listed first ++ listed second) ≤ length heard.old }
    ensures wrote { heard.new ≡ (listed first ++ listed second) ++ drop result heard.old }
    ensures many { result ≡ length (listed first ++ listed second) }
{
    let at = write_note(heard, first);
    at + write_note(&mut heard[at..], second)
}

/// All symbols are played, up to the first that cannot be, and the notes are written down as heard. Returns how many notes that is; the bytes that
/// no symbol took are left.
fn play_row(symbols: &mut Symbols, signature: u32, holds: &mut Holds, heard: &mut [Heard]) -> usize
    requires long { length symbols.old.0.now ≤ 2 ^ 40 }
    requires room { length (read_from signature (symbols_of symbols.old.0.now)) ≤ length heard.old }
    ensures notes { result ≡ length (read_from signature (symbols_of symbols.old.0.now)) }
    ensures wrote { map heard_meant (take result heard.new) ≡ read_from signature (symbols_of symbols.old.0.now) }
    ensures rest { drop result heard.new ≡ drop result heard.old }
    ensures taken { 5 * length (symbols_of symbols.old.0.now) + length symbols.new.0.now ≡ length symbols.old.0.now }
{
    begin_bar(signature, holds);
    let mut player = Player {
        time: 0,
        held: None,
    };
    // notes are written into lent memory, of which the first `notes` are taken: there is no heap here
    let mut notes = 0;
    // no `for` over `by_ref`: of the symbols that such a loop leaves, nothing is known behind it
    'symbols: while let Some(symbol) = symbols.next() {
        let played = play(player, symbol, signature, holds);
        notes += write_both(&mut heard[notes..], played.first, played.second);
        player = played.player;
    }
    notes + write_note(&mut heard[notes..], player.let_go())
}

/// What is heard by who reads a row of symbols in a key, and knows nothing else: the notes are written down, and it is said how many they are.
/// Where a symbol cannot be played, as its kind, place or sign is unknown or its bytes are too few, reading ends, and it is said at which byte.
// Told is that byte, a number: an error type of its own would say no more (no plainer).
pub fn read(bytes: &[u8], signature: u32, heard: &mut [Heard]) -> Result<usize, usize>
    requires long { length bytes.now ≤ 2 ^ 40 }
    requires room { length (read_from signature (symbols_of bytes.now)) ≤ length heard.old }
    ensures said { result ≡ outcome signature bytes.now }
    ensures wrote { map heard_meant (take (length (read_from signature (symbols_of bytes.now))) heard.new) ≡ read_from signature (symbols_of bytes.now) }
    ensures rest { drop (length (read_from signature (symbols_of bytes.now))) heard.new ≡ drop (length (read_from signature (symbols_of bytes.now))) heard.old }
{
    let mut holds = [0; PLACES];
    let mut symbols = Symbols(bytes);
    let notes = play_row(&mut symbols, signature, &mut holds, heard);
    let Symbols(left) = symbols;
    if left.is_empty() {
        Ok(notes)
    } else {
        Err(bytes.len() - left.len())
    }
}

/// A note for each five bytes is always room enough for what `read` hears.
#[tactic(auto, using(crate::proofs::FewNotes::few_notes))]
pub fn notes_are_few()
    ensures { FewNotes }
{}
