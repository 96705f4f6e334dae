//! What holds at each place, in one bar after the other.
ghost use Rattle.std.specs.Prelude.{◌≡◌, ◌==◌, ℕ, ◌+◌, ◌<◌, ◌≤◌, ◌≢◌};
ghost use Rattle.score.specs.Music.{pick, places, alterations};
ghost use Rattle.keys.specs.Held.{key_row, sign_needed, then_holding};
ghost use Rattle.voices.specs.Holding.{no_bar, held_at, holds_in, UpTo};

use keys::begin_bar;
use score::{PLACES, SILENT};

/// All places, and that of a silence.
const ROOM: usize = PLACES + 1;

/// What holds at each place in a bar: what an event of that bar has altered there, and else the key.
// No `keys::Holds`: the key's row would be copied at each bar line. Here the key holds as soon as the bar is another.
#[derive(Drop)]
pub(crate) struct Holding {
    key: [u32; ROOM],
    altered: [u32; ROOM],
    bars: [u32; ROOM],
}

/// The word of the sign that an event needs where an alteration is held at its place: 0 for none, or one more than its own alteration.
fn sign_word(place: u32, alteration: u32, held: u32) -> u32
    requires { alteration < alterations }
    ensures { result ≡ pick (place == places) 0 (pick (held == alteration) 0 (alteration + 1)) }
{
    if place == SILENT || held == alteration {
        0
    } else {
        alteration + 1
    }
}

/// Another bar than one, and none behind it.
fn other_bar(bar: u32) -> u32
    ensures other { result ≢ bar }
    ensures not_later { (later : ℕ) → bar < later → later < no_bar → result ≢ later }
{
    if bar > 0 { bar - 1 } else { u32::MAX }
}

impl Holding {
    /// The key holds in a bar.
    pub(crate) fn of(signature: u32, bar: u32) -> Holding
        ensures up_to { UpTo signature result bar }
        ensures holds { holds_in result bar ≡ key_row signature }
    {
        let mut row = [0; PLACES];
        begin_bar(signature, &mut row);
        let mut key = [0; ROOM];
        key[..PLACES].copy_from_slice(&row);
        Holding {
            key,
            altered: [0; ROOM],
            bars: [other_bar(bar); ROOM],
        }
    }

    /// What holds in a bar at a place.
    fn held(&self, bar: u32, place: u32) -> u32
        requires place { place ≤ places }
        ensures { result ≡ held_at self.now bar place }
    {
        let at = place as usize;
        if self.bars[at] == bar {
            self.altered[at]
        } else {
            self.key[at]
        }
    }

    /// The word of the sign that an event of a bar needs. From then on its alteration holds at its place.
    pub(crate) fn sign_in(&mut self, bar: u32, place: u32, alteration: u32) -> u32
        requires place { place ≤ places }
        requires alteration { alteration < alterations }
        ensures sign { result ≡ sign_needed (holds_in self.old bar) place alteration }
        ensures holds { holds_in self.new bar ≡ then_holding (holds_in self.old bar) place alteration }
        ensures up_to { (k : ℕ) → UpTo k self.old bar → UpTo k self.new bar }
    {
        let held = self.held(bar, place);
        let at = place as usize;
        self.altered[at] = alteration;
        self.bars[at] = bar;
        sign_word(place, alteration, held)
    }
}
