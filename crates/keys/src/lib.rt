//! Keys: how a key alters the places, and what holds at each place where a bar begins.
#![tactic(auto)]

ghost use Rattle.std.specs.Prelude.{◌≡◌, ℕ, ◌<◌, ◌≤◌, length, slice_index};
ghost use Rattle.score.specs.Music.{places, alterations, tone as tone_of};
ghost use Rattle.score.specs.Print.{key};
ghost use Rattle.keys.specs.Held.{key_row, sign_number, sign_needed, then_holding};

use score::{PLACES, SILENT, STEPS};
use std::array;

/// The key without signs: those above it have sharps, those below it flats.
const PLAIN: u32 = 7;

/// Half tones in an octave.
const OCTAVE: u64 = 12;

/// Which tone a place sounds when it is altered so, in half tones.
#[tactic(auto, unfolding(score::specs::Music::of_step))]
pub fn tone(place: u32, alteration: u32) -> u64
    ensures is { result ≡ tone_of place alteration }
    ensures small { place < places → alteration < alterations → result < 128 }
{
    // the seven steps, 0, 2, 4, 5, 7, 9 and 11 half tones above c, lie as evenly in an octave as can be, so one division finds each, and no table is needed
    (OCTAVE * place as u64 + 5) / STEPS as u64 + alteration as u64
}

/// How a key alters a place: 1 by a flat, 2 not, 3 by a sharp (alterations are numbers, see `Event`), for which it alters a few steps in all octaves.
#[tactic(auto, using(crate::proofs::Order::key_is))]
pub fn altered_by_key(signature: u32, place: u32) -> u32
    ensures { result ≡ key signature place }
{
    // sharps come in the order f c g d a e b, which is four steps up each time, and flats in the other order
    let nth = (2 * (place % STEPS as u32) + 1) % STEPS as u32;
    if signature >= PLAIN {
        if nth + PLAIN < signature { 3 } else { 2 }
    } else if nth >= signature {
        1
    } else {
        2
    }
}

/// What holds at each place in a bar: an alteration of each. It is lent, and written while events or symbols are read.
pub type Holds = [u32; PLACES];

/// How a key alters each step of an octave.
fn alter_steps(signature: u32) -> [u32; 7]
    ensures { (q : ℕ) → q < 7 → slice_index result q ≡ key signature q }
{
    array::from_fn(|step| altered_by_key(signature, step as u32))
}

/// At the beginning of a bar the key holds at each place, in every octave alike.
pub fn begin_bar(signature: u32, holds: &mut Holds)
    ensures { holds.new ≡ key_row signature }
{
    let steps = alter_steps(signature);
    // octave by octave: to ask each place for its step, which is a division, takes ten times as long
    for octave in 0..PLACES / 7 {
        holds[7 * octave..7 * octave + 7].copy_from_slice(&steps);
    }
}

/// The alteration whose sign an event needs where it begins, as `holds` says what holds at each place: none if it is a silence or if its alteration
/// holds. From then on its alteration holds at its place.
pub fn sign_of(holds: &mut Holds, place: u32, alteration: u32) -> Option<u32>
    requires { place ≤ places }
    ensures sign { sign_number result ≡ sign_needed holds.old place alteration }
    ensures holds { holds.new ≡ then_holding holds.old place alteration }
{
    if place == SILENT {
        return None;
    }
    let held = holds[place as usize];
    holds[place as usize] = alteration;
    (held != alteration).then_some(alteration)
}
