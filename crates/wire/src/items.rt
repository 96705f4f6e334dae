//! What rows of bytes are made of: symbols, and notes as they are heard.
ghost use Rattle.std.specs.Prelude.{◌≡◌, ℕ, ◌≤◌, List, ◌++◌, length, drop, refl, IsSome, Option};
ghost use Rattle.std.specs.Option.{option_map};
ghost use Rattle.score.specs.Music.{Heard};
ghost use Rattle.score.specs.Print as Print;
ghost use Rattle.score.specs.Calls.{Answer, symbols, sounds};
ghost use Rattle.score.specs.Meaning.{symbol_meant, sound_meant};
ghost use Rattle.wire.specs.Bytes.{symbol_bytes, sound_bytes};
ghost use Rattle.wire.specs.Reading.{symbol_of, sound_of};
ghost use Rattle.wire.specs.Faithful.{Back};
ghost use Rattle.wire.specs.Items.{length_symbol, symbols_back, sounds_back};

use super::write_row;
use score::{Sound, Symbol};

/// What a row of bytes has one after the other, in as many bytes each.
pub trait Item: Copy {
    ghost Meaning: { Type 0 };

    ghost SIZE: { ℕ };

    ghost meant: { Self → Meaning };

    ghost written: { Meaning → List ℕ };

    ghost of: { List ℕ → Option Meaning };

    ghost answer: { List Meaning → Answer };

    /// How many bytes one takes.
    const SIZE: usize;

    /// Writes it over the first bytes, and returns how many that is.
    fn write(self, out: &mut [u8]) -> usize
        requires { SIZE ≤ length out.old }
        ensures wrote { out.new ≡ written (meant self) ++ drop result out.old }
        ensures many { result ≡ SIZE };

    /// The one that stands at the front of bytes: none if they are too few or say none.
    fn read(bytes: &[u8]) -> Option<Self>
        ensures said { option_map meant result ≡ of bytes.now }
        ensures there { IsSome result → SIZE ≤ length bytes.now };

    ghost wide: { (x : Meaning) → length (written x) ≡ SIZE };

    ghost back: { Back written of };
}

// The first byte of a symbol says its kind; a head that is tied to the next is a kind of its own:
const BAR_LINE: u8 = 0;

const HEAD: u8 = 1;

const TIED_HEAD: u8 = 2;

const REST: u8 = 3;

impl Item for Symbol {
    ghost Meaning = { Print.Symbol };

    ghost SIZE = { 5 };

    ghost meant = { symbol_meant };

    ghost written = { symbol_bytes };

    ghost of = { symbol_of };

    ghost answer = { symbols };

    const SIZE: usize = 5;

    fn write(self, out: &mut [u8]) -> usize {
        let row = match self {
            Symbol::BarLine => [BAR_LINE, 0, 0, 0, 0],
            Symbol::Head {
                place,
                sign,
                value,
                tied,
            } => {
                let [low, high] = value.to_le_bytes();
                let kind = if tied { TIED_HEAD } else { HEAD };
                [kind, place, sign, low, high]
            }
            Symbol::Rest { value } => {
                let [low, high] = value.to_le_bytes();
                [REST, 0, 0, low, high]
            }
        };
        write_row(out, &row)
    }

    fn read(bytes: &[u8]) -> Option<Symbol> {
        let [kind, place, sign, low, high, ..] = bytes else {
            return None;
        };
        let value = u16::from_le_bytes([*low, *high]);
        // An enum of kinds would be no plainer: two of them are a head, which differs by its tie alone.
        match *kind {
            BAR_LINE => Some(Symbol::BarLine),
            HEAD | TIED_HEAD => Some(Symbol::Head {
                place: *place,
                sign: *sign,
                value,
                tied: *kind == TIED_HEAD,
            }),
            REST => Some(Symbol::Rest { value }),
            _ => None,
        }
    }

    ghost wide = { length_symbol };

    ghost back = { symbols_back };
}

impl Item for Sound {
    ghost Meaning = { ℕ × Heard };

    ghost SIZE = { 8 };

    ghost meant = { sound_meant };

    ghost written = { sound_bytes };

    ghost of = { sound_of };

    ghost answer = { sounds };

    const SIZE: usize = 8;

    fn write(self, out: &mut [u8]) -> usize {
        let [a, b, c, d] = self.start.to_le_bytes();
        let [low, high] = self.length.to_le_bytes();
        write_row(out, &[self.voice, self.tone, a, b, c, d, low, high])
    }

    fn read(bytes: &[u8]) -> Option<Sound> {
        let [voice, tone, a, b, c, d, low, high, ..] = bytes else {
            return None;
        };
        Some(Sound {
            voice: *voice,
            start: u32::from_le_bytes([*a, *b, *c, *d]),
            length: u16::from_le_bytes([*low, *high]),
            tone: *tone,
        })
    }

    ghost wide = { λ _. refl };

    ghost back = { sounds_back };
}
