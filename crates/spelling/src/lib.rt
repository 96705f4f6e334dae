//! Rows of symbols, and of sounds, as text.
#![tactic(auto)]

ghost use Rattle.std.specs.Prelude.{◌≡◌, ℕ, List, [], ◌++◌, map, Some, string_bytes, OnOk};
ghost use Rattle.score.specs.Meaning.{symbol_meant, sound_meant};
ghost use Rattle.score.specs.Spelling.{spelled_row, spelled_symbols, spelled_sounds, spelled_answer};
ghost use Rattle.score.specs.Calls.{refused};

use score::{Sound, Symbol};
use std::fmt;

/// Writes a row with a text between each two.
pub fn spell_row<T: fmt::Display>(row: &[T], between: &str, out: &mut String) -> fmt::Result
    ensures { (text : T → List ℕ) → ((x : T) → T.output x ≡ Some (text x)) → OnOk result (string_bytes out.new ≡ string_bytes out.old ++ spelled_row text [] between.now row.now) }
{
    let mut lead = "";
    for item in row {
        write!(out, "{lead}{item}")?;
        lead = between;
    }
    Ok(())
}

/// Writes symbols with a space between each two.
// Thin over `spell_row`, as `spell_sounds` is: each says its text by the definition that answers and programs speak of.
pub fn spell_symbols(symbols: &[Symbol], out: &mut String) -> fmt::Result
    ensures { OnOk result (string_bytes out.new ≡ string_bytes out.old ++ spelled_symbols (map symbol_meant symbols.now)) }
{
    spell_row(symbols, " ", out)
}

/// Writes sounds with a comma and a space between each two.
pub fn spell_sounds(sounds: &[Sound], out: &mut String) -> fmt::Result
    ensures { OnOk result (string_bytes out.new ≡ string_bytes out.old ++ spelled_sounds (map sound_meant sounds.now)) }
{
    spell_row(sounds, ", ", out)
}

/// Writes a refusal by its number and place, as `refused 5 at 9`: those that bytes tell are no `Refusal`.
pub fn spell_refusal(number: u8, place: usize, out: &mut String) -> fmt::Result
    ensures { OnOk result (string_bytes out.new ≡ string_bytes out.old ++ spelled_answer (refused number place)) }
{
    Ok(write!(out, "refused {number} at {place}")?)
}
