//! The words and numbers that a line of text is made of, read from its front on.
#![tactic(auto)]

ghost use Rattle.std.specs.Prelude.{◌≡◌, ◌+◌, ◌<◌, ◌≤◌, true, false, ◌∷◌, map, Contains, IfOk, Some, None};
ghost use Rattle.words.specs.Words.{number, strip, spaced_number, one_of, place_on, outcome, word_outcome, begins_with_digit};

use score::STEPS;

/// What was read at the front of a line, and what is left of the line; or the line from where it ceases to fit.
pub type Read<'a, T> = Result<(T, &'a [u8]), &'a [u8]>;

/// The digit that a line begins with, and what is behind it.
#[tactic(auto, using(crate::proofs::Steps::none_empty, crate::proofs::Steps::none_below, crate::proofs::Steps::none_above))]
fn digit(line: &[u8]) -> Option<(u8, &[u8])>
    ensures { elim result [ Some v ↦ (line.now ≡ (48 + v.0) ∷ v.1.now) × (v.0 ≤ 9) | None ↦ begins_with_digit line.now ≡ false ] }
{
    match line {
        [first @ b'0'..=b'9', rest @ ..] => Some((*first - b'0', rest)),
        _ => None,
    }
}

/// Reads just this word, and hands on what is left of the line.
// No `Read`: a word has no value. `strip_prefix` would not say how far the word fits.
#[tactic(auto, using(crate::proofs::Steps::letter_same, crate::proofs::Steps::letter_other, crate::proofs::Steps::letter_none, crate::proofs::Steps::letters_over))]
pub fn read_word<'a>(line: &'a [u8], word: &[u8]) -> Result<&'a [u8], &'a [u8]>
    ensures { word_outcome result ≡ strip word.now line.now }
{
    let mut rest = line;
    for letter in word {
        let Some((first, more)) = rest.split_first() else {
            return Err(rest);
        };
        if first != letter {
            return Err(rest);
        }
        rest = more;
    }
    Ok(rest)
}

/// Reads the first of these words that fits, and hands on the value beside it.
pub fn read_one_of<'a, T: Copy>(line: &'a [u8], words: &[(&str, T)]) -> Read<'a, T>
    ensures read { outcome result ≡ one_of (map (λ w. (w.0.now, w.1)) words.now) line.now line.now }
    ensures listed { IfOk result (λ v. Contains (map (λ w. w.1) words.now) v.0) }
{
    let mut furthest = line;
    for (word, value) in words {
        match read_word(line, word.as_bytes()) {
            Ok(rest) => return Ok((*value, rest)),
            Err(rest) => {
                if rest.len() < furthest.len() {
                    furthest = rest;
                }
            }
        }
    }
    Err(furthest)
}

/// Reads a number that is at most `most`.
// Digit by digit: where a number ceases to fit is the place that is told, which `parse` does not say.
#[tactic(auto, using(crate::proofs::Steps::number_begun, crate::proofs::Steps::digit_fits, crate::proofs::Steps::digit_too_much, crate::proofs::Steps::digits_over), unfolding(crate::specs::Words::number))]
pub fn read_number(line: &[u8], most: u32) -> Read<u32>
    ensures read { outcome result ≡ number most line.now }
    ensures bound { IfOk result (λ v. v.0 ≤ most) }
{
    let Some(_) = digit(line) else {
        return Err(line);
    };
    let mut n: u32 = 0;
    let mut rest = line;
    while let Some((d, more)) = digit(rest) {
        let next = 10 * n as u64 + d as u64;
        if next > most as u64 {
            return Err(rest);
        }
        n = next as u32;
        rest = more;
    }
    Ok((n, rest))
}

/// Reads a space and a number.
pub fn read_spaced(line: &[u8], most: u32) -> Read<u32>
    ensures read { outcome result ≡ spaced_number most line.now }
    ensures bound { IfOk result (λ v. v.0 ≤ most) }
{
    let rest = read_word(line, b" ")?;
    read_number(rest, most)
}

/// Reads an octave behind its step: a place, as long as it fits a byte.
pub fn read_place(line: &[u8], step: u8) -> Read<u8>
    ensures { outcome result ≡ place_on step line.now }
{
    let (octave, rest) = read_number(line, ((u8::MAX - step) / STEPS) as u32)?;
    Ok((STEPS * octave as u8 + step, rest))
}
