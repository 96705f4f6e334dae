//! Symbols, and notes as they are heard, read from the front of a text.
#![tactic(auto)]

ghost use Rattle.std.specs.Prelude.{◌≡◌};
ghost use Rattle.words.specs.Words.{got, outcome};
ghost use Rattle.notation.specs.Notation.{kind, sign_mark, step, tie, ticks_on, value, head_on, head_text, rest_text, symbol_on, symbol_text, sound_text, symbol_read, sound_read};

use score::{Sound, Symbol};
use words::{Read, read_number, read_one_of, read_place, read_spaced, read_word};

/// What a symbol is, by how it begins.
#[derive(Clone, Copy, PartialEq, Eq, Debug)]
pub enum Kind {
    BarLine,
    Rest,
    Head,
}

/// Reads how a symbol begins: as a bar line, or as a rest, or else as a head.
#[tactic(auto, unfolding(crate::specs::Notation::kind))]
fn read_kind(text: &[u8]) -> Read<Kind>
    ensures { outcome result ≡ kind text.now }
{
    read_one_of(
        text,
        &[("bar", Kind::BarLine), ("r", Kind::Rest), ("", Kind::Head)],
    )
}

/// Reads a sign by its mark, or none.
#[tactic(auto, unfolding(crate::specs::Notation::sign_mark))]
fn read_mark(text: &[u8]) -> Read<u8>
    ensures { outcome result ≡ sign_mark text.now }
{
    read_one_of(
        text,
        &[("--", 1), ("-", 2), ("n", 3), ("#", 4), ("x", 5), ("", 0)],
    )
}

/// Reads a step by its letter.
#[tactic(auto, unfolding(crate::specs::Notation::step))]
fn read_step(text: &[u8]) -> Read<u8>
    ensures { outcome result ≡ step text.now }
{
    read_one_of(
        text,
        &[
            ("c", 0),
            ("d", 1),
            ("e", 2),
            ("f", 3),
            ("g", 4),
            ("a", 5),
            ("b", 6),
        ],
    )
}

/// Reads a tie, or none.
// No `Read`: it never fails.
fn read_tie(text: &[u8]) -> (bool, &[u8])
    ensures { got result.0 result.1.now ≡ tie text.now }
{
    match read_word(text, b"~") {
        Ok(rest) => (true, rest),
        Err(_) => (false, text),
    }
}

/// Reads a number of ticks.
fn read_ticks(text: &[u8]) -> Read<u16>
    ensures { outcome result ≡ ticks_on text.now }
{
    let (ticks, rest) = read_number(text, u16::MAX as u32)?;
    Ok((ticks as u16, rest))
}

/// Reads a value behind its colon.
fn read_value(text: &[u8]) -> Read<u16>
    ensures { outcome result ≡ value text.now }
{
    let rest = read_word(text, b":")?;
    read_ticks(rest)
}

/// Reads a head behind its step.
fn read_head_on(text: &[u8], sign: u8, step: u8) -> Read<Symbol>
    ensures { symbol_read (outcome result) ≡ head_on sign step text.now }
{
    let (place, rest) = read_place(text, step)?;
    let (value, rest) = read_value(rest)?;
    let (tied, rest) = read_tie(rest);
    Ok((
        Symbol::Head {
            place,
            sign,
            value,
            tied,
        },
        rest,
    ))
}

/// Reads a head, as `#f4:96` or `f4:48~`.
fn read_head(text: &[u8]) -> Read<Symbol>
    ensures { symbol_read (outcome result) ≡ head_text text.now }
{
    let (sign, rest) = read_mark(text)?;
    let (step, rest) = read_step(rest)?;
    read_head_on(rest, sign, step)
}

/// Reads a rest behind its letter.
fn read_rest(text: &[u8]) -> Read<Symbol>
    ensures { symbol_read (outcome result) ≡ rest_text text.now }
{
    let (value, rest) = read_ticks(text)?;
    Ok((Symbol::Rest { value }, rest))
}

/// Reads a symbol, as `bar`, `r24` or `nf4:48~`.
pub fn read_symbol(text: &[u8]) -> Read<Symbol>
    ensures { symbol_read (outcome result) ≡ symbol_text text.now }
{
    let (kind, rest) = read_kind(text)?;
    match kind {
        Kind::BarLine => Ok((Symbol::BarLine, rest)),
        Kind::Rest => read_rest(rest),
        Kind::Head => read_head(rest),
    }
}

/// Reads a note as it is heard, as `voice start length tone`.
pub fn read_sound(text: &[u8]) -> Read<Sound>
    ensures { sound_read (outcome result) ≡ sound_text text.now }
{
    let (voice, rest) = read_number(text, u8::MAX as u32)?;
    let (start, rest) = read_spaced(rest, u32::MAX)?;
    let (length, rest) = read_spaced(rest, u16::MAX as u32)?;
    let (tone, rest) = read_spaced(rest, u8::MAX as u32)?;
    let voice = voice as u8;
    let length = length as u16;
    let tone = tone as u8;
    Ok((
        Sound {
            voice,
            start,
            length,
            tone,
        },
        rest,
    ))
}
