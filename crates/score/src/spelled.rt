//! How events, symbols, sounds and refusals are spelled.
ghost use Rattle.std.specs.Prelude.{◌≡◌, Some};
ghost use Rattle.score.specs.Meaning.{event_meant, symbol_meant, sound_meant, refusal_meant};
ghost use Rattle.score.specs.Spelling.{letter, mark, alteration_name, spelled_event, spelled_symbol, spelled_sound, spelled_answer};

use crate::{Event, Refusal, STEPS, Sound, Symbol};
use std::fmt;

// The three functions below match numbers, since those are what events and symbols have; a number past the last is spelled as the last.

/// The letter of a step, from c on.
fn letter_of(step: u8) -> &'static str
    ensures { result.now ≡ letter step }
{
    match step {
        0 => "c",
        1 => "d",
        2 => "e",
        3 => "f",
        4 => "g",
        5 => "a",
        _ => "b",
    }
}

/// How a sign is spelled.
fn mark_of(sign: u8) -> &'static str
    ensures { result.now ≡ mark sign }
{
    match sign {
        0 => "",
        1 => "--",
        2 => "-",
        3 => "n",
        4 => "#",
        _ => "x",
    }
}

/// How an alteration is named between a step and its octave.
fn name_of(alteration: u8) -> &'static str
    ensures { result.now ≡ alteration_name alteration }
{
    match alteration {
        0 => " double flat ",
        1 => " flat ",
        2 => "",
        3 => " sharp ",
        _ => " double sharp ",
    }
}

/// As `c4 48`, `f sharp 4 96` or `silence 60`.
impl fmt::Display for Event {
    ghost output = { λ x. Some (spelled_event (event_meant x)) };

    fn fmt<W: fmt::Write>(&self, f: &mut fmt::Formatter<W>) -> fmt::Result {
        match *self {
            Event::Note {
                place,
                alteration,
                length,
            } => {
                let letter = letter_of(place % STEPS);
                let name = name_of(alteration);
                let octave = place / STEPS;
                write!(f, "{letter}{name}{octave} {length}")
            }
            Event::Silence { length } => write!(f, "silence {length}"),
        }
    }
}

/// As `#f4:96`, `nf4:48~`, `r24` or `bar`.
impl fmt::Display for Symbol {
    ghost output = { λ x. Some (spelled_symbol (symbol_meant x)) };

    fn fmt<W: fmt::Write>(&self, f: &mut fmt::Formatter<W>) -> fmt::Result {
        match *self {
            Symbol::BarLine => write!(f, "bar"),
            Symbol::Head {
                place,
                sign,
                value,
                tied,
            } => {
                let mark = mark_of(sign);
                let letter = letter_of(place % STEPS);
                let octave = place / STEPS;
                let tie = if tied { "~" } else { "" };
                write!(f, "{mark}{letter}{octave}:{value}{tie}")
            }
            Symbol::Rest { value } => write!(f, "r{value}"),
        }
    }
}

/// As `voice start length tone`.
impl fmt::Display for Sound {
    ghost output = { λ x. Some (spelled_sound (sound_meant x)) };

    fn fmt<W: fmt::Write>(&self, f: &mut fmt::Formatter<W>) -> fmt::Result {
        let voice = self.voice;
        let start = self.start;
        let length = self.length;
        let tone = self.tone;
        write!(f, "{voice} {start} {length} {tone}")
    }
}

/// As `refused 5 at 9`.
impl fmt::Display for Refusal {
    ghost output = { λ x. Some (spelled_answer (refusal_meant x)) };

    fn fmt<W: fmt::Write>(&self, f: &mut fmt::Formatter<W>) -> fmt::Result {
        let number = self.number();
        let place = self.place();
        write!(f, "refused {number} at {place}")
    }
}
