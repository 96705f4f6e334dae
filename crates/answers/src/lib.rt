//! Answers, from their bytes to a line of text.
#![tactic(auto)]

ghost use Rattle.std.specs.Prelude.{◌≡◌, ◌++◌, map, IfOk, string_bytes, OnOk};
ghost use Rattle.std.specs.Option.{option_map};
ghost use Rattle.score.specs.Spelling.{spelled_answer, spelled_bytes};
ghost use Rattle.wire.specs.Reading.{row_of, answer_of};

use score::{Answer, Sound, Symbol};
use spelling::{spell_refusal, spell_sounds, spell_symbols};
use std::alloc::{AllocError, Global};
use std::fmt;
use wire::{ITEMS_AT, Item, read_answer};

/// What an answer may be a row of.
trait Spelled: Item {
    /// Writes such a row behind what stands there.
    fn spell(row: &[Self], out: &mut String) -> fmt::Result
        ensures { OnOk result (string_bytes out.new ≡ string_bytes out.old ++ spelled_answer (Self.answer (map Self.meant row.now))) };
}

impl Spelled for Symbol {
    fn spell(row: &[Symbol], out: &mut String) -> fmt::Result {
        spell_symbols(row, out)
    }
}

impl Spelled for Sound {
    fn spell(row: &[Sound], out: &mut String) -> fmt::Result {
        spell_sounds(row, out)
    }
}

/// So many symbols or sounds, from their bytes.
pub fn items_in<T: Item>(
    heap: Global,
    bytes: &[u8],
    count: u32,
) -> Result<Option<Vec<T>>, AllocError>
    ensures { IfOk result (λ o. option_map (λ v. map T.meant v.items) o ≡ row_of T.of T.SIZE count bytes.now) }
{
    let mut row = Vec::new(heap);
    let mut rest = bytes;
    // each is read from what is left: of a row that is cut short there is none, and `chunks_exact` would need a count behind it
    for _i in 0..count {
        let Some(item) = T::read(rest) else {
            return Ok(None);
        };
        row.push(item)?;
        rest = &rest[T::SIZE..];
    }
    Ok(Some(row))
}

/// Writes an answer behind what stands there: `done`, `refused 5 at 9`, symbols, sounds, or a number.
pub fn spell_answer(heap: Global, bytes: &[u8], out: &mut String) -> anyhow::Result<()>
    ensures { OnOk result (string_bytes out.new ≡ string_bytes out.old ++ spelled_bytes (answer_of bytes.now)) }
{
    let Some(said) = read_answer(bytes) else {
        write!(out, "no answer")?;
        return Ok(());
    };
    match said {
        Answer::Done => write!(out, "done")?,
        // not a `Refusal`: bytes may have any number
        Answer::Refused { number, place } => spell_refusal(number, place as usize, out)?,
        Answer::Symbols { count } => spell_items::<Symbol>(heap, &bytes[ITEMS_AT..], count, out)?,
        Answer::Sounds { count } => spell_items::<Sound>(heap, &bytes[ITEMS_AT..], count, out)?,
        Answer::Number { number } => write!(out, "{number}")?,
    }
    Ok(())
}

/// Writes a row of so many, from their bytes.
fn spell_items<T: Spelled>(
    heap: Global,
    bytes: &[u8],
    count: u32,
    out: &mut String,
) -> anyhow::Result<()>
    ensures { OnOk result (string_bytes out.new ≡ string_bytes out.old ++ spelled_bytes (option_map T.answer (row_of T.of T.SIZE count bytes.now))) }
{
    match items_in::<T>(heap, bytes, count)? {
        Some(row) => T::spell(&row, out)?,
        None => write!(out, "no answer")?,
    }
    Ok(())
}

#[cfg(test)]
mod tests {
    use super::*;

    // Symbols and sounds are taken from their bytes, and none of a row that is cut short.
    #[test]
    fn rows_from_their_bytes(rt: HostRuntime) -> anyhow::Result<()> {
        let symbols = items_in(rt.alloc(), &[0, 0, 0, 0, 0, 3, 0, 0, 48, 0, 9], 2)?;
        let row = [Symbol::BarLine, Symbol::Rest { value: 48 }];
        assert!(rt; symbols.is_some_and(|found| found.as_slice() == row.as_slice()));
        let sounds = items_in::<Sound>(rt.alloc(), &[1, 60, 0, 1, 0, 0, 96, 0, 1, 62, 0], 2)?;
        assert!(rt; sounds.is_none());
        let sounds = items_in::<Sound>(rt.alloc(), &[1, 60, 0, 1, 0, 0, 96, 0], 1)?;
        let row = [Sound {
            voice: 1,
            start: 256,
            length: 96,
            tone: 60,
        }];
        assert!(rt; sounds.is_some_and(|found| found.as_slice() == row.as_slice()));
        Ok(())
    }
}
