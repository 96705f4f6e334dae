//! A voice is engraved, and what was engraved is read: who reads it hears the voice.
#![tactic(auto)]

ghost use Rattle.std.specs.Prelude.{◌≡◌, length, MatchResult};
ghost use Rattle.readback.specs.Checked.{measured, bars_or_refusal};
ghost use Rattle.readback.specs.Heard.{answered, Back, Unchanged};

use engraving::voice::Voice;
use reading::{Heard, read};
use rows::Rows;
use score::{Layout, Refusal, SHORTEST, Symbol, TICKS_END};
use wire::Item;

/// The ticks of a voice whose events can be written and that is not too long.
fn ticks_of(rows: Rows) -> Result<u32, Refusal>
    ensures { result ≡ measured rows.entry }
{
    let many = rows.lengths.len();
    if rows.places.len() != many || rows.alterations.len() != many {
        return Err(Refusal::OutOfRange);
    }
    let mut ticks = 0u32;
    for row in rows {
        if !row.is_fine() {
            return Err(Refusal::OutOfRange);
        }
        ticks = ticks.saturating_add(row.length);
    }
    if ticks >= TICKS_END {
        return Err(Refusal::Full);
    }
    Ok(ticks)
}

/// How many bars the voice takes, if it can be read back: the layout is good, the events can be written, and there is room for all.
fn bars_needed(
    rows: Rows,
    layout: Layout,
    page: usize,
    signs: usize,
    notes: usize,
) -> Result<u32, Refusal>
    ensures { result ≡ bars_or_refusal rows.entry layout page signs notes }
{
    if !layout.is_good() {
        return Err(Refusal::BadOpening);
    }
    let ticks = ticks_of(rows)?;
    let bars = ticks / layout.bar + 1;
    let symbols = bars as usize * (layout.bar / SHORTEST + 1) as usize;
    let events = rows.lengths.len();
    if page < Symbol::SIZE * symbols || signs < events || notes < events {
        return Err(Refusal::TooLittleMemory);
    }
    Ok(bars)
}

/// How much was printed and read: so many bytes of symbols, and so many notes.
// Page, signs and notes are lent, and how much was written of page and notes is handed back: there is no heap here (a rule of the project).
#[derive(Clone, Copy, PartialEq, Eq, Debug)]
pub struct ReadBack {
    pub bytes: usize,
    pub notes: usize,
}

/// Prints a voice on a page, and reads the page in the key and with nothing else known: what is heard is the voice, note by note. What cannot be
/// printed, or has no room, is turned away and changes nothing.
pub fn read_back(
    rows: Rows,
    layout: Layout,
    page: &mut [u8],
    signs: &mut [u32],
    notes: &mut [Heard],
) -> Result<ReadBack, Refusal>
    ensures said { result ≡ answered rows.entry layout (length page.old) (length signs.old) (length notes.old) }
    ensures left { MatchResult result (λ b. Back rows.entry layout b page.old page.new signs.old signs.new notes.old notes.new) (λ _. Unchanged page.old page.new signs.old signs.new notes.old notes.new) }
{
    let bars = bars_needed(rows, layout, page.len(), signs.len(), notes.len())?;
    let voice = Voice { rows, layout };
    let bytes = voice.engrave(signs, 0, bars, page);
    let Ok(heard) = read(&page[0..bytes], layout.key, notes) else {
        unreachable()
    };
    Ok(ReadBack {
        bytes,
        notes: heard,
    })
}
