//! `proofread [FILE]` prints a voice, reads what was printed, and prints what it heard. It reads a file, or standard input: a key, a bar's length, and
//! then one event a line. It prints three lines: what is heard of the voice, what is printed, and what the reader heard.
#![tactic(auto)]

use input::read_input;
use keys::tone;
use readback::read_back;
use reading::{Heard, Symbols};
use rows::{Row, Rows};
use score::{Event, LONGEST_BAR, Layout, Refusal, SHORTEST, Symbol};
use script::SERVED_EVENTS;
use script::lines::Lines;
use spelling::{spell_row, spell_symbols};
use std::alloc::{AllocError, Global};
use std::process::ExitCode;
use text::{Unfit, read_event_line};
use wire::Item;

/// Why a voice is not proofread.
#[derive(Debug, Drop)]
enum Stop {
    /// A line that is no setting and no event, where one was looked for.
    Unreadable(Unfit),
    /// A voice that is turned away.
    Refused(Refusal),
    NoMemory(AllocError),
}

impl From<Unfit> for Stop {
    fn from(unfit: Unfit) -> Stop {
        Stop::Unreadable(unfit)
    }
}

impl From<Refusal> for Stop {
    fn from(refusal: Refusal) -> Stop {
        Stop::Refused(refusal)
    }
}

impl From<AllocError> for Stop {
    fn from(error: AllocError) -> Stop {
        Stop::NoMemory(error)
    }
}

/// What a voice is proofread to: what is heard of it, the symbols that are printed, and what the reader heard of these.
#[derive(Drop)]
struct Proof {
    notes: Vec<Heard>,
    symbols: Vec<Symbol>,
    heard: Vec<Heard>,
}

impl Proof {
    /// Writes the three lines.
    fn write(&self, out: &mut String) -> anyhow::Result<()> {
        spell_row(&self.notes, ", ", out)?;
        out.push_str("\n")?;
        spell_symbols(&self.symbols, out)?;
        out.push_str("\n")?;
        spell_row(&self.heard, ", ", out)?;
        out.push_str("\n")?;
        Ok(())
    }
}

/// The events of a voice, in three rows, as `Rows` lends them (a rule of the project).
#[derive(Drop)]
struct Voice {
    places: Vec<u32>,
    alterations: Vec<u32>,
    lengths: Vec<u32>,
}

impl Voice {
    /// The voice that lines say, an event each.
    fn of(heap: Global, lines: Lines) -> Result<Voice, Stop> {
        let mut voice = Voice {
            places: Vec::new(heap),
            alterations: Vec::new(heap),
            lengths: Vec::new(heap),
        };
        for line in lines {
            voice.push(read_event_line(line)?)?;
        }
        if voice.lengths.len() > SERVED_EVENTS as usize {
            return Err(Stop::Refused(Refusal::Full));
        }
        Ok(voice)
    }

    /// One event more.
    fn push(&mut self, event: Event) -> Result<(), AllocError> {
        let Row {
            place,
            alteration,
            length,
        } = Row::from(event);
        self.places.push(place)?;
        self.alterations.push(alteration)?;
        self.lengths.push(length)?;
        Ok(())
    }

    fn rows(&self) -> Rows {
        Rows {
            places: &self.places,
            alterations: &self.alterations,
            lengths: &self.lengths,
        }
    }

    /// How long it is.
    fn ticks(&self) -> u64 {
        self.rows().fold(0, |ticks: u64, row| ticks.saturating_add(row.length as u64))
    }

    /// What is heard of it, event by event.
    // Not `sounds::Notes`: that goes over a voice of a stored score, whose times fit their fields. Of these rows that is not known: nothing may overflow.
    fn notes(&self, heap: Global) -> Result<Vec<Heard>, AllocError> {
        let mut notes = Vec::new(heap);
        let mut start = 0u64;
        for row in self.rows() {
            let length = row.length as u64;
            if !row.is_silent() {
                notes.push(Heard {
                    start,
                    length,
                    tone: tone(row.place, row.alteration),
                })?;
            }
            start = start.saturating_add(length);
        }
        Ok(notes)
    }

    /// Prints it and reads what was printed.
    fn proof(&self, heap: Global, layout: Layout) -> Result<Proof, Stop> {
        let mut page = vec![in heap; 0; room(self.ticks(), layout.bar)]?;
        let none = Heard {
            start: 0,
            length: 0,
            tone: 0,
        };
        let mut signs = vec![in heap; 0; self.lengths.len()]?;
        let mut heard = vec![in heap; none; self.lengths.len()]?;
        let back = read_back(self.rows(), layout, &mut page, &mut signs, &mut heard)?;
        page.truncate(back.bytes);
        heard.truncate(back.notes);
        Ok(Proof {
            notes: self.notes(heap)?,
            symbols: Symbols(&page).collect(heap)?,
            heard,
        })
    }
}

/// Room for what is printed of so many ticks, in bytes. A bar that no voice has counts as one that there is.
// As much as `read_back` asks for, but of a bar and ticks that nobody has looked at yet: nothing may overflow.
fn room(ticks: u64, bar: u32) -> usize {
    let bar = bar.clamp(1, LONGEST_BAR) as u64;
    let bars = (ticks / bar).saturating_add(1);
    let symbols = bars.saturating_mul(bar / SHORTEST as u64 + 1);
    symbols.saturating_mul(Symbol::SIZE as u64) as usize
}

/// Proofreads the voice that a text says.
fn proof_of(heap: Global, text: &[u8]) -> Result<Proof, Stop> {
    let mut lines = Lines::of(text);
    let key = lines.setting("key")?;
    let bar = lines.setting("bar")?;
    Voice::of(heap, lines)?.proof(heap, Layout { key, bar })
}

/// Writes what a text is proofread to, or why it is not.
fn proofread(heap: Global, text: &[u8], out: &mut String) -> anyhow::Result<()> {
    match proof_of(heap, text) {
        Ok(proof) => proof.write(out)?,
        Err(Stop::Unreadable(unfit)) => writeln!(out, "{unfit}")?,
        Err(Stop::Refused(refusal)) => writeln!(out, "{refusal}")?,
        Err(Stop::NoMemory(error)) => return Err(error.into()),
    }
    Ok(())
}

fn main(rt: HostRuntime) -> anyhow::Result<ExitCode> {
    let Ok(text) = read_input(&rt, "proofread") else {
        // standard error has been told what could not be read, and why
        return Ok(ExitCode::FAILURE);
    };
    let mut out = String::new(rt.alloc());
    proofread(rt.alloc(), &text, &mut out)?;
    rt.print(out.as_str())?;
    Ok(ExitCode::SUCCESS)
}
