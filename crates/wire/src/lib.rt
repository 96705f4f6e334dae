//! Calls and answers as bytes: which call a row of bytes is or where it ceases to be one, and how answers are written and read back.
#![tactic(auto)]

ghost use Rattle.std.specs.Prelude.{◌≡◌, ◌+◌, ◌*◌, ◌≤◌, ◌∷◌, ◌++◌, length, drop};
ghost use Rattle.wire.specs.Bytes.{four, each};
ghost use Rattle.wire.specs.Faithful.{CallsBack, OneRow, PlaceRight, SymbolsBack, SoundsBack, AnswersBack};

mod answers;
mod calls;
mod items;

pub use answers::{ITEMS_AT, read_answer, write_answer, write_refused};
pub use calls::{LONGEST_CALL, read_call, write_call};
pub use items::Item;

/// Writes a row over the first bytes, and returns how many that is.
// Bytes are lent, and how many were written is handed back by each writer: there is no heap here (a rule of the project). That and what was written are two
// clauses in each contract, since callers use them one by one (no plainer as one).
fn write_row(out: &mut [u8], row: &[u8]) -> usize
    requires { length row.now ≤ length out.old }
    ensures wrote { out.new ≡ row.now ++ drop result out.old }
    ensures many { result ≡ length row.now }
{
    out[..row.len()].copy_from_slice(row);
    row.len()
}

/// Writes the number of a call, or the kind of an answer, and numbers in four bytes each.
// The kind is a byte, as it stands on the wire: `calls` and `answers` have a name for each, by which it is written and read.
fn write_fields(out: &mut [u8], kind: u8, fields: &[u32]) -> usize
    requires { 4 * length fields.now + 1 ≤ length out.old }
    ensures wrote { out.new ≡ (kind ∷ each four fields.now) ++ drop result out.old }
    ensures many { result ≡ 4 * length fields.now + 1 }
{
    let mut at = write_row(out, &[kind]);
    for field in fields {
        at += write_row(&mut out[at..], &field.to_le_bytes());
    }
    at
}

/// What was written of a call is read back as that call.
#[tactic(auto, using(crate::proofs::CallsBack::any_back, crate::proofs::CallsBack::call_back, crate::proofs::CallsBack::call_below))]
pub fn calls_back()
    ensures { CallsBack }
{}

/// Only one row of bytes is read as a given call, but for two bytes of a silence.
pub fn one_row()
    ensures { OneRow }
{}

/// The place of a refusal is where bytes cease to be the beginning of a call.
#[tactic(auto, using(crate::proofs::PlaceRight::place_right))]
pub fn place_right()
    ensures { PlaceRight }
{}

/// What was written of a symbol is read back as that symbol.
#[tactic(auto, using(crate::specs::Items::symbols_back))]
pub fn symbols_back()
    ensures { SymbolsBack }
{}

/// What was written of a note as it is heard is read back as that note.
#[tactic(auto, using(crate::specs::Items::sounds_back))]
pub fn sounds_back()
    ensures { SoundsBack }
{}

/// What was written of an answer is read back as that answer, and is bytes if its numbers fit their fields.
#[tactic(auto, using(crate::proofs::Back::answer_back, crate::proofs::Fitting::answer_below))]
pub fn answers_back()
    ensures { AnswersBack }
{}
