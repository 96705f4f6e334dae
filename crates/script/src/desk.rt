//! Lines are answered one after the other, by a session at a desk of its own.
ghost use Rattle.std.specs.Prelude.{◌≡◌, true, ◌++◌, Ok, Err, IfOk, string_bytes, OnOk};
ghost use Rattle.score.specs.Calls.{empty_voices};
ghost use Rattle.score.specs.Music.{pick};
ghost use Rattle.score.specs.Meaning.{call_meant};
ghost use Rattle.score.specs.Spelling.{spelled_answer};
ghost use Rattle.memory.specs.Store.{stored};
ghost use Rattle.session.specs.Session.{limits_for, layout_for, Ready};
ghost use Rattle.text.specs.Lines.{call_line};
ghost use Rattle.script.specs.Lines.{lines_in};
ghost use Rattle.script.specs.Script.{serves, opened_answers, answer_lines, script_answers};
ghost use Rattle.script.specs.Desk.{score_words, line_answer_in, words_after, line_answers_in, asked_by};

use crate::lines::Lines;
use crate::{SERVED_EVENTS, SERVED_VOICES};
use answers::spell_answer;
use score::{Call, Opening, Refusal};
use session::{Sizes, call, open};
use spelling::spell_refusal;
use std::alloc::Global;
use text::{UNREADABLE, read_call};
use wire::{LONGEST_CALL, write_call};

/// A score in words, the bytes in which it is answered, and the heap that answers are read into.
#[derive(Drop)]
struct Desk {
    heap: Global,
    words: Vec<u32>,
    bytes: Vec<u8>,
    ghost ready: { Ready words.items bytes.items },
}

impl Desk {
    /// Opens a score that is served, in as many words and bytes as it asks for.
    fn open(heap: Global, opening: Opening, asked: Sizes) -> anyhow::Result<Desk>
        requires opens { serves opening ≡ true }
        requires asked { asked ≡ asked_by opening }
        ensures { IfOk result (λ desk. score_words desk.words.items ≡ stored (limits_for opening) (layout_for opening) (empty_voices opening.voices)) }
    {
        let mut words = vec![in heap; 0; asked.words]?;
        let mut bytes = vec![in heap; 0; asked.bytes]?;
        let Ok(()) = open(&mut words, &mut bytes, opening) else {
            unreachable()
        };
        Ok(Desk { heap, words, bytes })
    }

    /// Answers a call, behind what stands there.
    fn answer_call(&mut self, asked: Call, out: &mut String) -> anyhow::Result<()>
        ensures said { OnOk result (string_bytes out.new ≡ string_bytes out.old ++ spelled_answer (line_answer_in self.old.words.items (Ok (call_meant asked)))) }
        ensures left { score_words self.new.words.items ≡ words_after self.old.words.items (Ok (call_meant asked)) }
    {
        let mut row = [0; LONGEST_CALL];
        let length = write_call(&mut row, asked);
        let answered = call(&mut self.words, &mut self.bytes, &row[..length]);
        spell_answer(self.heap, &self.bytes[..answered], out)
    }

    /// Answers a line, behind what stands there.
    fn answer_line(&mut self, line: &[u8], out: &mut String) -> anyhow::Result<()>
        ensures said { OnOk result (string_bytes out.new ≡ string_bytes out.old ++ spelled_answer (line_answer_in self.old.words.items (call_line line.now))) }
        ensures left { score_words self.new.words.items ≡ words_after self.old.words.items (call_line line.now) }
    {
        match read_call(line) {
            Ok(asked) => self.answer_call(asked, out),
            // as the answer of a refused call is spelled: where memory runs out, the same is told of both
            Err(unfit) => Ok(spell_refusal(UNREADABLE, unfit.at, out)?),
        }
    }

    /// Answers all lines, each on a line of its own.
    fn answer_lines(&mut self, lines: Lines, out: &mut String) -> anyhow::Result<()>
        ensures { OnOk result (string_bytes out.new ≡ string_bytes out.old ++ answer_lines (line_answers_in self.old.words.items (lines_in lines.entry))) }
    {
        for line in lines {
            self.answer_line(line, out)?;
            out.push_str("\n")?;
        }
        Ok(())
    }
}

/// The sizes that an opening asks for, if it is one that is served.
fn served(opening: Opening) -> Result<Sizes, Refusal>
    ensures { result ≡ pick (serves opening) (Ok (asked_by opening)) (Err Refusal.BadOpening) }
{
    if opening.voices > SERVED_VOICES || opening.events > SERVED_EVENTS {
        return Err(Refusal::BadOpening);
    }
    Sizes::of(opening)
}

/// Opens a score if it is one that is served, and answers all lines.
fn answer_opened(
    heap: Global,
    opening: Opening,
    lines: Lines,
    out: &mut String,
) -> anyhow::Result<()>
    ensures { OnOk result (string_bytes out.new ≡ string_bytes out.old ++ answer_lines (opened_answers opening (lines_in lines.entry))) }
{
    match served(opening) {
        Ok(asked) => Desk::open(heap, opening, asked)?.answer_lines(lines, out),
        Err(refusal) => Ok(writeln!(out, "{refusal}")?),
    }
}

/// Answers a script, behind what stands there.
pub fn answer_all(heap: Global, text: &[u8], out: &mut String) -> anyhow::Result<()>
    ensures { OnOk result (string_bytes out.new ≡ string_bytes out.old ++ script_answers text.now) }
{
    let mut lines = Lines::of(text);
    match lines.opening() {
        Ok(opening) => answer_opened(heap, opening, lines, out),
        Err(unfit) => Ok(writeln!(out, "{unfit}")?),
    }
}
