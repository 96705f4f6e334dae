//! Calls on a stored score, answered over the front of the bytes.
ghost use Rattle.std.specs.Prelude.{◌≡◌, ◌+◌, ◌≤◌, true, ◌++◌, length, drop, slice_index};
ghost use Rattle.score.specs.Calls.{most_bars, show as show_call, heard_in as heard_call};
ghost use Rattle.score.specs.Meaning.{call_meant};
ghost use Rattle.score.specs.Music.{all_fine};
ghost use Rattle.memory.specs.Store.{limit_in};
ghost use Rattle.memory.specs.Words.{events_at, KeptAt, next_words};
ghost use Rattle.engraving.specs.Shown.{shown, page_bytes};
ghost use Rattle.session.specs.Session.{bytes_taken, told_bytes, Says};

use engraving::voice::{KeptVoice, Voice};
use score::{Answer, Call, MOST_BARS, Refusal, Sound, Symbol, WIDEST_SPAN};
use sounds::heard_in;
use voices::{Span, Stored, StoredMut};
use wire::{ITEMS_AT, Item, write_answer, write_refused};

/// Writes what is told to a call, or why it is turned away.
fn write_told(bytes: &mut [u8], told: Result<Answer, Refusal>) -> usize
    requires { 6 ≤ length bytes.old }
    ensures wrote { bytes.new ≡ told_bytes told ++ drop result bytes.old }
    ensures many { result ≡ length (told_bytes told) }
{
    match told {
        Ok(answer) => write_answer(bytes, answer),
        Err(refusal) => write_refused(bytes, refusal),
    }
}

/// Prints bars of the voice that lies in a span.
fn print(score: Stored<'_>, span: Span, bar: u32, count: u32, out: &mut [u8]) -> usize
    requires within { span.begin + span.count ≤ limit_in score.words.now }
    requires kept { KeptAt score.words.now span.begin span.count }
    requires fine { all_fine (events_at score.words.now span.begin span.count) ≡ true }
    requires few { count ≤ most_bars }
    requires room { page_bytes ≤ length out.old }
    ensures wrote { out.new ≡ shown (slice_index score.entry.words.now 0) (slice_index score.entry.words.now 1) (events_at score.entry.words.now span.begin span.count) bar count ++ drop result out.old }
    ensures many { result ≡ length (shown (slice_index score.entry.words.now 0) (slice_index score.entry.words.now 1) (events_at score.entry.words.now span.begin span.count) bar count) }
    ensures small { result ≤ page_bytes }
{
    let voice = Voice {
        rows: score.rows(span),
        layout: score.layout(),
    };
    let kept = KeptVoice {
        voice,
        onsets: score.onsets(span),
    };
    kept.engrave_page(bar, count, out)
}

/// Shows bars of a voice.
// In `show` and `hear` each check hands on its value or returns the refusal, and symbols or sounds go behind the answer's head (rules of the project). Score and
// bytes are no struct: it would hold a `&mut`, and each contract would say besides that it lends the same bytes still (no plainer).
fn show(score: Stored<'_>, bytes: &mut [u8], voice: u32, bar: u32, count: u32) -> usize
    requires { bytes_taken score.words.now ≤ length bytes.old }
    ensures { Says score.entry.words.now bytes.old bytes.new (show_call voice bar count) result }
{
    let Some(count) = (count <= MOST_BARS).then_some(count) else {
        return write_refused(bytes, Refusal::OutOfRange);
    };
    let Some(span) = score.find_voice(voice) else {
        return write_refused(bytes, Refusal::NoVoice(voice));
    };
    let long = print(score, span, bar, count, &mut bytes[ITEMS_AT..]);
    let count = (long / Symbol::SIZE) as u32;
    write_answer(bytes, Answer::Symbols { count }) + long
}

/// What is heard in a span.
fn hear(score: Stored<'_>, bytes: &mut [u8], from: u32, to: u32) -> usize
    requires { bytes_taken score.words.now ≤ length bytes.old }
    ensures { Says score.entry.words.now bytes.old bytes.new (heard_call from to) result }
{
    let Some(to) = (to.saturating_sub(from) <= WIDEST_SPAN).then_some(to) else {
        return write_refused(bytes, Refusal::OutOfRange);
    };
    let notes = heard_in(score, from, to, &mut bytes[ITEMS_AT..]);
    let count = notes as u32;
    write_answer(bytes, Answer::Sounds { count }) + Sound::SIZE * notes
}

/// Does a call on a stored score, and writes its answer.
pub fn answer(score: &mut StoredMut<'_>, bytes: &mut [u8], call: Call) -> usize
    requires { bytes_taken score.old.words.now ≤ length bytes.old }
    ensures same { score.new.words.ghost_name ≡ score.old.words.ghost_name }
    ensures said { Says score.old.words.now bytes.old bytes.new (call_meant call) result }
    ensures left { score.new.words.now ≡ next_words score.old.words.now (call_meant call) }
{
    match call {
        Call::Put {
            voice,
            index,
            event,
        } => {
            let told = score.put(voice, index, event);
            write_told(bytes, told.map(|()| Answer::Done))
        }
        Call::Cut { voice, index } => {
            let told = score.cut(voice, index);
            write_told(bytes, told.map(|()| Answer::Done))
        }
        Call::Change {
            voice,
            index,
            event,
        } => {
            let told = score.change(voice, index, event);
            write_told(bytes, told.map(|()| Answer::Done))
        }
        Call::Show { voice, bar, count } => show(score.read(), bytes, voice, bar, count),
        Call::HeardIn { from, to } => hear(score.read(), bytes, from, to),
        Call::HowLong { voice } => {
            let told = score.read().how_long(voice);
            write_told(bytes, told.map(|number| Answer::Number { number }))
        }
    }
}
