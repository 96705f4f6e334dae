//! The session: a score is opened in lent words and bytes, and calls are answered there.
#![tactic(auto)]

ghost use Rattle.std.specs.Prelude.{◌≡◌, ◌≤◌, ◌&&◌, length, Ok, Err, MatchResult, nat_le};
ghost use Rattle.score.specs.declared.Refusal.TheVariants.{TooLittleMemory};
ghost use Rattle.score.specs.Meaning.{call_meant};
ghost use Rattle.score.specs.Music.{pick};
ghost use Rattle.voices.specs.Said.{said_done};
ghost use Rattle.session.specs.Promises.{SessionRight, SessionKeeps, SessionEnough, WholeWay};
ghost use Rattle.session.specs.Session.{sizes_for, sizes_of, open_answer, bytes_taken, Ready, Opened, Unchanged, Says, Answered};
ghost use Rattle.memory.specs.Words.{Holds, next_words};

mod answers;

use answers::answer;
pub use score::Opening;
use score::{Call, MOST_EVENTS, MOST_VOICES, Refusal, Sound};
use voices::{COUNTS, LIMIT, StoredMut, VOICES, lay_out};
use wire::{Item, read_call, write_refused};

/// How many bytes a score asks for beside eight for each event, so that every answer fits.
const LEAST_BYTES: usize = 262144;

/// How many words and bytes a score asks for.
#[derive(Clone, Copy, PartialEq, Eq, Debug)]
pub struct Sizes {
    pub words: usize,
    pub bytes: usize,
}

impl Sizes {
    /// How many words and bytes an opening asks for, unless it is out of range.
    pub fn of(opening: Opening) -> Result<Sizes, Refusal>
        ensures { result ≡ sizes_of opening }
    {
        if !opening.layout().is_good() {
            return Err(Refusal::BadOpening);
        }
        if opening.voices == 0 || opening.voices > MOST_VOICES || opening.events > MOST_EVENTS {
            return Err(Refusal::BadOpening);
        }
        Ok(Sizes::taken(opening.voices, opening.events))
    }

    /// How many words and bytes a score of so many voices and at most so many events takes.
    fn taken(voices: u32, events: u32) -> Sizes
        ensures { result ≡ sizes_for voices events }
    {
        let voices = voices as usize;
        let events = events as usize;
        Sizes {
            words: COUNTS + (2 * voices + 6 * events + (events / 32 + 1)),
            bytes: Sound::SIZE * events + LEAST_BYTES,
        }
    }

    /// The sizes, if there are so many words and bytes.
    fn within(self, words: usize, bytes: usize) -> Result<Sizes, Refusal>
        ensures { result ≡ pick (nat_le self.words words && nat_le self.bytes bytes) (Ok self) (Err TooLittleMemory) }
    {
        if self.words <= words && self.bytes <= bytes {
            Ok(self)
        } else {
            Err(Refusal::TooLittleMemory)
        }
    }
}

/// Opens a score without events in lent memory, or changes nothing.
// Each check hands on its value or returns the refusal (a rule of the project).
pub fn open(words: &mut [u32], bytes: &mut [u8], opening: Opening) -> Result<(), Refusal>
    ensures said { said_done result ≡ open_answer opening (length words.old) (length bytes.old) }
    ensures left { MatchResult result (λ _. Opened opening words.old bytes.old words.new bytes.new) (λ _. Unchanged words.old bytes.old words.new bytes.new) }
{
    let asked = Sizes::of(opening)?;
    let Sizes {
        words: taken,
        bytes: room,
    } = asked.within(words.len(), bytes.len())?;
    lay_out(&mut words[0..taken], opening);
    bytes[0..room].fill(0);
    Ok(())
}

/// Does a call on words that hold a score, and writes its answer. In `call` itself what a StoredMut leaves in a part of the words is not known when it is
/// back: its value in the goal is any of that length (`words-1.given.0`).
fn answer_in(words: &mut [u32], bytes: &mut [u8], call: Call) -> usize
    requires holds { Holds words.old }
    requires room { bytes_taken words.old ≤ length bytes.old }
    ensures said { Says words.old bytes.old bytes.new (call_meant call) result }
    ensures left { words.new ≡ next_words words.old (call_meant call) }
    ensures holds { Holds words.new }
{
    answer(&mut StoredMut::of(words), bytes, call)
}

/// Answers a call in bytes over the front of the lent bytes, and returns how long the answer is.
// Words and bytes are lent one by one (C interface), so each call asks that a score lies there.
pub fn call(words: &mut [u32], bytes: &mut [u8], input: &[u8]) -> usize
    requires { Ready words.old bytes.old }
    ensures { Answered words.old bytes.old input.now words.new bytes.new result }
{
    let Sizes {
        words: asked,
        bytes: room,
    } = Sizes::taken(words[VOICES], words[LIMIT]);
    match read_call(input) {
        Ok(call) => answer_in(&mut words[0..asked], &mut bytes[0..room], call),
        Err(refusal) => write_refused(&mut bytes[0..room], refusal),
    }
}

/// The session is right: for every list of calls its answers are those of the score as the calls left it, printed and heard anew.
#[tactic(auto, using(memory::proofs::Run::right))]
pub fn right()
    ensures { SessionRight }
{}

/// A call that is turned away leaves the words as they were.
#[tactic(auto, using(memory::proofs::Run::keeps))]
pub fn refusal_keeps()
    ensures { SessionKeeps }
{}

/// The memory that is asked for at opening is enough for ever.
#[tactic(auto, using(memory::proofs::Enough::enough))]
pub fn enough_memory()
    ensures { SessionEnough }
{}

/// The whole way: after every list of calls, who reads the bars that are shown of a voice hears just what is told of that voice for those bars, every
/// note at its time, as long as it is, at its tone. It is asked only that nothing is tied into the first of these bars nor into the bar behind the last.
#[tactic(auto, using(crate::proofs::Pages::whole_way))]
pub fn whole_way()
    ensures { WholeWay }
{}

#[cfg(test)]
mod tests {
    use super::*;
    use std::process::Abort;
    use std::test::Fail;

    // f sharp over a bar line is put and shown, what is not there is refused, and nothing has changed by that.
    fn shows(rt: &impl Abort, words: &mut [u32], bytes: &mut [u8]) -> Result<(), Fail> {
        let opening = Opening {
            key: 7,
            bar: 96,
            voices: 1,
            events: 2,
        };
        let Ok(()) = open(words, bytes, opening) else {
            return Err(Fail::new("a score is opened"));
        };
        let put = [0, 0, 0, 0, 0, 0, 0, 0, 0, 0, 31, 3, 144, 0];
        assert_eq!(rt; call(words, bytes, &put), 1);
        let show = [3, 0, 0, 0, 0, 0, 0, 0, 0, 2, 0, 0, 0];
        let shown = [
            2, 3, 0, 0, 0, 2, 31, 4, 96, 0, 0, 0, 0, 0, 0, 1, 31, 0, 48, 0,
        ];
        assert_eq!(rt; call(words, bytes, &show), 20);
        assert!(rt; bytes.starts_with(&shown));
        let cut = [1, 0, 0, 0, 0, 1, 0, 0, 0];
        assert_eq!(rt; call(words, bytes, &cut), 6);
        assert!(rt; bytes.starts_with(&[1, 5, 1, 0, 0, 0]));
        assert_eq!(rt; call(words, bytes, &[6]), 6);
        assert!(rt; bytes.starts_with(&[1, 1, 0, 0, 0, 0]));
        assert_eq!(rt; call(words, bytes, &show), 20);
        assert!(rt; bytes.starts_with(&shown));
        Ok(())
    }

    #[test]
    fn a_note_is_put_and_shown(rt: HostRuntime) -> Result<(), Fail> {
        let mut words = vec![in rt.alloc(); 0; 19]?;
        let mut bytes = vec![in rt.alloc(); 0; 262160]?;
        shows(&rt, &mut words, &mut bytes)
    }

    // c4 and, behind a silence, e4 are put into the last of so many voices, and heard.
    fn hears(rt: &impl Abort, words: &mut [u32], bytes: &mut [u8], voices: u8) -> Result<(), Fail> {
        let opening = Opening {
            key: 7,
            bar: 96,
            voices: voices as u32,
            events: 3,
        };
        let Ok(()) = open(words, bytes, opening) else {
            return Err(Fail::new("a score is opened"));
        };
        let v = voices.saturating_sub(1);
        let c = [0, v, 0, 0, 0, 0, 0, 0, 0, 0, 28, 2, 48, 0];
        assert_eq!(rt; call(words, bytes, &c), 1);
        let silence = [0, v, 0, 0, 0, 1, 0, 0, 0, 1, 0, 0, 48, 0];
        assert_eq!(rt; call(words, bytes, &silence), 1);
        let e = [0, v, 0, 0, 0, 2, 0, 0, 0, 0, 30, 2, 96, 0];
        assert_eq!(rt; call(words, bytes, &e), 1);
        let all = [4, 0, 0, 0, 0, 0, 6, 0, 0];
        let sounds = [
            3, 2, 0, 0, 0, v, 50, 0, 0, 0, 0, 48, 0, v, 54, 96, 0, 0, 0, 96, 0,
        ];
        assert_eq!(rt; call(words, bytes, &all), 21);
        assert!(rt; bytes.starts_with(&sounds));
        let between = [4, 1, 0, 0, 0, 96, 0, 0, 0];
        assert_eq!(rt; call(words, bytes, &between), 5);
        assert!(rt; bytes.starts_with(&[3, 0, 0, 0, 0]));
        let behind = [4, 97, 0, 0, 0, 97, 6, 0, 0];
        assert_eq!(rt; call(words, bytes, &behind), 5);
        assert!(rt; bytes.starts_with(&[3, 0, 0, 0, 0]));
        Ok(())
    }

    #[test]
    fn one_voice_and_several_are_heard(rt: HostRuntime) -> Result<(), Fail> {
        let mut words = vec![in rt.alloc(); 0; 29]?;
        let mut bytes = vec![in rt.alloc(); 0; 262168]?;
        hears(&rt, &mut words, &mut bytes, 1)?;
        hears(&rt, &mut words, &mut bytes, 3)
    }

    #[test]
    fn too_little_memory_is_refused(rt: HostRuntime) {
        let opening = Opening {
            key: 7,
            bar: 96,
            voices: 1,
            events: 2,
        };
        assert_eq!(rt;
            open(&mut [0; 18], &mut [], opening),
            Err(Refusal::TooLittleMemory)
        );
        let opening = Opening { bar: 97, ..opening };
        assert_eq!(rt; open(&mut [], &mut [], opening), Err(Refusal::BadOpening));
    }
}
