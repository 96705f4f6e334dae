//! What is heard of one voice, note by note.
ghost use Rattle.std.specs.Prelude.{◌≡◌, ◌≤◌, ◌<◌, length, MatchOption};
ghost use Rattle.std.specs.Iterator.{at_most};
ghost use Rattle.score.specs.Music.{heard as heard_from};
ghost use Rattle.score.specs.Calls.{voice as voice_in};
ghost use Rattle.memory.specs.Store.{voices_in, score_of};
ghost use Rattle.sounds.specs.Single.{rows_yet, Playable, heard_yet, Steps, NotesHeard};

use super::sound_of;
use rows::Rows;
use score::Sound;
use voices::Stored;

/// The notes of one voice as they are heard, one after the other.
#[derive(Clone, Copy, PartialEq, Eq, Debug)]
pub struct Notes<'a> {
    voice: u8,
    /// The events that come yet, and when the first of them begins.
    rows: Rows<'a>,
    tick: u32,
}

impl Iterator for Notes<'_> {
    type Item = Sound;

    ghost can_next = { Playable };

    ghost next_gives = { Steps };

    ghost remaining = { λ s. at_most (length (rows_yet s)) };

    fn next(&mut self) -> Option<Sound> {
        while let Some(row) = self.rows.next() {
            let start = self.tick;
            self.tick += row.length;
            if !row.is_silent() {
                return Some(sound_of(row, self.voice, start));
            }
        }
        None
    }
}

/// The notes of a voice, if the voice is there.
pub fn heard(score: Stored<'_>, voice: u32) -> Option<Notes<'_>>
    ensures { MatchOption result (voices_in score.entry.words.now ≤ voice) (λ n. Playable n × (n.voice ≡ voice) × (voice < voices_in score.entry.words.now) × (heard_yet n ≡ heard_from (voice_in (score_of score.entry.words.now) voice) 0)) }
{
    let span = score.find_voice(voice)?;
    let rows = score.rows(span);
    Some(Notes {
        voice: voice as u8,
        rows,
        tick: 0,
    })
}

/// The notes that come until none comes are all that is heard of the voice.
pub fn notes_heard()
    ensures { NotesHeard }
{}
