//! A voice that can be printed, and one with what is kept of it.
ghost use Rattle.rows.specs.Rows.{voice_in};
ghost use Rattle.engraving.specs.Kept.{Keeps};
ghost use Rattle.engraving.specs.Voice.{Ready};

use rows::{Onsets, Rows};
use score::Layout;

/// A voice in rows of words, and how it is laid out: the rows are as long as each other, their events can be written, and so can bars.
#[derive(Clone, Copy, PartialEq, Eq, Debug)]
pub struct Voice<'a> {
    pub rows: Rows<'a>,
    pub layout: Layout,
    ghost ready: { Ready rows layout },
}

/// A voice, and where its events begin on paper as it is laid out.
#[derive(Clone, Copy, PartialEq, Eq, Debug)]
pub struct KeptVoice<'a> {
    pub voice: Voice<'a>,
    pub onsets: Onsets<'a>,
    ghost keeps: { Keeps onsets voice.layout (voice_in voice.rows) },
}
