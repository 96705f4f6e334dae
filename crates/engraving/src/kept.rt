//! Where printing begins, found among what is kept of a voice.
ghost use Rattle.std.specs.Prelude.{ℕ, ◌<◌, ◌≤◌, length, slice_index};
ghost use Rattle.engraving.specs.Kept.{NeverFalls, Before, Begins};

use crate::voice::KeptVoice;

/// Where printing begins: with which event, and how many ticks are passed over from there on.
#[derive(Clone, Copy, PartialEq, Eq, Debug)]
pub struct Begin {
    pub event: usize,
    pub skip: u64,
}

/// How many events begin before bar `bar`, by the bars in which they begin.
fn events_before(bars: &[u32], bar: u32) -> usize
    requires { NeverFalls bars.now }
    ensures { Before bars.now bar result }
{
    bars.partition_point(|begun| *begun < bar)
}

impl KeptVoice<'_> {
    /// Where printing from bar `from` on begins: with the last event that begins before it, which may reach into that bar.
    pub(crate) fn begin(self, from: u32) -> Begin
        ensures { Begins self.entry.voice.rows self.entry.onsets.signs.now self.entry.voice.layout from result }
    {
        let bar = self.voice.layout.bar as u64;
        let first = from as u64 * bar;
        let before = events_before(self.onsets.bars, from);
        if before == 0 {
            return Begin {
                event: 0,
                skip: first,
            };
        }
        let event = before - 1;
        let begun = self.onsets.bars[event] as u64 * bar + self.onsets.ticks[event] as u64;
        Begin {
            event,
            skip: first - begun,
        }
    }
}
