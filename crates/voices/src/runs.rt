//! The marked events, as many together as one word has bits for.
ghost use Rattle.std.specs.Prelude.{◌≡◌, ℕ, ◌*◌, ◌/◌, ◌+◌, ◌^◌, ◌<◌, ◌≤◌, min, length};
ghost use Rattle.marks.specs.Marked.{InReach, marked};

/// A word has a bit for each of so many events.
const BITS: usize = 32;

/// Takes the marks of the events from one on that have them in the same word, and returns the event behind them. No event before is marked.
pub(crate) fn take_run(marks: &mut [u32], at: usize) -> usize
    requires reach { InReach marks.old at }
    requires small { at < 2 ^ 32 }
    ensures run { (last : ℕ) → at ≤ last → marks.old ≡ marked at last (length marks.old) → result ≡ min last (32 * (at / 32 + 1)) }
    ensures rest { (last : ℕ) → at ≤ last → marks.old ≡ marked at last (length marks.old) → marks.new ≡ marked result last (length marks.old) }
{
    let word = at / BITS;
    let run = (marks[word] >> (at % BITS)).trailing_ones();
    marks[word] = 0;
    at + run as usize
}
