//! A length in values, and how much of it lies in a bar: what the engraving of an event stands on.
#![tactic(auto)]

ghost use Rattle.std.specs.Prelude.{◌≡◌, ◌+◌, ◌/◌, ◌≤◌, ◌++◌, length, drop};
ghost use Rattle.std.specs.Iterator.{YieldsFirst, item_count};
ghost use Rattle.lengths.specs.Drawn.{Largest, InBar};
ghost use Rattle.score.specs.Print.{pieces as pieces_of};

use score::SHORTEST;

/// The values that can be drawn, in ticks: from the whole note down to the sixty-fourth, plain or with a dot.
pub const VALUES: [u32; 12] = [192, 144, 96, 72, 48, 36, 24, 18, 12, 9, 6, 3];

/// A whole note, in ticks: the largest value there is.
const WHOLE: u32 = 192;

/// The largest value that is not longer than so many of the shortest, up to a whole note: where none fits, and then of each kind of note, without a dot and
/// with one.
const LARGEST: [u32; 65] = [
    0, // none
    3, // a sixty-fourth
    6, 9, // a thirty-second, and with a dot
    12, 12, 18, 18, // a sixteenth
    24, 24, 24, 24, 36, 36, 36, 36, // an eighth
    48, 48, 48, 48, 48, 48, 48, 48, 72, 72, 72, 72, 72, 72, 72, 72, // a quarter
    96, 96, 96, 96, 96, 96, 96, 96, 96, 96, 96, 96, 96, 96, 96, 96, // a half
    144, 144, 144, 144, 144, 144, 144, 144, 144, 144, 144, 144, 144, 144, 144, 144, // a half with a dot
    192, // a whole
];

/// The largest value that is not longer than `n`, or 0 where there is none.
pub fn largest(n: u32) -> u32
    ensures { Largest n result }
{
    LARGEST[(n.min(WHOLE) / SHORTEST) as usize]
}

/// How much of what is left of an event lies in a bar of `measure` ticks, of which `begun` are gone.
pub fn part_in_bar(left: u32, measure: u32, begun: u32) -> u32
    requires { begun ≤ measure }
    ensures { InBar left measure begun result }
{
    left.min(measure - begun)
}

/// The values of a length within one bar, the largest first.
#[derive(Clone, Copy, PartialEq, Eq, Debug)]
pub struct ValuesOf(pub u32);

impl Iterator for ValuesOf {
    type Item = u32;

    ghost next_gives = { YieldsFirst (λ s. pieces_of s.0 s.0) };

    ghost remaining = { item_count (λ s. pieces_of s.0 s.0) };

    #[tactic(auto, using(crate::proofs::Drawing::next_value, laws::proofs::Pieces::pieces_none))]
    fn next(&mut self) -> Option<u32> {
        if self.0 < SHORTEST {
            return None;
        }
        let value = largest(self.0);
        self.0 -= value;
        Some(value)
    }
}

/// Writes a length within one bar as values, the largest first, over the front of `out`, and returns how many they are. Three values are enough for
/// what is shorter than a whole note.
// Into lent words, and how many were written is handed back: there is no heap here (a rule of the project).
pub fn pieces(n: u32, out: &mut [u32]) -> usize
    requires { n / 192 + 3 ≤ length out.old }
    ensures wrote { out.new ≡ pieces_of n n ++ drop result out.old }
    ensures many { result ≡ length (pieces_of n n) }
    ensures few { result ≤ n / 192 + 3 }
{
    // counted as they are written: of a zip with `out.iter_mut()` the loop's invariant knows the words that are left and not `out` (tried)
    let mut at = 0;
    for value in ValuesOf(n) {
        out[at] = value;
        at += 1;
    }
    at
}

#[cfg(test)]
mod tests {
    use super::*;

    // Each length of up to four whole notes has as few values as the best row of values, which is found here by way of all shorter lengths.
    #[test]
    fn as_few_as_the_best_row(rt: HostRuntime) {
        let mut best = [0usize; 257];
        for third in 1..257 {
            let mut least = usize::MAX;
            for v in VALUES {
                let step = (v / 3) as usize;
                if step <= third {
                    least = least.min(best[third - step].saturating_add(1));
                }
            }
            best[third] = least;
            let mut values = [0; 7];
            assert_eq!(rt; pieces(3 * third as u32, &mut values), least);
        }
    }
}
