//! A set of events in lent words, a bit for each: that of event i is bit i % 32 of word i / 32.
//!
//! A range of events is marked, and then they are taken one by one from the front, until all words are 0 again.
#![tactic(auto)]

ghost use Rattle.std.specs.Prelude.{◌≡◌, ◌-◌, ◌/◌, ◌%◌, ◌^◌, ◌≤◌, true, length, replicate};
ghost use Rattle.marks.specs.Marked.{InReach, has, low, marked, unmarked};

/// A word has a bit for each of so many events.
const BITS: usize = 32;

/// A word in which just the bits for events before one are set.
fn bits_below(at: usize, word: usize) -> u32
    ensures { result ≡ 2 ^ low at word - 1 }
{
    if word < at / BITS {
        u32::MAX
    } else if word == at / BITS {
        (1 << (at % BITS)) - 1
    } else {
        0
    }
}

/// Marks the events of a range, where none is marked yet. Only the words from the first event's up to the end's are touched.
pub fn mark(marks: &mut [u32], from: usize, to: usize)
    requires empty { marks.old ≡ replicate (length marks.old) 0 }
    requires range { from ≤ to }
    requires reach { InReach marks.old to }
    ensures { marks.new ≡ marked from to (length marks.old) }
{
    let first = from / BITS;
    for (i, bits) in marks[first..to / BITS + 1].iter_mut().enumerate() {
        *bits = bits_below(to, first + i) - bits_below(from, first + i);
    }
}

/// Is this event marked?
pub fn is_marked(marks: &[u32], at: usize) -> bool
    requires { InReach marks.now at }
    ensures { result ≡ has marks.now at }
{
    marks[at / BITS] >> (at % BITS) & 1 == 1
}

/// Takes the mark of an event away, which has one.
pub fn unmark(marks: &mut [u32], at: usize)
    requires reach { InReach marks.old at }
    requires marked { has marks.old at ≡ true }
    ensures { marks.new ≡ unmarked marks.old at }
{
    marks[at / BITS] ^= 1 << (at % BITS);
}

#[cfg(test)]
mod tests {
    use super::*;

    // A range over three words, of which the first two events are taken.
    #[test]
    fn taken_from_the_front(rt: HostRuntime) {
        let mut marks = [0; 4];
        mark(&mut marks, 30, 67);
        assert_eq!(rt; marks, [0xc000_0000, 0xffff_ffff, 7, 0]);
        assert!(rt; !is_marked(&marks, 29));
        assert!(rt; is_marked(&marks, 30));
        unmark(&mut marks, 30);
        assert!(rt; is_marked(&marks, 31));
        unmark(&mut marks, 31);
        assert_eq!(rt; marks, [0, 0xffff_ffff, 7, 0]);
        assert!(rt; is_marked(&marks, 66));
        assert!(rt; !is_marked(&marks, 67));
    }
}
