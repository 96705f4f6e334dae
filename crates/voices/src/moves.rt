//! One word into a region of the lent words, or out of it.
ghost use Rattle.std.specs.Prelude.{◌≡◌, ◌<◌, ◌≤◌, length};
ghost use Rattle.memory.specs.Moves.{shifted, closed};

/// A word comes in at a place, and what stood from there up to an end goes one on, over what stood at the end.
pub fn insert_at(words: &mut [u32], at: usize, end: usize, word: u32)
    requires range { at ≤ end }
    requires within { end < length words.old }
    ensures { words.new ≡ shifted words.old at end word }
{
    words.copy_within(at..end, at + 1);
    words[at] = word;
}

/// What stood at a place goes out, what stood behind it up to an end comes one back, and 0 comes in before the end.
pub fn remove_at(words: &mut [u32], at: usize, end: usize)
    requires range { at < end }
    requires within { end ≤ length words.old }
    ensures { words.new ≡ closed words.old at end }
{
    words.copy_within(at + 1..end, at);
    words[end - 1] = 0;
}
