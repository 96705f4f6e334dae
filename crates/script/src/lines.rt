//! The lines of a text that say something.
ghost use Rattle.std.specs.Prelude.{◌≡◌, ◌<◌, [], ◌∷◌, ◌==◌, length, drop, Some, None, position};
ghost use Rattle.std.specs.Iterator.{YieldsFirstRef, item_count};
ghost use Rattle.script.specs.Lines.{line_end, all_lines, says, lines, lines_in};
ghost use Rattle.script.specs.Script.{with_rest, setting_in, opening_in, left_by_opening};

use score::Opening;
use text::{Unfit, read_setting};

/// Where the first line of a text ends, if a line end stands there.
fn line_end(text: &[u8]) -> Option<usize>
    ensures { result ≡ position (λ x. x == line_end) text.now }
{
    text.iter().position(|byte| *byte == b'\n')
}

/// The first line of a text, without its end, and what is behind it.
fn cut_line(text: &[u8]) -> (&[u8], &[u8])
    requires { 0 < length text.now }
    ensures cut { all_lines text.now ≡ result.0.now ∷ all_lines result.1.now }
    ensures less { length result.1.now < length text.now }
{
    match line_end(text) {
        Some(end) => (&text[..end], &text[end + 1..]),
        None => (text, &[]),
    }
}

/// Whether a line is neither empty nor a comment.
fn says_something(line: &[u8]) -> bool
    ensures { result ≡ says line.now }
{
    match line {
        [] | [b';', ..] => false,
        _ => true,
    }
}

/// The next line that says something, and what is behind it.
pub fn next_line(text: &[u8]) -> Option<(&[u8], &[u8])>
    ensures { elim result [ Some v ↦ (lines text.now ≡ v.0.now ∷ lines v.1.now) × (length v.1.now < length text.now) | None ↦ lines text.now ≡ [] ] }
{
    let mut rest = text;
    while !rest.is_empty() {
        let (line, more) = cut_line(rest);
        if says_something(line) {
            return Some((line, more));
        }
        rest = more;
    }
    None
}

/// The lines of a text that say something and have not been given yet, front to back.
#[derive(Clone, Copy, PartialEq, Eq, Debug)]
pub struct Lines<'a> {
    /// The text from the next line on.
    pub text: &'a [u8],
}

impl<'a> Lines<'a> {
    /// All of them.
    pub fn of(text: &'a [u8]) -> Lines<'a>
        ensures { lines_in result ≡ lines text.now }
    {
        Lines { text }
    }

    /// The setting of this name in the next line, which is taken; a line that is missing counts as an empty one.
    pub fn setting(&mut self, name: &str) -> Result<u32, Unfit>
        ensures said { with_rest result self.new ≡ setting_in name.now (lines_in self.old) }
        ensures taken { lines_in self.new ≡ drop 1 (lines_in self.old) }
    {
        read_setting(self.next().unwrap_or(&[]), name)
    }

    /// The opening that the next four lines say, which are taken. If one cannot be read, those behind it are left.
    pub fn opening(&mut self) -> Result<Opening, Unfit>
        ensures said { with_rest result self.new ≡ opening_in (lines_in self.old) }
        ensures left { lines_in self.new ≡ left_by_opening (lines_in self.old) }
    {
        Ok(Opening {
            key: self.setting("key")?,
            bar: self.setting("bar")?,
            voices: self.setting("voices")?,
            events: self.setting("events")?,
        })
    }
}

impl<'a> Iterator for Lines<'a> {
    type Item = &'a [u8];

    ghost next_gives = { YieldsFirstRef lines_in };

    ghost remaining = { item_count lines_in };

    fn next(&mut self) -> Option<&'a [u8]> {
        let Some((line, rest)) = next_line(self.text) else {
            // what stands behind the last line that says something is gone over only once
            self.text = &[];
            return None;
        };
        self.text = rest;
        Some(line)
    }
}
