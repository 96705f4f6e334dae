//! Scores: the definitions of what is heard, printed and read stand in `specs/`, and here are the types that the code of all crates shares. What a
//! type means by those definitions is said in `specs/Meaning.antt`.
#![tactic(auto)]

ghost use Rattle.std.specs.Prelude.{◌≡◌, ◌*◌};
ghost use Rattle.score.specs.Examples.{WorkedExamples};
ghost use Rattle.score.specs.declared.Answer.TheVariants.{Refused};
ghost use Rattle.score.specs.Meaning.{refusal_number, refusal_place, good_layout};

mod limits;
mod spelled;

pub use limits::{
    ALTERATIONS, LAST_KEY, LENGTH_END, LONGEST_BAR, MOST_BARS, MOST_EVENTS, MOST_VOICES, PLACES,
    SHORTEST, SILENT, STEPS, TICKS_END, WIDEST_SPAN,
};

/// One of the events that a voice is a row of.
// Places, alterations and signs are numbers in the cases of events and symbols (a rule of the project): they go to words and bytes as they stand, also out of range.
#[derive(Clone, Copy, PartialEq, Eq, Debug)]
pub enum Event {
    /// A place is 7 times the octave and a step from c, 0, to b, 6; an alteration is 0 to 4, from double flat over none, 2, to double sharp.
    Note {
        place: u8,
        alteration: u8,
        length: u16,
    },
    Silence {
        length: u16,
    },
}

/// One symbol of what is printed of a voice.
#[derive(Clone, Copy, PartialEq, Eq, Debug)]
pub enum Symbol {
    BarLine,
    /// A sign is 0 for none, or one more than the alteration.
    Head {
        place: u8,
        sign: u8,
        value: u16,
        tied: bool,
    },
    Rest {
        value: u16,
    },
}

/// A note as it is heard.
#[derive(Clone, Copy, PartialEq, Eq, Debug)]
pub struct Sound {
    pub voice: u8,
    pub start: u32,
    pub length: u16,
    pub tone: u8,
}

/// What is done with a score, and what is asked of it.
// A voice, an index and an event are no struct of their own: who reads a call would gain a little by it, but who writes one (`wire::write_placed`) and who does one
// (`StoredMut::put`, `change`) take the three one by one, and so do the definitions (`put v i e` in `specs/Calls.antt`): on the whole no plainer.
#[derive(Clone, Copy, PartialEq, Eq, Debug)]
pub enum Call {
    /// An event comes into a voice before its event of that index, or last.
    Put {
        voice: u32,
        index: u32,
        event: Event,
    },
    Cut {
        voice: u32,
        index: u32,
    },
    /// The event of that index becomes another.
    Change {
        voice: u32,
        index: u32,
        event: Event,
    },
    /// What is printed of a voice from a bar on, so many bars.
    Show {
        voice: u32,
        bar: u32,
        count: u32,
    },
    /// The notes of all voices that begin from a tick up to before another.
    HeardIn {
        from: u32,
        to: u32,
    },
    HowLong {
        voice: u32,
    },
}

/// Why a call, or an opening, is turned away. Each case has a number and a place.
#[derive(Clone, Copy, PartialEq, Eq, Debug)]
pub enum Refusal {
    /// No call can be read; the first byte that does not fit.
    Unreadable(u32),
    /// A place, an alteration, a length, a count of bars or a span is out of range.
    OutOfRange,
    /// A key, a bar's length or a limit that no score can be opened with.
    BadOpening,
    /// Less memory than the limits ask for.
    TooLittleMemory,
    /// A voice that is not there.
    NoVoice(u32),
    /// An event that is not there.
    NoEvent(u32),
    /// There would be more events than the limit, or a voice would be too long.
    Full,
}

/// The key that a voice is printed in, and how many ticks a bar has.
#[derive(Clone, Copy, PartialEq, Eq, Debug)]
pub struct Layout {
    pub key: u32,
    pub bar: u32,
}

/// What a score is opened with: its key, a bar's length in ticks, how many voices it has, and how many events there may be in all.
// Key and bar lie bare: C and a text give the four numbers, and a score's header has them, one after the other.
#[derive(Clone, Copy, PartialEq, Eq, Debug)]
pub struct Opening {
    pub key: u32,
    pub bar: u32,
    pub voices: u32,
    pub events: u32,
}

/// What is answered to a call. Of symbols and of sounds it says how many follow. A refusal is told by its number and place, whatever bytes say they are.
#[derive(Clone, Copy, PartialEq, Eq, Debug)]
pub enum Answer {
    Done,
    Refused { number: u8, place: u32 },
    Symbols { count: u32 },
    Sounds { count: u32 },
    Number { number: u32 },
}

impl Refusal {
    /// The number under which a refusal stands in the list of refusals.
    pub fn number(self) -> u8
        ensures { result ≡ refusal_number self }
    {
        match self {
            Refusal::Unreadable(_) => 1,
            Refusal::OutOfRange => 2,
            Refusal::BadOpening | Refusal::TooLittleMemory => 3,
            Refusal::NoVoice(_) => 4,
            Refusal::NoEvent(_) => 5,
            Refusal::Full => 6,
        }
    }

    /// Where the fault lies: a byte, a voice or an event, by its number.
    pub fn place(self) -> u32
        ensures { result ≡ refusal_place self }
    {
        match self {
            Refusal::Unreadable(place) => place,
            Refusal::BadOpening => 1,
            Refusal::NoVoice(voice) => voice,
            Refusal::NoEvent(index) => index,
            Refusal::OutOfRange | Refusal::TooLittleMemory | Refusal::Full => 0,
        }
    }
}

impl Layout {
    /// Whether a score may be laid out so.
    pub fn is_good(self) -> bool
        ensures { result ≡ good_layout self }
    {
        self.key <= LAST_KEY && self.bar > 0 && self.bar <= LONGEST_BAR && self.bar % SHORTEST == 0
    }
}

impl Opening {
    /// How a score that is opened so is laid out.
    pub fn layout(self) -> Layout
        ensures { result ≡ record { key = self.key; bar = self.bar } }
    {
        Layout {
            key: self.key,
            bar: self.bar,
        }
    }
}

/// A refusal is answered by its number and place.
impl From<Refusal> for Answer {
    ghost from_gives = { λ r a. a ≡ Refused (refusal_number r) (refusal_place r) };

    fn from(refusal: Refusal) -> Answer {
        Answer::Refused {
            number: refusal.number(),
            place: refusal.place(),
        }
    }
}

/// The ticks of a row of whole notes.
pub fn ticks(wholes: u32) -> u64
    ensures { result ≡ 192 * wholes }
{
    192 * (wholes as u64)
}

/// The worked examples hold of the definitions.
pub fn examples_hold()
    ensures { WorkedExamples }
{}
