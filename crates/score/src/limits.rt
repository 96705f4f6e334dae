//! The limits of the notation and of a score, said once for the code of all crates. Each is held to the definitions by the contracts that use it.

/// How many steps an octave has. A place is so many times the octave, and a step.
pub const STEPS: u8 = 7;

/// How many places there are. A slice that says what holds at each of them has so many words.
pub const PLACES: usize = 70;

/// The place that a silence has among the words of events, and no note.
pub const SILENT: u32 = 70;

/// How many alterations there are.
pub const ALTERATIONS: u32 = 5;

/// The first length that is too long for an event.
pub const LENGTH_END: u32 = 65536;

/// How long no voice may be, in ticks.
pub const TICKS_END: u32 = 1 << 24;

/// The shortest value: each bar and each length is a multiple of it.
pub const SHORTEST: u32 = 3;

/// The last key; the first is 0, with seven flats.
pub const LAST_KEY: u32 = 14;

/// The longest bar, in ticks.
pub const LONGEST_BAR: u32 = 768;

/// The most voices of a score.
pub const MOST_VOICES: u32 = 64;

/// The most events of a score, in all its voices.
pub const MOST_EVENTS: u32 = 65536;

/// The most bars that are shown at once.
pub const MOST_BARS: u32 = 16;

/// The widest span in which notes are heard, in ticks.
pub const WIDEST_SPAN: u32 = 1536;
