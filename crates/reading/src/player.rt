//! What a player keeps.
ghost use Rattle.std.specs.Prelude.{◌≤◌};
ghost use Rattle.reading.specs.Keeps.{long_of};

/// A note that is held by a tie: its place and alteration, when it began, and how long it is by now.
#[derive(Clone, Copy, PartialEq, Eq, Debug)]
pub struct Held {
    pub place: u8,
    pub alteration: u32,
    pub since: u64,
    pub long: u64,
}

/// A player: the time, and the note that is held, if there is one, which is no longer than that. What holds at each place in the bar lies beside it,
/// since it is written in place while symbols are read.
#[derive(Clone, Copy, PartialEq, Eq, Debug)]
pub struct Player {
    pub time: u64,
    pub held: Option<Held>,
    ghost within: { long_of held ≤ time },
}
