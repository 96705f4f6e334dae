//! Calls: how one is written, and which one bytes are.
ghost use Rattle.std.specs.Prelude.{◌≡◌, ◌+◌, ◌≤◌, OnOk, ◌∷◌, ◌++◌, length, drop, slice_index};
ghost use Rattle.score.specs.Meaning.{event_meant, call_meant};
ghost use Rattle.wire.specs.Bytes.{four, event_bytes, call_bytes};
ghost use Rattle.wire.specs.ReadingCalls.{read_as, read_call, fields, fields_and_event, four_at, field_at, event_at, end_at};

use super::{write_fields, write_row};
use score::{Call, Event, Refusal};

// The first byte of a call says its kind:
const PUT: u8 = 0;

const CUT: u8 = 1;

const CHANGE: u8 = 2;

const SHOW: u8 = 3;

const HEARD_IN: u8 = 4;

const HOW_LONG: u8 = 5;

// The first byte of an event says its kind:
const NOTE: u8 = 0;

const SILENCE: u8 = 1;

/// How many bytes the longest call takes: its kind, two fields and an event.
pub const LONGEST_CALL: usize = 14;

/// Writes a call, and returns how many bytes that is.
#[tactic(auto, unfolding(crate::specs::Bytes::each))]
pub fn write_call(out: &mut [u8], call: Call) -> usize
    requires { LONGEST_CALL ≤ length out.old }
    ensures wrote { out.new ≡ call_bytes (call_meant call) ++ drop result out.old }
    ensures many { result ≡ length (call_bytes (call_meant call)) }
{
    match call {
        Call::Put {
            voice,
            index,
            event,
        } => write_placed(out, PUT, voice, index, event),
        Call::Cut { voice, index } => write_fields(out, CUT, &[voice, index]),
        Call::Change {
            voice,
            index,
            event,
        } => write_placed(out, CHANGE, voice, index, event),
        Call::Show { voice, bar, count } => write_fields(out, SHOW, &[voice, bar, count]),
        Call::HeardIn { from, to } => write_fields(out, HEARD_IN, &[from, to]),
        Call::HowLong { voice } => write_fields(out, HOW_LONG, &[voice]),
    }
}

/// Writes a call's number, two fields and an event.
#[tactic(auto, unfolding(crate::specs::Bytes::each))]
fn write_placed(out: &mut [u8], number: u8, voice: u32, index: u32, event: Event) -> usize
    requires { LONGEST_CALL ≤ length out.old }
    ensures wrote { out.new ≡ (number ∷ (four voice ++ (four index ++ event_bytes (event_meant event)))) ++ drop result out.old }
    ensures many { result ≡ LONGEST_CALL }
{
    let at = write_fields(out, number, &[voice, index]);
    at + write_event(&mut out[at..], event)
}

/// Writes an event over the first five bytes.
fn write_event(out: &mut [u8], event: Event) -> usize
    requires { 5 ≤ length out.old }
    ensures wrote { out.new ≡ event_bytes (event_meant event) ++ drop result out.old }
    ensures many { result ≡ 5 }
{
    let row = match event {
        Event::Note {
            place,
            alteration,
            length,
        } => {
            let [low, high] = length.to_le_bytes();
            [NOTE, place, alteration, low, high]
        }
        Event::Silence { length } => {
            let [low, high] = length.to_le_bytes();
            [SILENCE, 0, 0, low, high]
        }
    };
    write_row(out, &row)
}

/// The call that bytes are, or the refusal whose place is the first byte that no call could have there, or their length where they end too early.
pub fn read_call(bytes: &[u8]) -> Result<Call, Refusal>
    ensures { read_as call_meant result ≡ read_call bytes.now }
{
    let [number, fields @ ..] = bytes else {
        return Err(Refusal::Unreadable(0));
    };
    // An enum of kinds of call would need this match, from a byte, and another to what is read by it. Arrays are taken apart by `let`: what a closure makes
    // of an array's pattern has no value in the goal (tried).
    match *number {
        PUT => fields_and_event(fields).map(|(voice, index, event)| Call::Put {
            voice,
            index,
            event,
        }),
        CUT => {
            let [voice, index] = read_fields::<2>(fields)?;
            Ok(Call::Cut { voice, index })
        }
        CHANGE => fields_and_event(fields).map(|(voice, index, event)| Call::Change {
            voice,
            index,
            event,
        }),
        SHOW => {
            let [voice, bar, count] = read_fields::<3>(fields)?;
            Ok(Call::Show { voice, bar, count })
        }
        HEARD_IN => {
            let [from, to] = read_fields::<2>(fields)?;
            Ok(Call::HeardIn { from, to })
        }
        HOW_LONG => {
            let [voice] = read_fields::<1>(fields)?;
            Ok(Call::HowLong { voice })
        }
        _ => Err(Refusal::Unreadable(0)),
    }
}

/// So many fields, and nothing more.
fn read_fields<const N: usize>(bytes: &[u8]) -> Result<[u32; N], Refusal>
    requires { N ≤ 3 }
    ensures { read_as (λ x. x) result ≡ fields N bytes.now }
{
    let mut unread = Unread { bytes, place: 1 };
    let mut fields = [0; N];
    for field in fields.iter_mut() {
        *field = unread.field()?;
    }
    unread.end()?;
    Ok(fields)
}

/// Two fields and an event, and nothing more.
fn fields_and_event(bytes: &[u8]) -> Result<(u32, u32, Event), Refusal>
    ensures { read_as (λ x. (x.0, x.1, event_meant x.2)) result ≡ fields_and_event bytes.now }
{
    let mut unread = Unread { bytes, place: 1 };
    let voice = unread.field()?;
    let index = unread.field()?;
    let event = unread.event()?;
    unread.end()?;
    Ok((voice, index, event))
}

/// What is left to read of a call, and the place where it begins.
#[derive(Drop)]
struct Unread<'a> {
    bytes: &'a [u8],
    place: u32,
}

impl Unread<'_> {
    /// A number in four bytes.
    fn field(&mut self) -> Result<u32, Refusal>
        requires { self.old.place ≤ 10 }
        ensures read { read_as (λ x. (x, self.new.bytes.now)) result ≡ field_at self.old.place self.old.bytes.now }
        ensures next { OnOk result (self.new.place ≡ self.old.place + 4) }
    {
        Ok(u32::from_le_bytes(self.four()?))
    }

    /// An event; of a silence two bytes are not looked at.
    fn event(&mut self) -> Result<Event, Refusal>
        requires { self.old.place ≤ 9 }
        ensures read { read_as (λ x. (event_meant x, self.new.bytes.now)) result ≡ event_at self.old.place self.old.bytes.now }
        ensures next { OnOk result (self.new.place ≡ self.old.place + 5) }
    {
        let [kind @ (NOTE | SILENCE), fields @ ..] = self.bytes else {
            return Err(Refusal::Unreadable(self.place));
        };
        self.bytes = fields;
        self.place += 1;
        let [degree, alteration, low, high] = self.four()?;
        let length = u16::from_le_bytes([low, high]);
        // an enum of the two kinds would be no plainer: both are read alike up to here
        Ok(if *kind == NOTE {
            Event::Note {
                place: degree,
                alteration,
                length,
            }
        } else {
            Event::Silence { length }
        })
    }

    /// The next four bytes.
    fn four(&mut self) -> Result<[u8; 4], Refusal>
        requires { self.old.place ≤ 10 }
        ensures read { read_as (λ x. (slice_index x 0, slice_index x 1, slice_index x 2, slice_index x 3, self.new.bytes.now)) result ≡ four_at self.old.place self.old.bytes.now }
        ensures next { OnOk result (self.new.place ≡ self.old.place + 4) }
    {
        let Some((four, rest)) = self.bytes.split_first_chunk() else {
            return Err(Refusal::Unreadable(self.place + self.bytes.len() as u32));
        };
        self.bytes = rest;
        self.place += 4;
        Ok(*four)
    }

    /// Nothing more.
    fn end(&self) -> Result<(), Refusal>
        ensures { read_as (λ x. x) result ≡ end_at self.now.place self.now.bytes.now tt }
    {
        let [] = self.bytes else {
            return Err(Refusal::Unreadable(self.place));
        };
        Ok(())
    }
}
