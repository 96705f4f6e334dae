//! The engraver for C: functions over lent words and bytes, each of which returns one signed number.
#![tactic(auto)]

ghost use Rattle.std.specs.Prelude.{◌≡◌, ◌<◌, true, false, length, Some, None, nat_le};
ghost use Rattle.score.specs.Music.{pick};
ghost use Rattle.score.specs.Meaning.{refusal_number, refusal_place};
ghost use Rattle.wire.specs.Reading.{said_of};
ghost use Rattle.session.specs.Session.{open_answer, words_taken, Ready, Opened, Unchanged};
ghost use Rattle.records.specs.Records.{said_next};
ghost use Rattle.capi.specs.Signed.{turned_away, if_done, signed, signed_by, opening_of, words_number, bytes_number, header_of, words_fit, taken_by, header_fits, Replied};
ghost use Rattle.capi.specs.Put.{ReadyWords, RecordsPut};

use records::put_records;
use score::{Answer, Refusal};
use session::{Opening, Sizes, call, open};
use wire::read_answer;

/// A refusal's number and place as one number below 0.
// Two numbers, and no `Refusal`: an answer in bytes tells a refusal by just these, and C is told one number.
fn below_zero(number: u8, place: u32) -> i64
    ensures { result ≡ turned_away number place }
{
    let sum = number as u64 * 4294967296 + place as u64;
    -(sum as i64)
}

/// The number of a refusal.
// No `From`: neither type is this crate's.
fn refuse(refusal: Refusal) -> i64
    ensures { result ≡ turned_away (refusal_number refusal) (refusal_place refusal) }
{
    below_zero(refusal.number(), refusal.place())
}

/// An opening with these numbers.
fn opening_of(key: u32, bar: u32, voices: u32, events: u32) -> Opening
    ensures { result ≡ opening_of key bar voices events }
{
    Opening {
        key,
        bar,
        voices,
        events,
    }
}

// Two exported names over `Sizes::of`: each returns one field of what is asked (C interface).

/// How many words an opening asks for, or a refusal.
#[unsafe(no_mangle)]
pub extern "C" fn engraver_words(key: u32, bar: u32, voices: u32, events: u32) -> i64
    ensures { result ≡ words_number (opening_of key bar voices events) }
{
    match Sizes::of(opening_of(key, bar, voices, events)) {
        Ok(sizes) => sizes.words as i64,
        Err(refusal) => refuse(refusal),
    }
}

/// How many bytes an opening asks for, or a refusal.
#[unsafe(no_mangle)]
pub extern "C" fn engraver_bytes(key: u32, bar: u32, voices: u32, events: u32) -> i64
    ensures { result ≡ bytes_number (opening_of key bar voices events) }
{
    match Sizes::of(opening_of(key, bar, voices, events)) {
        Ok(sizes) => sizes.bytes as i64,
        Err(refusal) => refuse(refusal),
    }
}

/// Opens a score without events in lent words and bytes: 0, or a refusal that changes nothing.
#[unsafe(no_mangle)]
pub extern "C" fn engraver_open(
    words: &mut [u32],
    bytes: &mut [u8],
    key: u32,
    bar: u32,
    voices: u32,
    events: u32,
) -> i64
    ensures says { result ≡ signed 0 (open_answer (opening_of key bar voices events) (length words.old) (length bytes.old)) }
    ensures left { if_done (open_answer (opening_of key bar voices events) (length words.old) (length bytes.old)) (Opened (opening_of key bar voices events) words.old bytes.old words.new bytes.new) (Unchanged words.old bytes.old words.new bytes.new) }
{
    match open(words, bytes, opening_of(key, bar, voices, events)) {
        Ok(()) => 0,
        Err(refusal) => refuse(refusal),
    }
}

/// What the header says that a score was opened with, if there is one.
fn header(words: &[u32]) -> Option<Opening>
    ensures { result ≡ pick (nat_le 4 (length words.now)) (Some (header_of words.now)) None }
{
    let [key, bar, voices, events, ..] = words else {
        return None;
    };
    Some(opening_of(*key, *bar, *voices, *events))
}

/// How much a score takes whose header words have, if it may be one and there are so many words.
fn taken(words: &[u32]) -> Option<Sizes>
    ensures { result ≡ taken_by words.now }
{
    let sizes = Sizes::of(header(words)?).ok()?;
    (sizes.words <= words.len()).then_some(sizes)
}

/// Whether memory has a header that a score may have, and room for such a score.
fn fits(words: &[u32], bytes: &[u8]) -> bool
    ensures { result ≡ header_fits words.now bytes.now }
{
    taken(words).is_some_and(|sizes| sizes.bytes <= bytes.len())
}

/// The number of an answer that stands so long at the front of bytes.
fn number_of(bytes: &[u8], long: usize) -> i64
    requires { long < 4294967296 }
    ensures { result ≡ signed_by long (said_of bytes.now) }
{
    match read_answer(bytes) {
        Some(Answer::Refused { number, place }) => below_zero(number, place),
        _ => long as i64,
    }
}

/// Answers a call in memory that holds a score.
fn reply(words: &mut [u32], bytes: &mut [u8], input: &[u8]) -> i64
    requires { Ready words.old bytes.old }
    ensures { Replied words.old bytes.old input.now words.new bytes.new result }
{
    let long = call(words, bytes, input);
    number_of(bytes, long)
}

/// Answers a call in bytes over the front of the lent bytes: how long the answer is, or its refusal. Memory whose header cannot be that of a score which
/// has room there is refused and stays as it was. Of memory whose header can be, it is asked that a score lies there, as opening and each call leave it.
#[unsafe(no_mangle)]
pub extern "C" fn engraver_call(words: &mut [u32], bytes: &mut [u8], input: &[u8]) -> i64
    requires { header_fits words.old bytes.old ≡ true → Ready words.old bytes.old }
    ensures replied { header_fits words.old bytes.old ≡ true → Replied words.old bytes.old input.now words.new bytes.new result }
    ensures refused { header_fits words.old bytes.old ≡ false → (result ≡ turned_away 3 0) × Unchanged words.old bytes.old words.new bytes.new }
{
    if !fits(words, bytes) {
        return refuse(Refusal::TooLittleMemory);
    }
    reply(words, bytes, input)
}

/// The number of what turned a record away, or 0.
fn number_of_next(refusal: Option<Refusal>) -> i64
    ensures { result ≡ signed 0 (said_next refusal) }
{
    refusal.map_or(0, |refusal| refuse(refusal))
}

/// Puts records into the words that a score takes, of those that are lent.
fn enter(words: &mut [u32], taken: usize, records: &[u32], refusal: &mut i64) -> i64
    requires ready { ReadyWords words.old }
    requires part { taken ≡ words_taken words.old }
    ensures { RecordsPut words.old records.now words.new refusal.new result }
{
    let entered = put_records(&mut words[0..taken], records);
    *refusal = number_of_next(entered.refusal);
    entered.count as i64
}

/// Puts events last in their voices, one after the other, until one cannot be, and returns how many were put. The next one's refusal, or 0, goes to
/// `refusal`. An event is four numbers: its voice, its place or 70 for a silence, its alteration, which is not read of a silence, and its length. Memory whose
/// header cannot be that of a score which has room there is refused and stays as it was; of other memory it is asked what `engraver_call` asks.
#[unsafe(no_mangle)]
pub extern "C" fn engraver_put_records(words: &mut [u32], records: &[u32], refusal: &mut i64) -> i64
    requires { words_fit words.old ≡ true → ReadyWords words.old }
    ensures entered { words_fit words.old ≡ true → RecordsPut words.old records.now words.new refusal.new result }
    ensures refused { words_fit words.old ≡ false → (result ≡ turned_away 3 0) × (words.new ≡ words.old) × (refusal.new ≡ refusal.old) }
{
    match taken(words) {
        Some(sizes) => enter(words, sizes.words, records, refusal),
        None => refuse(Refusal::TooLittleMemory),
    }
}
