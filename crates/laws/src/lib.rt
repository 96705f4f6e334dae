//! Laws of what is heard, printed and read. Each function here has no body to speak of: its contract is a theorem about the definitions in `score`,
//! for every voice, score and call, and the proof that it cites stands in `proofs/`. Code crates cite the lemmas there.
#![tactic(auto)]

ghost use Rattle.score.specs.Promise.{ReadsBack, FromABar, BarsFull, SignsNeeded, Fewest, BarsStay, BarsAfter};
ghost use Rattle.laws.specs.Laying.{ComesTo, LiesOverBars};
ghost use Rattle.laws.specs.Onsets.{OnsetsStay, OnsetsAfter};
ghost use Rattle.laws.specs.Shown.{BarsHeard};
ghost use Rattle.score.specs.Promise.{TogetherInOrder, NothingLost, TurnedAway, Undone};

/// Who reads what is printed of a voice, in its key and with nothing else known, hears every note of the voice at its time, as long as it is and
/// at its tone, and nothing more.
#[tactic(auto, using(crate::proofs::Reading::reads_back))]
pub fn reads_back()
    ensures { ReadsBack }
{}

/// Who begins to read at a bar into which nothing is tied hears just what is heard from there on: with what the bars before bring, it is all.
#[tactic(auto, using(crate::proofs::FromBar::from_a_bar))]
pub fn from_a_bar()
    ensures { FromABar }
{}

/// Who reads some bars alone hears just what begins in them, with the time counted from the first of them, if nothing is tied into that bar nor
/// into the bar behind the last.
#[tactic(auto, using(crate::proofs::Shown::bars_heard))]
pub fn bars_heard()
    ensures { BarsHeard }
{}

/// What stands between two bar lines is as long as a bar, and what stands behind the last one is shorter.
#[tactic(auto, using(crate::proofs::Bars::bars_full))]
pub fn bars_full()
    ensures { BarsFull }
{}

/// Every sign that is printed is needed: without it something else would be heard.
#[tactic(auto, using(crate::proofs::Signs::signs_needed))]
pub fn signs_needed()
    ensures { SignsNeeded }
{}

/// A length is written in values that can be drawn and that come to it, and no row of values that comes to it is shorter.
pub fn fewest()
    ensures { Fewest }
{}

/// A length of 3 ticks or a multiple of that comes to what it was, in values that can be drawn.
#[tactic(auto, using(crate::proofs::Pieces::pieces_sum, crate::proofs::Pieces::pieces_are))]
pub fn comes_to()
    ensures { ComesTo }
{}

/// A length laid over bar lines, from any tick of a bar on, comes to what it was: a bar line stands where a bar is full, and there only, and all
/// else are values that can be drawn.
#[tactic(auto, using(crate::proofs::Laid::lies_over_bars, crate::proofs::Laid::span_chunks))]
pub fn lies_over_bars()
    ensures { LiesOverBars }
{}

/// Voices that begin with the same events are printed alike in all bars that these fill.
#[tactic(auto, using(crate::proofs::Staying::bars_stay))]
pub fn bars_stay()
    ensures { BarsStay }
{}

/// Voices that differ in a part that is as long in both are printed alike from the next bar line behind that part on.
#[tactic(auto, using(crate::proofs::Staying::bars_after))]
pub fn bars_after()
    ensures { BarsAfter }
{}

/// Where events begin on paper, and with which sign, depends on no event behind them.
#[tactic(auto, using(crate::proofs::Reaching::onsets_stay))]
pub fn onsets_stay()
    ensures { OnsetsStay }
{}

/// Where an event becomes another of the same length, all events from the next bar line on begin as they did, with the signs that they had.
#[tactic(auto, using(crate::proofs::Reaching::onsets_after))]
pub fn onsets_after()
    ensures { OnsetsAfter }
{}

/// What is heard of all voices together is in order of time, and of voices where times are the same.
#[tactic(auto, using(crate::proofs::Together::together_in_order))]
pub fn together_in_order()
    ensures { TogetherInOrder }
{}

/// Of what is heard together, that of one voice is what that voice alone brings in the span: nothing is lost, and nothing is added.
#[tactic(auto, using(crate::proofs::Together::nothing_lost))]
pub fn nothing_lost()
    ensures { NothingLost }
{}

/// After a call that is turned away, and after a question, every list of calls is answered as if it had not been made.
#[tactic(auto, using(crate::proofs::Turning::turned_away))]
pub fn turned_away()
    ensures { TurnedAway }
{}

/// After an event is put in and cut out again, every list of calls is answered as before.
#[tactic(auto, using(crate::proofs::Turning::undone))]
pub fn undone()
    ensures { Undone }
{}
