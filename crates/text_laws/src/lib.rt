//! Text loses nothing: what is spelled is read back as it was. Each theorem is pinned by a function whose contract is the statement.
#![tactic(auto)]

ghost use Rattle.text_laws.specs.Back.{NumbersBack, EventsBack, SymbolsBack, SoundsBack};

/// A number is read back from its digits.
#[tactic(auto, using(crate::proofs::Numbers::numbers_back))]
pub fn numbers_back()
    ensures { NumbersBack }
{}

/// Every event that can be written is read back from its line.
#[tactic(auto, using(crate::proofs::Events::events_back))]
pub fn events_back()
    ensures { EventsBack }
{}

/// Every symbol that can be printed is read back from its text.
#[tactic(auto, using(crate::proofs::Symbols::symbols_back))]
pub fn symbols_back()
    ensures { SymbolsBack }
{}

/// Every note as it is heard is read back from its text.
#[tactic(auto, using(crate::proofs::Sounds::sounds_back))]
pub fn sounds_back()
    ensures { SoundsBack }
{}
