//! A score in lent words and bytes. What the words and bytes are stands in `specs/`; here are the theorems about them, each pinned by a function
//! whose contract is the statement.
#![tactic(auto)]

ghost use Rattle.memory.specs.Owed.{ScoreBack, WordsFit, WordsCounted, OthersUnreached, AnswersFit, AnswersShort, EngraverRight, EngraverKeeps, EngraverEnough};

/// A score is read back from the words that it is stored as.
#[tactic(auto, using(crate::proofs::Back::score_back))]
pub fn score_reads_back()
    ensures { ScoreBack }
{}

/// Each word that a score is stored as is below 2^32.
#[tactic(auto, using(crate::proofs::Stored::words_fit))]
pub fn words_fit()
    ensures { WordsFit }
{}

/// A score is stored in as many words as are asked for.
#[tactic(auto, using(crate::proofs::Stored::words_counted))]
pub fn words_counted()
    ensures { WordsCounted }
{}

/// What is kept of a voice is not reached by a change of another.
#[tactic(auto, using(crate::proofs::Changes::others_unreached))]
pub fn others_unreached()
    ensures { OthersUnreached }
{}

/// Every answer that a score can give fits its fields.
#[tactic(auto, using(crate::proofs::Fields::answers_fit))]
pub fn answers_fit()
    ensures { AnswersFit }
{}

/// And it fits the bytes that are asked for.
#[tactic(auto, using(crate::proofs::Fields::answers_short))]
pub fn answers_short()
    ensures { AnswersShort }
{}

/// The engraver of each stage is right: for every list of calls its answers are those of the score as the calls left it.
#[tactic(auto, using(crate::proofs::Run::right))]
pub fn engraver_right()
    ensures { EngraverRight }
{}

/// A call that the engraver of a stage turns away leaves the words as they were.
#[tactic(auto, using(crate::proofs::Run::keeps))]
pub fn engraver_keeps()
    ensures { EngraverKeeps }
{}

/// The memory that is asked for at opening is enough for ever.
#[tactic(auto, using(crate::proofs::Enough::enough))]
pub fn memory_enough()
    ensures { EngraverEnough }
{}
