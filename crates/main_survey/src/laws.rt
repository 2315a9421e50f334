ghost use Rattle.main_survey.specs.Laws.{OneOutcome, ReadAgain};

/// A main header comes to one thing, given its bytes and the room of the tables.
#[tactic(auto, using(crate::proofs::Verdicts::one_outcome))]
pub fn one_outcome()
    ensures { OneOutcome }
{}

/// The segments of an accepted main header stand there whenever they are read again, up to the same SOT, and none of them is refused.
#[tactic(auto, using(crate::proofs::Verdicts::read_again))]
pub fn read_again()
    ensures { ReadAgain }
{}
