ghost use Rattle.part_survey.specs.Laws.{OneAnswer};

/// A tile-part has one answer.
pub fn one_answer()
    ensures { OneAnswer }
{}
