// Worked figures of the formats and rules, checked as one list against the definitions that the code is proved by.
#![tactic(auto)]

ghost use Rattle.figures.specs.Figures.{Figures};

// Every figure of the list holds.
pub fn figures_hold()
    ensures { Figures }
{}
