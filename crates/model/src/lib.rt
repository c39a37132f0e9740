// What the calls of a volume mean, and the law of histories. docs/model.md explains the definitions.
#![tactic(auto)]

mod carried;
mod printing;
mod refusal;

ghost use Rattle.model.specs.Walk.{WalkExact};
ghost use Rattle.model.specs.Right.{Histories};
ghost use Rattle.model.specs.World.{Refines};
ghost use Rattle.model.specs.Reach.{UseIsReach, FreeByCounts};
ghost use Rattle.model.specs.Onward.{GoesOn, Formats};
ghost use Rattle.model.specs.Order.{EarlyFirst, AbsentFirst};

pub use refusal::Refusal;

// Mount's walk finds no fault exactly where every clone's tree stands in the layout.
pub fn walk_is_exact()
    ensures { WalkExact }
{}

// The law of histories, for one run and for two.
pub fn clones_stay_apart<V>()
    ensures { Histories V }
{}

// After every history each call in turn has a step, and a format leaves a formatted device.
pub fn no_history_is_stuck<V>()
    ensures { GoesOn V × Formats }
{}

// The blocks in use are those that places reach, and the free ones those of count 0.
pub fn free_goes_by_counts()
    ensures { UseIsReach × FreeByCounts }
{}

// Refusals from the arguments and the tables come before those from blocks and writes.
pub fn arguments_are_checked_first()
    ensures any { EarlyFirst }
    ensures absent { AbsentFirst }
{}

// Every answer of a history from a finished format, refusals 10 to 12 too, is that of the trees, which follow from the calls and the cuts alone.
pub fn answers_follow_from_calls<V>()
    ensures { Refines V }
{}
