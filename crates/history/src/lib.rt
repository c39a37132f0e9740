// Histories of calls on one device, and the law that holds after each. docs/proofs.md says what it says.
#![tactic(auto)]

ghost use Rattle.history.specs.Law.{EveryFamily};

mod call;
mod machine;
mod printing;

pub use call::{Answer, Ask, Call, Denied};
pub use machine::{Machine, perform};

// A history that `perform` makes may mix any summaries: recorded by their rows, it is a history of every family of joins.
pub fn summaries_mix<V>()
    ensures { EveryFamily V }
{}
