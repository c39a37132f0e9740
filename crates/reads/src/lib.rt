// Reading a tree on a store: the angle of a row, the angle at a speed, the rows from a speed on, and summaries.
// A read changes nothing: neither what the device means nor the counts. docs/reading.md has what each reads.
#![tactic(auto)]

mod descent;
mod leaf;
mod listing;
mod lookup;
mod summing;

pub use listing::list;
pub use lookup::{at, get};
pub use summing::summary;

#[cfg(test)]
mod tests;
