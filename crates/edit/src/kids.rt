// The part of a child in which an edit goes on, the rest of it, and the entries that then stand for them.
ghost use Rattle.std.specs.Prelude.{◌≡◌, ℕ, List};
ghost use Rattle.page.specs.View.{entries};
ghost use Rattle.edit.specs.Plan.{chosen, parted};
ghost use Rattle.edit.specs.Kids.{with_rest, Beside};

use arrayvec::ArrayVec;
use page::page::{Entry, Page};

// How many entries of a full page are in its lower half.
const HALF: usize = 7;

// The entries that stand for a child in its parent: one, or one for each of two parts.
pub type Kids = ArrayVec<Entry, 2>;

// What stands beside a part that is made anew, with the separator of the right one of the two.
#[derive(Drop)]
pub enum Rest {
    Nothing,
    // It stands after the part.
    After(u32, Page),
    // It stands before the part.
    Before(u32, Page),
}

// The part of a child that a speed belongs to, and the rest: all of it and nothing, or the halves if it is full.
pub fn split(child: Page, speed: u32) -> (Page, Rest)
    ensures level { result.0.level ≡ child.level }
    ensures these { entries result.0 ≡ chosen speed (entries child) }
    ensures parts { (k : ℕ) (made : List (ℕ × ℕ)) → with_rest k result.1 made ≡ parted speed k (entries child) made }
    ensures beside { Beside child.level result.1 }
{
    if !child.entries.is_full() {
        return (child, Rest::Nothing);
    }
    let lower = child.part(0..HALF);
    let upper = child.part(HALF..child.entries.len());
    let separator = upper.first_speed();
    if speed < separator {
        (lower, Rest::After(separator, upper))
    } else {
        (upper, Rest::Before(separator, lower))
    }
}
