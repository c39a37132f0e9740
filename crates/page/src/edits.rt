// Edits of a page: each gives a new page of the same level, and says by an equation which entries it has.
ghost use Rattle.std.specs.Prelude.{◌≡◌, ℕ, suc, ◌+◌, ◌-◌, ◌<◌, ◌≤◌, ◌++◌, length, map, take, drop, slice_range, slice_index_or};
ghost use Rattle.tree.specs.Node.{ins, del, first};
ghost use Rattle.page.specs.InUse.{in_use};
ghost use Rattle.page.specs.View.{entries, pair};

use super::entries::Entries;
use super::page::{Entry, Page};
use std::ops::Range;

impl Page {
    // A page of these entries.
    pub fn new(level: u32, items: &[Entry]) -> Page
        requires { (level ≤ 5) × (length items.now ≤ 15) }
        ensures level { result.level ≡ level }
        ensures these { entries result ≡ map pair items.now }
    {
        let mut entries = Entries::new();
        entries.extend(items);
        Page { level, entries }
    }

    // The entries of a range alone.
    pub fn part(&self, range: Range<usize>) -> Page
        requires { (range.start ≤ range.end) × (range.end ≤ length (in_use self.now.entries)) }
        ensures level { result.level ≡ self.now.level }
        ensures these { entries result ≡ slice_range (entries self.now) range.start range.end }
    {
        Page::new(self.level, &self.entries[range])
    }

    // The entries of a range replaced by others.
    pub fn spliced(&self, range: Range<usize>, with: &[Entry]) -> Page
        requires range { (range.start ≤ range.end) × (range.end ≤ length (in_use self.now.entries)) }
        requires room { length (in_use self.now.entries) + length with.now ≤ 15 + (range.end - range.start) }
        ensures level { result.level ≡ self.now.level }
        ensures these { entries result ≡ take range.start (entries self.now) ++ (map pair with.now ++ drop range.end (entries self.now)) }
    {
        let old = self.entries.as_slice();
        let mut entries = Entries::new();
        entries.extend(&old[..range.start]);
        entries.extend(with);
        entries.extend(&old[range.end..]);
        Page {
            level: self.level,
            entries,
        }
    }

    // The first speed or separator.
    pub fn first_speed(&self) -> u32
        requires { 0 < length (in_use self.now.entries) }
        ensures { result ≡ first (entries self.now) }
    {
        self.entries[0].speed
    }

    // The place of the entry that covers a speed: the last, or the first whose successor lies above the speed.
    pub fn covering(&self, speed: u32) -> usize
        requires { 0 < length (in_use self.now.entries) }
        ensures within { result < length (in_use self.now.entries) }
        ensures past { (k : ℕ) → k < result → (slice_index_or (entries self.now) (suc k) (0, 0)).0 ≤ speed }
        ensures low { (slice_index_or (entries self.now) 0 (0, 0)).0 ≤ speed → (slice_index_or (entries self.now) result (0, 0)).0 ≤ speed }
        ensures high { suc result < length (in_use self.now.entries) → speed < (slice_index_or (entries self.now) (suc result) (0, 0)).0 }
    {
        let later = &self.entries[1..];
        let at = later.iter().position(|next| speed < next.speed);
        at.unwrap_or(later.len())
    }

    // A row set: replaced if its speed is there, else put in its place.
    pub fn with_row(&self, e: Entry) -> Page
        requires { length (in_use self.now.entries) < 15 }
        ensures level { result.level ≡ self.now.level }
        ensures these { entries result ≡ ins e.speed e.value (entries self.now) }
    {
        let entries = self.entries.as_slice();
        match entries.iter().position(|other| e.speed <= other.speed) {
            Some(i) if entries[i].speed == e.speed => self.spliced(i..i + 1, &[e]),
            Some(i) => self.spliced(i..i, &[e]),
            None => self.spliced(entries.len()..entries.len(), &[e]),
        }
    }

    // A row cleared, if its speed is there.
    pub fn without_row(&self, speed: u32) -> Page
        ensures level { result.level ≡ self.now.level }
        ensures these { entries result ≡ del speed (entries self.now) }
    {
        let entries = self.entries.as_slice();
        match entries.iter().position(|e| speed == e.speed) {
            Some(i) => self.spliced(i..i + 1, &[]),
            None => Page::new(self.level, entries),
        }
    }
}
