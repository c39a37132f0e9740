// A tree block in memory.
ghost use Rattle.std.specs.Prelude.{◌≡◌, ℕ, ◌<◌, ◌≤◌};

use super::entries::Entries;

// A speed or separator, and a payload: an angle + 9,000 in a leaf, a child's block in an index block. Each fits 28 bits.
#[derive(Clone, Copy, PartialEq, Eq, Debug)]
pub struct Entry {
    pub speed: u32,
    pub value: u32,
    ghost small: { (speed < 268435456) × (value < 268435456) },
}

impl Default for Entry {
    ghost is_default = { λ entry. (entry.speed ≡ 0) × (entry.value ≡ 0) };

    fn default() -> Entry {
        Entry { speed: 0, value: 0 }
    }
}

// A leaf has level 0; level 5 is only in memory, above a root.
#[derive(Clone, Copy, PartialEq, Eq, Debug)]
pub struct Page {
    pub level: u32,
    pub entries: Entries,
    ghost low: { level ≤ 5 },
}
