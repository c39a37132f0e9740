// A slot in memory.
ghost use Rattle.std.specs.Prelude.{◌≡◌, ℕ, ◌<◌, length};

// The root of a clone's tree: the tree's height and the root's block, as they fit a clone word.
#[derive(Clone, Copy, PartialEq, Eq, Debug)]
pub struct Root {
    pub height: u32,
    pub block: u32,
    ghost small: { (height < 4096) × (block < 65536) },
}

// A generation, and the root of each clone that is there.
#[derive(Clone, Copy, PartialEq, Eq, Debug)]
pub struct Slot {
    pub generation: u32,
    pub places: [Option<Root>; 24],
    ghost fits: { (generation < 268435456) × (length places ≡ 24) },
}
