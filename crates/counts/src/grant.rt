// Free blocks set aside for one call.
ghost use Rattle.std.specs.Prelude.{◌≡◌, ◌≤◌, [], ◌∷◌, length, drop};
ghost use Rattle.arrayvec.specs.ArrayVec.{array_vec_len};
ghost use Rattle.counts.specs.Grants.{lowest_free};
ghost use Rattle.counts.specs.Hint.{Taken};

use super::Counts;
use arrayvec::ArrayVec;
use std::marker::Model;

// Free blocks, ascending, set aside for one call. It is not Drop and its field is private:
// only `end` lets it go, once each block was taken or given back.
pub struct Grant {
    blocks: ArrayVec<u32, 11>,
}

// The blocks that are left.
impl Model for Grant {
    ghost use Rattle.std.specs.Prelude.{List, ℕ};

    ghost Value = { List ℕ };

    ghost view = { λ g. g.blocks.items };
}

impl Grant {
    // The n lowest free blocks, if there are so many, and none below the hint.
    pub fn lowest(counts: &Counts, hint: usize, n: usize) -> Option<Grant>
        requires few { (n ≤ 11) × (array_vec_len counts.now.of ≤ 4096) }
        requires hint { Taken hint counts.now.of.items }
        ensures { result ≡ lowest_free n counts.now.of.items }
    {
        let mut blocks = ArrayVec::new();
        let mut next = hint;
        for _ in 0..n {
            let block = counts.next_free(next);
            if block >= counts.of.len() {
                return None;
            }
            blocks.push(block as u32);
            next = block + 1;
        }
        Some(Grant { blocks })
    }

    // The next block.
    pub fn take(&mut self) -> u32
        requires { 1 ≤ length self.old }
        ensures { self.old ≡ result ∷ self.new }
    {
        self.blocks.remove(0)
    }

    // The next block is not needed, and stays free.
    pub fn give_back(&mut self)
        requires { 1 ≤ length self.old }
        ensures { self.new ≡ drop 1 self.old }
    {
        self.take();
    }

    // None of the blocks that are left is needed, and they stay free.
    pub fn give_back_all(&mut self)
        ensures { self.new ≡ [] }
    {
        self.blocks.clear();
    }

    // Lets the grant go, with no block in it.
    pub fn end(self)
        requires { self ≡ [] }
    {
        let Grant { blocks: _ } = self;
    }
}
