// References to tree blocks, counted. docs/counts.md explains the equation and the moves that keep it.
#![tactic(auto)]

ghost use Rattle.std.specs.Prelude.{◌≡◌, ℕ, ◌+◌, ◌-◌, ◌*◌, ◌<◌, ◌≤◌, ◌==◌, [], ◌∷◌, length, replicate, Some, slice_index, slice_set};
ghost use Rattle.counts.specs.Counts.{AliveIsReached, add_all, opened, Roomy};
ghost use Rattle.counts.specs.Hint.{Taken, TakenBut};
ghost use Rattle.counts.specs.Keeping.{retained, RetainKeeps, OpenKeeps, LinkKeeps, CountsFit};
ghost use Rattle.counts.specs.Moves.{Held, Dropped};
ghost use Rattle.page.specs.Block.{kids_of};
ghost use Rattle.page.specs.Io.{Wide};
ghost use Rattle.page.specs.View.{view};
ghost use Rattle.arrayvec.specs.ArrayVec.{array_vec_len};

mod grant;
pub mod moves;
mod store;

use arrayvec::ArrayVec;
use device::Device;
pub use grant::Grant;
use page::page::Page;
pub use store::Store;

// Where the counts keep their equation, a block is counted above 0 exactly when a place reaches it: free is unreached.
pub fn counted_is_reached()
    ensures { AliveIsReached }
{}

// Each move keeps the counts' equation, and the counts have 16 bits.
pub fn moves_keep_the_counts()
    ensures retain { RetainKeeps }
    ensures opening { OpenKeeps }
    ensures link { LinkKeeps }
    ensures fit { CountsFit }
{}

// How many references each block has.
#[derive(Drop)]
pub struct Counts {
    pub of: ArrayVec<u16, 4096>,
}

// 4,096 counts of 0.
fn zeros() -> [u16; 4096]
    ensures { result ≡ replicate 4096 0 }
{
    [0; 4096]
}

impl Counts {
    // Counts of no references, for so many blocks.
    pub fn none(blocks: u32) -> Counts
        requires { blocks ≤ 4096 }
        ensures { result.of.items ≡ replicate blocks 0 }
    {
        let mut of = ArrayVec::from(zeros());
        of.truncate(blocks as usize);
        Counts { of }
    }

    // The references to a block.
    pub fn get(&self, block: u32) -> u16
        requires { block < array_vec_len self.now.of }
        ensures { result ≡ slice_index self.now.of.items block }
    {
        self.of[block as usize]
    }

    // Sets the references to a block.
    pub fn set(&mut self, block: u32, count: u16)
        requires { block < array_vec_len self.old.of }
        ensures { self.new.of.items ≡ slice_set self.old.of.items block count }
    {
        self.of[block as usize] = count;
    }

    // Takes all references away.
    pub fn clear(&mut self)
        ensures { self.new.of.items ≡ replicate (array_vec_len self.old.of) 0 }
    {
        self.of.as_mut_slice().fill(0);
    }

    // One reference more to a block; whether it is the first.
    pub fn retain(&mut self, block: u32) -> bool
        requires within { block < array_vec_len self.old.of }
        requires room { slice_index self.old.of.items block < 65535 }
        ensures first { result ≡ (slice_index self.old.of.items block == 0) }
        ensures counts { self.new.of.items ≡ retained block self.old.of.items }
    {
        let count = self.get(block);
        self.set(block, count + 1);
        count == 0
    }

    // One reference more to each child of a page.
    pub fn add_kids(&mut self, page: &Page)
        requires { Roomy (kids_of (Some (view page.now))) self.old.of.items }
        ensures { self.new.of.items ≡ add_all (kids_of (Some (view page.now))) self.old.of.items }
    {
        if page.level > 0 {
            for entry in page.entries.iter() {
                self.retain(entry.value);
            }
        }
    }

    // Gives up a reference to a block, which holds the page, for references to its children.
    pub fn open(&mut self, block: u32, page: &Page)
        requires room { Roomy (kids_of (Some (view page.now))) self.old.of.items }
        requires alive { 0 < slice_index self.old.of.items block }
        ensures { self.new.of.items ≡ opened (kids_of (Some (view page.now))) block self.old.of.items }
    {
        if self.get(block) == 1 {
            self.set(block, 0);
            return;
        }
        self.add_kids(page);
        let count = self.get(block);
        self.set(block, count - 1);
    }

    // The first tree block from a hint on that nothing refers to, as the next hint.
    fn taken(&self, hint: usize) -> usize
        requires { Taken hint self.now.of.items }
        ensures { Taken result self.now.of.items }
    {
        self.next_free(hint)
    }

    // The lowest of sixteen counts.
    fn lowest_of(&self, from: usize) -> u16
        requires { from + 16 ≤ array_vec_len self.now.of }
        ensures { 0 < result → (i : ℕ) → from ≤ i → i < from + 16 → 0 < slice_index self.now.of.items i }
    {
        let counts = self.of.as_slice();
        let mut low = u16::MAX;
        for i in from..from + 16 {
            low = low.min(counts[i]);
        }
        low
    }

    // The first block from a place on that nothing refers to, or past the last one. Sixteen counts are looked at in a step.
    fn next_free(&self, from: usize) -> usize
        ensures on { from ≤ result }
        ensures over { (i : ℕ) → from ≤ i → i < result → 0 < slice_index self.now.of.items i }
        ensures free { result < array_vec_len self.now.of → slice_index self.now.of.items result ≡ 0 }
    {
        let counts = self.of.as_slice();
        let len = counts.len();
        let mut next = from;
        while next < len && len - next >= 16 && self.lowest_of(next) > 0 {
            next += 16;
        }
        while next < len && counts[next] > 0 {
            next += 1;
        }
        next
    }

    // The hint, after a block lost a reference: the block itself, if that was the last and the block lies below.
    fn freed(&self, hint: usize, block: u32) -> usize
        requires within { block < array_vec_len self.now.of }
        requires others { TakenBut block hint self.now.of.items }
        ensures { Taken result self.now.of.items }
    {
        if self.get(block) == 0 {
            hint.min((block as usize).max(2))
        } else {
            hint
        }
    }

    // Gives up a reference to a block, and where it was the last, those to its children too; the hint, after that.
    fn release<D: Device>(&mut self, device: &mut D, hint: usize, block: u32, level: u32) -> usize
        requires wide { Wide (D.Device.meaning device.old) }
        requires hint { Taken hint self.old.of.items }
        requires held { Held (D.Device.meaning device.old, self.old.of.items) block level }
        ensures kept { D.Device.meaning device.new ≡ D.Device.meaning device.old }
        ensures dropped { Dropped (block ∷ []) (D.Device.meaning device.old, self.old.of.items) self.new.of.items }
        ensures sized { length self.new.of.items ≡ length self.old.of.items }
        ensures hint { Taken result self.new.of.items }
        ensures calls { D.Device.led [] device.old device.new }
    {
        let references = self.get(block);
        self.set(block, references - 1);
        let mut hint = self.freed(hint, block);
        if references == 1 && level > 0 {
            let page = moves::read_page(device, block);
            for entry in page.entries.iter() {
                hint = self.release(device, hint, entry.value, level - 1);
            }
        }
        hint
    }
}
