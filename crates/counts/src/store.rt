// A device whose tree blocks are counted by their references.
ghost use Rattle.std.specs.Prelude.{◌≡◌, ℕ, ◌+◌, ◌-◌, ◌<◌, ◌≤◌, ◌==◌, true, false, [], ◌∷◌, length, is_some, Some, None, if◌then◌else◌, MatchResult, slice_index};
ghost use Rattle.std.specs.Option.{option_map};
ghost use Rattle.device.specs.Meaning.{blocks_of, shown_of, reading, written, flushed};
ghost use Rattle.page.specs.Block.{block_at, decode};
ghost use Rattle.page.specs.Io.{Wide, ReadAs};
ghost use Rattle.page.specs.Slot.{decode_slot};
ghost use Rattle.page.specs.View.{view, slot_of};
ghost use Rattle.counts.specs.Grants.{lowest_free};
ghost use Rattle.counts.specs.Keeping.{retained};
ghost use Rattle.counts.specs.Moves.{opening, linking, step, Shaped, Owned, Held, Dropped};

use super::{Counts, Grant, moves};
use device::{Device, DeviceFault, LayerMark, Reader};
use page::io::{read_slot, write_block};
use page::page::Page;
use page::page_words::PageWords;
use page::roots::Slot;
use page::stored::Stored;
use std::marker::Model;

// A device of a width that a volume uses, and as many counts as it has blocks.
#[derive(Drop)]
pub struct Store<D: Device> {
    device: D,
    counts: Counts,
    // No tree block below this one is free.
    hint: usize,
}

// What the device means, and the counts.
impl<D: Device> Model for Store<D> {
    ghost use Rattle.std.specs.Prelude.{◌≡◌, length};
    ghost use Rattle.counts.specs.Moves.{State};

    ghost Value = { State };

    ghost use Rattle.device.specs.Meaning.{blocks_of};
    ghost use Rattle.page.specs.Io.{Wide};

    ghost view = { λ s. (D.Device.meaning s.device, s.counts.of.items) };

    ghost use Rattle.counts.specs.Hint.{Taken};

    ghost invariant = { λ s. Wide (D.Device.meaning s.device) × ((length s.counts.of.items ≡ blocks_of (D.Device.meaning s.device)) × Taken s.hint s.counts.of.items) };
}

impl<D: Device> Store<D> {
    // A device and the counts of its blocks.
    pub fn new(device: D, counts: Counts) -> Store<D>
        requires wide { Wide (D.Device.meaning device) }
        requires sized { length counts.of.items ≡ blocks_of (D.Device.meaning device) }
        ensures { result ≡ (D.Device.meaning device, counts.of.items) }
    {
        Store {
            device,
            counts,
            hint: 2,
        }
    }

    // The device and the counts.
    pub fn into_parts(self) -> (D, Counts)
        ensures { (D.Device.meaning result.0, result.1.of.items) ≡ self }
    {
        let Store {
            device,
            counts,
            hint: _,
        } = self;
        (device, counts)
    }

    // The number of blocks, and what every store keeps.
    pub fn blocks(&self) -> u32
        ensures blocks { result ≡ blocks_of self.now.0 }
        ensures shape { Shaped self.now }
    {
        self.device.blocks()
    }

    // How many writes are left, and which layer sets that limit.
    pub fn left(&self) -> (u32, LayerMark)
        ensures { result ≡ (self.now.0.left, self.now.0.left_mark) }
    {
        self.device.left()
    }

    // The n lowest free blocks, if there are so many.
    pub fn grant(&self, n: usize) -> Option<Grant>
        requires { n ≤ 11 }
        ensures these { result ≡ lowest_free n self.now.1 }
        ensures shape { Shaped self.now }
    {
        Grant::lowest(&self.counts, self.hint, n)
    }

    // The slot that a block holds, if it holds one.
    pub fn read_slot(&mut self, block: u32) -> Result<Option<Slot>, DeviceFault>
        ensures kept { self.new ≡ self.old }
        ensures answer { ReadAs (λ ws s. option_map slot_of s ≡ decode_slot ws) (reading D.Reader.code (shown_of self.old.0) block self.old.0.width) result }
    {
        read_slot(&mut self.device, block)
    }

    // Writes a value to a block, on a device that has a write left.
    pub fn write<T: Stored>(&mut self, block: u32, value: &T)
        requires on { block < blocks_of self.old.0 }
        requires left { 1 ≤ self.old.0.left }
        requires storable { T.Stored.storable value.now }
        ensures { self.new ≡ (written self.old.0 block (T.Stored.words_of self.old.0.width value.now), self.old.1) }
    {
        write_block(&mut self.device, block, value).unwrap();
    }

    // Makes every current content the persisted one.
    pub fn flush(&mut self)
        ensures { self.new ≡ (flushed self.old.0, self.old.1) }
    {
        self.device.flush();
    }

    // One reference more to a block; whether it is the first.
    pub fn retain(&mut self, block: u32) -> bool
        requires within { block < blocks_of self.old.0 }
        requires room { slice_index self.old.1 block < 65535 }
        ensures first { result ≡ (slice_index self.old.1 block == 0) }
        ensures kept { self.new.0 ≡ self.old.0 }
        ensures counts { self.new.1 ≡ retained block self.old.1 }
    {
        self.counts.retain(block)
    }

    // Reads the page of a block that holds one, over what was read before.
    pub fn load(&mut self, block: u32, page: &mut PageWords)
        requires { is_some (block_at self.old.0 block) ≡ true }
        ensures kept { self.new ≡ self.old }
        ensures page { block_at self.old.0 block ≡ Some page.new }
    {
        page.load(&mut self.device, block);
    }

    // Reads a block that may hold a page, over what was read before; whether it does. If not, an empty leaf is left.
    pub fn try_load(&mut self, block: u32, page: &mut PageWords) -> Result<bool, DeviceFault>
        ensures kept { self.new ≡ self.old }
        ensures answer { ReadAs (λ ws holds. decode ws ≡ (if holds then Some page.new else None)) (reading D.Reader.code (shown_of self.old.0) block self.old.0.width) result }
        ensures left { MatchResult result (λ holds. holds ≡ false → page.new ≡ record { level = 0; entries = [] }) (λ _. page.new ≡ page.old) }
    {
        page.try_load(&mut self.device, block)
    }

    // The page of a block that holds one.
    pub fn read_page(&mut self, block: u32) -> Page
        requires { is_some (block_at self.old.0 block) ≡ true }
        ensures kept { self.new ≡ self.old }
        ensures page { block_at self.old.0 block ≡ Some (view result) }
    {
        moves::read_page(&mut self.device, block)
    }

    // Gives up a reference to a block for references to its children.
    pub fn open(&mut self, block: u32) -> Page
        requires { Owned self.old block }
        ensures page { block_at self.old.0 block ≡ Some (view result) }
        ensures state { self.new ≡ step (opening block) self.old }
        ensures shape { Shaped self.old }
    {
        let page = self.read_page(block);
        self.open_page(block, &page);
        page
    }

    // The same, where the page of the block was read before.
    pub fn open_page(&mut self, block: u32, page: &Page)
        requires owned { Owned self.old block }
        requires holds { block_at self.old.0 block ≡ Some (view page.now) }
        ensures state { self.new ≡ step (opening block) self.old }
        ensures shape { Shaped self.old }
    {
        self.counts.open(block, page);
        self.hint = self.counts.freed(self.hint, block);
    }

    // Writes a page to a block that nothing refers to; the references to its children go over into it, and one to it is held.
    pub fn link(&mut self, block: u32, page: &Page)
        requires on { block < blocks_of self.old.0 }
        requires free { slice_index self.old.1 block ≡ 0 }
        requires left { 1 ≤ self.old.0.left }
        requires low { page.now.level < 5 }
        ensures { self.new ≡ step (linking block (view page.now)) self.old }
    {
        moves::link(&mut self.device, &mut self.counts, block, page);
        self.hint = self.counts.taken(self.hint);
    }

    // Gives up a reference to a block; where it was the last, those to its children too.
    pub fn release(&mut self, block: u32, level: u32)
        requires { Held self.old block level }
        ensures kept { self.new.0 ≡ self.old.0 }
        ensures dropped { Dropped (block ∷ []) self.old self.new.1 }
        ensures sized { length self.new.1 ≡ length self.old.1 }
    {
        self.hint = self
            .counts
            .release(&mut self.device, self.hint, block, level);
    }
}
