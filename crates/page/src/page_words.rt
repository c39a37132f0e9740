// A tree block as the words of its block, to be read: an entry is taken from its two words when it is asked for.
ghost use Rattle.std.specs.Prelude.{◌≡◌, ℕ, suc, ◌<◌, ◌≤◌, true, is_some, length, Some, None, slice_index_or, if◌then◌else◌, [], false, MatchResult};
ghost use Rattle.device.specs.Meaning.{reading};
ghost use Rattle.page.specs.Block.{shown_block, decode};
ghost use Rattle.page.specs.Io.{Broad, ReadAs};
ghost use Rattle.page.specs.View.{view};
ghost use Rattle.tree.specs.Reads.{look};

use super::codec::is_page;
use super::entries::Entries;
use super::page::{Entry, Page};
use device::{DeviceFault, Reader};
use std::marker::Model;
use word::payload;

// The words of a block that holds a page, in the front of a buffer as wide as any block that a volume uses.
#[derive(Drop)]
pub struct PageWords {
    words: [u32; 40],
}

// The tree block that the words hold.
impl Model for PageWords {
    ghost use Rattle.page.specs.Block.{Block, read};

    ghost Value = { Block };

    ghost view = { λ p. read p.words };

    ghost use Rattle.page.specs.Readable.{Readable};

    ghost invariant = { λ p. Readable p.words };
}

impl PageWords {
    // A leaf of no rows, for a page to be loaded over.
    pub fn empty() -> PageWords
        ensures { result ≡ record { level = 0; entries = [] } }
    {
        PageWords { words: [0; 40] }
    }

    // Reads the page of a block that holds one.
    pub fn load<R: Reader>(&mut self, reader: &mut R, block: u32)
        requires wide { Broad (R.Reader.shown reader.old) }
        requires stands { is_some (shown_block (R.Reader.shown reader.old) block) ≡ true }
        ensures same { R.Reader.shown reader.new ≡ R.Reader.shown reader.old }
        ensures rest { R.Reader.rest reader.new ≡ R.Reader.rest reader.old }
        ensures page { shown_block (R.Reader.shown reader.old) block ≡ Some self.new }
    {
        let width = reader.width() as usize;
        reader.read(block, &mut self.words[..width]).unwrap();
    }

    // Reads a block that may hold a page; whether it does. If not, an empty leaf is left.
    pub fn try_load<R: Reader>(&mut self, reader: &mut R, block: u32) -> Result<bool, DeviceFault>
        requires { Broad (R.Reader.shown reader.old) }
        ensures same { R.Reader.shown reader.new ≡ R.Reader.shown reader.old }
        ensures rest { R.Reader.rest reader.new ≡ R.Reader.rest reader.old }
        ensures answer { ReadAs (λ ws holds. decode ws ≡ (if holds then Some self.new else None))
            (reading R.Reader.code (R.Reader.shown reader.old) block (R.Reader.shown reader.old).width) result }
        ensures left { MatchResult result (λ holds. holds ≡ false → self.new ≡ record { level = 0; entries = [] }) (λ _. self.new ≡ self.old) }
    {
        let width = reader.width() as usize;
        reader.read(block, &mut self.words[..width])?;
        let holds = is_page(&self.words[..width]);
        if !holds {
            *self = PageWords::empty();
        }
        Ok(holds)
    }

    // The level: 0 for a leaf.
    pub fn level(&self) -> u32
        ensures level { result ≡ self.now.level }
        ensures low { result < 5 }
    {
        payload(self.words[0]) / 256
    }

    // How many entries.
    pub fn len(&self) -> usize
        ensures len { result ≡ length self.now.entries }
        ensures few { result ≤ 15 }
    {
        (self.words[0] % 256) as usize
    }

    // An entry: its speed or separator, and its payload.
    fn entry(&self, i: usize) -> (u32, u32)
        requires { i < length self.now.entries }
        ensures is { result ≡ slice_index_or self.now.entries i (0, 0) }
        ensures small { (result.0 < 268435456) × (result.1 < 268435456) }
    {
        let words = &self.words;
        (payload(words[2 * i + 2]), payload(words[2 * i + 3]))
    }

    // The speed or separator of an entry.
    pub fn speed(&self, i: usize) -> u32
        requires { i < length self.now.entries }
        ensures is { result ≡ (slice_index_or self.now.entries i (0, 0)).0 }
        ensures small { result < 268435456 }
    {
        self.entry(i).0
    }

    // The payload of an entry.
    pub fn value(&self, i: usize) -> u32
        requires { i < length self.now.entries }
        ensures is { result ≡ (slice_index_or self.now.entries i (0, 0)).1 }
        ensures small { result < 268435456 }
    {
        self.entry(i).1
    }

    // The place of the entry that covers a speed: the last, or the first whose successor lies above the speed.
    pub fn covering(&self, speed: u32) -> usize
        requires { 0 < length self.now.entries }
        ensures within { result < length self.now.entries }
        ensures past { (k : ℕ) → k < result → (slice_index_or self.now.entries (suc k) (0, 0)).0 ≤ speed }
        ensures high { suc result < length self.now.entries → speed < (slice_index_or self.now.entries (suc result) (0, 0)).0 }
    {
        let last = self.len() - 1;
        for i in 0..last {
            if speed < self.speed(i + 1) {
                return i;
            }
        }
        last
    }

    // The payload of the first entry of a speed, if there is one.
    pub fn find(&self, speed: u32) -> Option<u32>
        ensures { result ≡ look speed self.now.entries }
    {
        for i in 0..self.len() {
            if speed == self.speed(i) {
                return Some(self.value(i));
            }
        }
        None
    }

    // The page in memory.
    pub fn to_page(&self) -> Page
        ensures { view result ≡ self.now }
    {
        let mut entries = Entries::new();
        for i in 0..self.len() {
            entries.extend(&[Entry {
                speed: self.speed(i),
                value: self.value(i),
            }]);
        }
        Page {
            level: self.level(),
            entries,
        }
    }
}
