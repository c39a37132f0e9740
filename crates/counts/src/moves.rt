// The moves on a device and counts that are held apart. None asks that there are as many counts as blocks. A link makes one
// write, and nothing else writes or flushes. A `Store` makes the same moves, and keeps its hint with them.
ghost use Rattle.std.specs.Prelude.{◌≡◌, ℕ, ◌<◌, ◌≤◌, true, [], ◌∷◌, length, is_some, Some, slice_index};
ghost use Rattle.device.specs.Cuts.{write};
ghost use Rattle.device.specs.Meaning.{blocks_of};
ghost use Rattle.page.specs.Block.{block_at, encode};
ghost use Rattle.page.specs.Io.{Wide};
ghost use Rattle.page.specs.View.{view};
ghost use Rattle.counts.specs.Moves.{opening, linking, step, Owned, Held, Dropped};

use super::Counts;
use device::Device;
use page::io::write_block;
use page::page::Page;
use page::page_words::PageWords;

// The page of a block that holds one.
pub fn read_page<D: Device>(device: &mut D, block: u32) -> Page
    requires wide { Wide (D.Device.meaning device.old) }
    requires holds { is_some (block_at (D.Device.meaning device.old) block) ≡ true }
    ensures kept { D.Device.meaning device.new ≡ D.Device.meaning device.old }
    ensures page { block_at (D.Device.meaning device.old) block ≡ Some (view result) }
    ensures calls { D.Device.led [] device.old device.new }
{
    let mut words = PageWords::empty();
    words.load(device, block);
    words.to_page()
}

// Gives up a reference to a block for references to its children.
pub fn open<D: Device>(device: &mut D, counts: &mut Counts, block: u32) -> Page
    requires wide { Wide (D.Device.meaning device.old) }
    requires owned { Owned (D.Device.meaning device.old, counts.old.of.items) block }
    requires few { length counts.old.of.items ≤ 4096 }
    ensures page { block_at (D.Device.meaning device.old) block ≡ Some (view result) }
    ensures state { (D.Device.meaning device.new, counts.new.of.items) ≡ step (opening block) (D.Device.meaning device.old, counts.old.of.items) }
    ensures calls { D.Device.led [] device.old device.new }
{
    let page = read_page(device, block);
    counts.open(block, &page);
    page
}

// Writes a page to a block that nothing refers to; the references to its children go over into it, and one to it is held.
pub fn link<D: Device>(device: &mut D, counts: &mut Counts, block: u32, page: &Page)
    requires wide { Wide (D.Device.meaning device.old) }
    requires on { block < blocks_of (D.Device.meaning device.old) }
    requires within { block < length counts.old.of.items }
    requires free { slice_index counts.old.of.items block ≡ 0 }
    requires left { 0 < (D.Device.meaning device.old).left }
    requires low { page.now.level < 5 }
    ensures state { (D.Device.meaning device.new, counts.new.of.items) ≡ step (linking block (view page.now)) (D.Device.meaning device.old, counts.old.of.items) }
    ensures calls { D.Device.led (write block (encode (D.Device.meaning device.old).width (view page.now)) ∷ []) device.old device.new }
{
    write_block(device, block, page).unwrap();
    counts.set(block, 1);
}

// Gives up a reference to a block; where it was the last, those to its children too.
pub fn release<D: Device>(device: &mut D, counts: &mut Counts, block: u32, level: u32)
    requires wide { Wide (D.Device.meaning device.old) }
    requires held { Held (D.Device.meaning device.old, counts.old.of.items) block level }
    ensures kept { D.Device.meaning device.new ≡ D.Device.meaning device.old }
    ensures dropped { Dropped (block ∷ []) (D.Device.meaning device.old, counts.old.of.items) counts.new.of.items }
    ensures sized { length counts.new.of.items ≡ length counts.old.of.items }
    ensures calls { D.Device.led [] device.old device.new }
{
    counts.release(device, 2, block, level);
}
