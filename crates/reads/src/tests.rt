// A tree of two leaves on a device in memory, read.
ghost use Rattle.std.specs.Prelude.{◌≡◌, ℕ, ◌+◌, ◌<◌, ◌≤◌, [], ◌∷◌, replicate};
ghost use Rattle.device.specs.Meaning.{blocks_of};
ghost use Rattle.page.specs.Io.{Wide};
ghost use Rattle.page.specs.View.{pair, entries};
ghost use Rattle.model.specs.TreeBlocks.{GoodOn};

use super::{at, get, list, summary};
use counts::{Counts, Store, moves};
use device::Device;
use memory::Memory;
use page::page::{Entry, Page};
use page::page_words::PageWords;
use page::roots::Root;
use std::test::Fail;
use table::{Count, Extent, Pair, Span, Sum};

fn row(speed: u32, payload: u32) -> Entry
    requires { (speed ≤ 10000) × (payload ≤ 18000) }
    ensures { pair result ≡ (speed, payload) }
{
    Entry {
        speed,
        value: payload,
    }
}

// Seven rows from a speed on, a hundred apart, of one payload.
fn leaf(first: u32, payload: u32) -> Page
    requires first { first ≤ 9000 }
    requires payload { payload ≤ 18000 }
    ensures level { result.level ≡ 0 }
    ensures rows { entries result ≡ (first, payload) ∷ (first + 100, payload) ∷ (first + 200, payload) ∷ (first + 300, payload) ∷ (first + 400, payload) ∷ (first + 500, payload) ∷ (first + 600, payload) ∷ [] }
{
    let rows = [
        row(first, payload),
        row(first + 100, payload),
        row(first + 200, payload),
        row(first + 300, payload),
        row(first + 400, payload),
        row(first + 500, payload),
        row(first + 600, payload),
    ];
    Page::new(0, &rows)
}

// Two leaves in blocks 2 and 3, under an index block in block 4: seven rows from 100 on of 5 degrees, and seven from 1,100 on
// of -1 degree.
fn plant<D: Device>(store: &mut Store<D>)
    requires wide { Wide store.old.0 }
    requires blocks { blocks_of store.old.0 ≡ 16 }
    requires endless { store.old.0.left ≡ 4294967295 }
    requires free { store.old.1 ≡ replicate 16 0 }
    ensures { GoodOn store.new.0 (2, 4) }
{
    store.link(2, &leaf(100, 9_500));
    store.link(3, &leaf(1_100, 8_900));
    let children = [
        Entry { speed: 0, value: 2 },
        Entry {
            speed: 1_000,
            value: 3,
        },
    ];
    store.link(4, &Page::new(1, &children));
}

#[test]
fn two_leaves(rt: HostRuntime) -> Result<(), Fail> {
    let mut current = [0u32; 512];
    let mut persisted = [0u32; 512];
    let mut marks = [0u8; 16];
    let memory = match Memory::open(&mut current, &mut persisted, &mut marks, 32) {
        Ok(memory) => memory,
        Err(_) => return Err(Fail::new("the slices have the shape")),
    };
    let mut store = Store::new(memory, Counts::none(16));
    plant(&mut store);
    let root = Root {
        height: 2,
        block: 4,
    };
    assert_eq!(rt; get(&mut store, root, 300), Some(500));
    assert_eq!(rt; get(&mut store, root, 350), None);
    assert_eq!(rt; at(&mut store, root, 50), Some(500));
    assert_eq!(rt; at(&mut store, root, 900), Some(200));
    assert_eq!(rt; at(&mut store, root, 1_050), Some(-25));
    assert_eq!(rt; at(&mut store, root, 5_000), Some(-100));
    let mut out = [Pair::default(); 4];
    assert_eq!(rt; list(&mut store, root, 650, &mut out), 4);
    assert_eq!(rt;
        out[0],
        Pair {
            speed: 700,
            angle: 500
        }
    );
    assert_eq!(rt;
        out[3],
        Pair {
            speed: 1_300,
            angle: -100
        }
    );
    assert_eq!(rt; list(&mut store, root, 1_650, &mut out), 1);
    assert_eq!(rt;
        out[0],
        Pair {
            speed: 1_700,
            angle: -100
        }
    );
    assert_eq!(rt; summary::<_, Count>(&mut store, root).rows, 14);
    assert_eq!(rt;
        summary::<_, Span>(&mut store, root).extent,
        Some(Extent {
            lowest: -100,
            highest: 500
        })
    );
    assert_eq!(rt; summary::<_, Sum>(&mut store, root).angles, 2_800);
    // The payload of the second leaf's first row, as it is read from the words.
    let mut words = PageWords::empty();
    let read = store.blocks() > 3 && store.try_load(3, &mut words)? && words.len() > 0;
    let value = if read { words.value(0) } else { 0 };
    assert_eq!(rt; value, 8_900);
    let (_memory, _counts) = store.into_parts();
    Ok(())
}

// Eight counts for sixteen blocks: a link asks for a count of its own block alone.
#[test]
fn fewer_counts_than_blocks(rt: HostRuntime) -> Result<(), Fail> {
    let mut current = [0u32; 512];
    let mut persisted = [0u32; 512];
    let mut marks = [0u8; 16];
    let mut memory = match Memory::open(&mut current, &mut persisted, &mut marks, 32) {
        Ok(memory) => memory,
        Err(_) => return Err(Fail::new("the slices have the shape")),
    };
    let mut counts = Counts::none(8);
    moves::link(&mut memory, &mut counts, 5, &leaf(100, 9_500));
    assert_eq!(rt; counts.get(5), 1);
    let mut words = PageWords::empty();
    assert_eq!(rt; words.try_load(&mut memory, 5)?, true);
    assert_eq!(rt; words.len(), 7);
    Ok(())
}
