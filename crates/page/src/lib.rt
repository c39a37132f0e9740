// Tree blocks and slots: their words, and edits of a tree block in memory.
#![tactic(auto)]

ghost use Rattle.std.specs.Prelude.{◌<◌};
ghost use Rattle.page.specs.Block.{DecodesExactly};
ghost use Rattle.page.specs.Slot.{FormsExact, SlotsExact};

mod codec;
mod edits;
pub mod entries;
pub mod io;
pub mod page;
pub mod page_words;
pub mod roots;
mod slot;
pub mod stored;

// Decoding answers a tree block exactly when the words are that block's.
pub fn pages_are_exact()
    ensures { DecodesExactly }
{}

// Decoding and reading answer a slot exactly when the words are that slot's.
pub fn slots_are_exact()
    ensures form { FormsExact }
    ensures slots { SlotsExact }
{}

#[cfg(test)]
mod tests {
    use super::codec::is_page;
    use super::page::{Entry, Page};
    use super::roots::{Root, Slot};
    use super::stored::Stored;

    fn page_words(level: u32, speed: u32, value: u32) -> [u32; 32]
        requires { (level < 5) × ((speed < 10000) × (value < 20000)) }
    {
        let mut words = [7u32; 32];
        Page::new(level, &[Entry { speed, value }]).encode(&mut words);
        words
    }

    fn slot_words(height: u32, block: u32) -> [u32; 32]
        requires { (height < 6) × (block < 4096) }
    {
        let mut places: [Option<Root>; 24] = [None; 24];
        places[3] = Some(Root { height, block });
        let mut words = [7u32; 32];
        let slot = Slot {
            generation: 4,
            places,
        };
        slot.encode(&mut words);
        words
    }

    // Whether the altered words are a page's.
    fn stays_page(words: [u32; 32], at: usize, word: u32) -> bool
        requires { at < 32 }
    {
        let mut altered = words;
        altered[at] = word;
        is_page(&altered)
    }

    // Whether the altered words are a slot in the even block of `blocks` blocks.
    fn is_slot(words: [u32; 32], at: usize, word: u32, blocks: u32) -> bool
        requires { at < 32 }
    {
        let mut altered = words;
        altered[at] = word;
        Slot::decode(&altered).is_some_and(|slot| slot.stands(blocks, 0))
    }

    // A leaf with the row 400, angle -100.
    #[test]
    fn leaf_words(rt: HostRuntime) {
        let words = page_words(0, 400, 8900);
        assert_eq!(rt; words[0], 0x1000_0001);
        assert_eq!(rt; words[1], 0);
        assert_eq!(rt; words[2], 0x3000_0190);
        assert_eq!(rt; words[3], 0x4000_22C4);
        assert_eq!(rt; words[31], 0);
        assert!(rt; is_page(&words));
    }

    // A page is copied as a number is: a copy keeps what its original held.
    #[test]
    fn pages_are_copied(rt: HostRuntime) {
        let page = Page::new(
            0,
            &[Entry {
                speed: 400,
                value: 8900,
            }],
        );
        let kept = page;
        let longer = page.with_row(Entry {
            speed: 500,
            value: 9000,
        });
        assert!(rt; kept == page && kept != longer);
        assert_eq!(rt; longer.entries.len(), 2);
    }

    // An index block of level 4, then with level 5, with one entry more, a leaf's header, an angle for a child, a word too many.
    #[test]
    fn malformed_pages(rt: HostRuntime) {
        let words = page_words(4, 0, 9);
        assert!(rt; stays_page(words, 0, 0x2000_0401));
        assert!(rt; !stays_page(words, 0, 0x2000_0501));
        assert!(rt; !stays_page(words, 0, 0x2000_0402));
        assert!(rt; !stays_page(words, 0, 0x1000_0401));
        assert!(rt; !stays_page(words, 3, 0x4000_0009));
        assert!(rt; !stays_page(words, 31, 1));
    }

    // Clone 3 has a tree of height 1 with its root in block 7; then too few blocks, the odd block's generation, height 6, another kind.
    #[test]
    fn slots(rt: HostRuntime) {
        let words = slot_words(1, 7);
        assert_eq!(rt; words[0], 0x6000_0004);
        assert_eq!(rt; words[4], 0x7001_0007);
        assert!(rt; is_slot(words, 4, 0x7001_0007, 8));
        assert!(rt; !is_slot(words, 4, 0x7001_0007, 7));
        assert!(rt; !is_slot(words, 0, 0x6000_0003, 8));
        assert!(rt; !is_slot(words, 4, 0x7006_0007, 8));
        assert!(rt; !is_slot(words, 4, 0x5001_0007, 8));
    }
}
