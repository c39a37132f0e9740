// The words of slots.
ghost use Rattle.std.specs.Prelude.{◌≡◌, ℕ, ◌+◌, ◌-◌, ◌*◌, ◌/◌, ◌%◌, ◌<◌, ◌≤◌, map, length};
ghost use Rattle.page.specs.Slot.{clone_word, clone_read, slot_loose, rooted, every};
ghost use Rattle.page.specs.View.{root_of, slot_of};

use super::roots::{Root, Slot};
use super::stored::Stored;
use std::array;
use word::{Kind, payload};

// The word of a clone.
fn clone_word(place: Option<Root>) -> u32
    ensures { result ≡ clone_word (root_of place) }
{
    place.map_or(0, |root| Kind::Clone.word(root.height * 65536 + root.block))
}

// The clone that a word would hold, if it holds one.
fn read_clone(word: u32) -> Option<Root>
    ensures { root_of result ≡ clone_read word }
{
    if word == 0 {
        None
    } else {
        Some(Root {
            height: payload(word) / 65536,
            block: word % 65536,
        })
    }
}

// The slot that words would hold, if they hold one.
fn slot_loose(words: &[u32]) -> Slot
    requires { 32 ≤ length words.now }
    ensures { slot_of result ≡ slot_loose words.now }
{
    Slot {
        generation: payload(words[0]),
        places: array::from_fn(|i| read_clone(words[i + 1])),
    }
}

// Whether a clone that is there has a height from 1 to 5, and its root in a block from 2 on.
fn is_rooted(place: Option<Root>, blocks: u32) -> bool
    ensures { result ≡ rooted blocks (root_of place) }
{
    match place {
        None => true,
        Some(root) => 1 <= root.height
            && root.height <= 5
            && 2 <= root.block
            && root.block < blocks,
    }
}

impl Stored for Slot {
    ghost use Rattle.std.specs.Prelude.{⊤};
    ghost use Rattle.page.specs.Slot.{slot_words};
    ghost use Rattle.page.specs.View.{slot_of};

    ghost words_of = { λ w s. slot_words w (slot_of s).0 (slot_of s).1 };

    ghost storable = { λ _. ⊤ };

    fn encode(&self, out: &mut [u32]) {
        out.fill(0);
        out[0] = Kind::Slot.word(self.generation);
        for (i, place) in self.places.iter().enumerate() {
            out[i + 1] = clone_word(*place);
        }
    }
}

impl Slot {
    ghost use Rattle.std.specs.Prelude.{◌≡◌};
    ghost use Rattle.std.specs.Option.{option_map};
    ghost use Rattle.page.specs.Slot.{decode_slot, slot_stands, every, rooted};
    ghost use Rattle.page.specs.View.{slot_of, root_of};

    // The slot that words hold, if they are the words of one.
    pub fn decode(words: &[u32]) -> Option<Slot>
        requires wide { (32 ≤ length words.now) × (length words.now ≤ 40) }
        ensures { option_map slot_of result ≡ decode_slot words.now }
    {
        let slot = slot_loose(words);
        let mut buffer = [0u32; 40];
        let again = &mut buffer[..words.len()];
        slot.encode(again);
        if words == again { Some(slot) } else { None }
    }

    // Whether each clone's root stands, on a device of so many blocks.
    fn is_rooted(&self, blocks: u32) -> bool
        ensures { result ≡ every (rooted blocks) (map root_of self.now.places) }
    {
        self.places.iter().all(|place| is_rooted(*place, blocks))
    }

    // Whether the slot may stand in a block: its parity is the block's, and each root is one; `blocks` is how many blocks there are.
    pub fn stands(&self, blocks: u32, block: u32) -> bool
        ensures { result ≡ slot_stands blocks block (slot_of self.now) }
    {
        self.generation % 2 == block && self.is_rooted(blocks)
    }
}
