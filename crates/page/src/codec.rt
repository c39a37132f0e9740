// The words of pages.
ghost use Rattle.std.specs.Prelude.{◌≡◌, ℕ, ◌<◌, ◌≤◌, ◌==◌, length, is_some};
ghost use Rattle.word.specs.Words.{word_of, payload_of, number};
ghost use Rattle.page.specs.Block.{header_of, value_kind, decode};

use super::page::Page;
use super::stored::Stored;
use word::{Kind, payload};

// The first word of a page.
fn header_word(level: u32, len: u32) -> u32
    requires { (level < 5) × (len ≤ 15) }
    ensures { result ≡ header_of level len }
{
    if level == 0 {
        Kind::Leaf.word(len)
    } else {
        Kind::Index.word(level * 256 + len)
    }
}

// The kind of an entry's second word.
fn value_kind(level: u32) -> Kind
    ensures { number result ≡ value_kind level }
{
    if level == 0 { Kind::Angle } else { Kind::Child }
}

// Whether a word is of a kind.
fn is_of(word: u32, kind: Kind) -> bool
    ensures { result ≡ (word == word_of (number kind) (payload_of word)) }
{
    word == kind.word(payload(word))
}

// Whether words are those of a page: the kind of each, what the header may say, and zeros where nothing stands.
pub fn is_page(words: &[u32]) -> bool
    requires wide { 32 ≤ length words.now }
    ensures { result ≡ is_some (decode words.now) }
{
    let len = (words[0] % 256) as usize;
    let level = payload(words[0]) / 256;
    if len > 15 || level > 4 || words[0] != header_word(level, len as u32) || words[1] != 0 {
        return false;
    }
    let kind = value_kind(level);
    let mut kinds = true;
    for i in 0..len {
        kinds &= is_of(words[2 * i + 2], Kind::Speed);
        kinds &= is_of(words[2 * i + 3], kind);
    }
    kinds && words[2 * len + 2..].iter().all(|word| *word == 0)
}

impl Stored for Page {
    ghost use Rattle.std.specs.Prelude.{◌<◌};
    ghost use Rattle.page.specs.Block.{encode};
    ghost use Rattle.page.specs.View.{view};

    ghost words_of = { λ w p. encode w (view p) };

    ghost storable = { λ p. p.level < 5 };

    fn encode(&self, out: &mut [u32]) {
        let entries = self.entries.as_slice();
        out.fill(0);
        out[0] = header_word(self.level, entries.len() as u32);
        for (i, entry) in entries.iter().enumerate() {
            out[2 * i + 2] = Kind::Speed.word(entry.speed);
            out[2 * i + 3] = value_kind(self.level).word(entry.value);
        }
    }
}
