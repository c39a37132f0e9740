// The words of all formats: 32 bits, of which the top 4 are the kind and the other 28 the payload.
#![tactic(auto)]

ghost use Rattle.std.specs.Prelude.{◌≡◌, ◌^◌, ◌<◌};
ghost use Rattle.word.specs.Words.{payload_of, word_of, number, KindIs};

use thiserror::Error;

// What a word is for.
#[derive(Clone, Copy, PartialEq, Eq, Debug)]
pub enum Kind {
    // The header of a leaf.
    Leaf = 1,
    // The header of an index block.
    Index = 2,
    // A speed or a separator.
    Speed = 3,
    // An angle, in a leaf.
    Angle = 4,
    // A child's block, in an index block.
    Child = 5,
    // The header of a slot.
    Slot = 6,
    // A clone that is there, in a slot.
    Clone = 7,
    // The head of a log.
    Log = 8,
    // The head of a log's record.
    Record = 9,
}

// All kinds, in order.
const KINDS: [Kind; 9] = [
    Kind::Leaf,
    Kind::Index,
    Kind::Speed,
    Kind::Angle,
    Kind::Child,
    Kind::Slot,
    Kind::Clone,
    Kind::Log,
    Kind::Record,
];

impl Kind {
    // The word of this kind with a payload.
    pub fn word(self, payload: u32) -> u32
        requires { payload < 2 ^ 28 }
        ensures { result ≡ word_of (number self) payload }
    {
        self as u32 * 0x1000_0000 + payload
    }
}

// The payload of a word.
pub fn payload(word: u32) -> u32
    ensures { result ≡ payload_of word }
{
    word % 0x1000_0000
}

// The number in a word's top 4 bits, which is no kind's.
#[derive(Clone, Copy, PartialEq, Eq, Debug, Error)]
#[error("no word is of kind {0}")]
pub struct UnknownKind(pub u32);

// The kind of a word.
impl TryFrom<u32> for Kind {
    type Error = UnknownKind;

    ghost try_from_gives = { KindIs };

    fn try_from(word: u32) -> Result<Kind, UnknownKind> {
        let number = word / 0x1000_0000;
        KINDS
            .iter()
            .copied()
            .find(|kind| *kind as u32 == number)
            .ok_or(UnknownKind(number))
    }
}
