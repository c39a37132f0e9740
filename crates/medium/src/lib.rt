// What lies below the devices of the programs: the words of a memory, and of a mirror of it with a log.
#![tactic(auto)]

ghost use Rattle.std.specs.Prelude.{◌≡◌, ◌+◌, ◌*◌, ◌∷◌, length, replicate, IfOk, MatchResult};
ghost use Rattle.device.specs.Meaning.{Limits};
ghost use Rattle.memory.specs.Memory.{memory, parts, parts_of, Shaped};
ghost use Rattle.word.specs.Words.{word_of};
ghost use Rattle.medium.specs.Held.{held, opened};
ghost use Rattle.medium.specs.Built.{Buildable, built};
ghost use Rattle.medium.specs.Faults.{fault_number, log_fault};
ghost use Rattle.medium.specs.Sides.{Planned, shown, Refused};
ghost use Rattle.medium.specs.Outlasts.{Outlasts};
ghost use Rattle.medium.specs.declared.Fault.{Fault};

use check_layer::Check;
use device::{Device, Unshaped, is_shape};
use log_device::{Log, LogRefusal, Unopened};
use memory::Memory;
use mirror::Mirror;
use std::alloc::{AllocError, Global};
use thiserror::Error;
use word::Kind;

// A mirror of (check over memory) and (check over log).
pub type Mirrored<'a> = Mirror<Check<Memory<'a>>, Check<Log<'a>>>;

// What words become that a failing power leaves to chance.
pub const GARBAGE: u32 = 0xdead_dead;

// Why there are no devices.
#[derive(Clone, Copy, PartialEq, Eq, Debug, Drop, Error)]
pub enum Fault {
    // The blocks, their width or the room of the log are beyond the limits, or the sides of a mirror are not of one shape.
    #[error("refused 2")]
    Shape,
    // The head or the word of a flushed record is not one of the log.
    #[error("refused 15")]
    Malformed,
}

impl Fault {
    // The fault's number among the refusals.
    pub fn number(self) -> u8
        ensures { result ≡ fault_number self }
    {
        match self {
            Fault::Shape => 2,
            Fault::Malformed => 15,
        }
    }
}

impl<T: Drop> From<Unshaped<T>> for Fault {
    ghost from_gives = { λ _ r. r ≡ Fault.Shape };

    fn from(_: Unshaped<T>) -> Fault {
        Fault::Shape
    }
}

impl<'a> From<Unopened<'a>> for Fault {
    ghost from_gives = { λ unopened r. r ≡ log_fault unopened.refusal };

    fn from(unopened: Unopened<'a>) -> Fault {
        match unopened.refusal {
            LogRefusal::Shape => Fault::Shape,
            LogRefusal::Malformed => Fault::Malformed,
        }
    }
}

// The words and marks of a memory.
#[derive(Drop)]
pub struct Words {
    current: Vec<u32>,
    persisted: Vec<u32>,
    marks: Vec<u8>,
    width: usize,
}

impl Words {
    // Refuses all but 1 to 4,096 blocks of 1 to 64 words each.
    pub fn check(blocks: u32, width: u32) -> Result<(), Fault>
        ensures { MatchResult result
            (λ _. Limits blocks width)
            (λ fault. (fault ≡ Fault.Shape) × (Limits blocks width → ⊥)) }
    {
        if is_shape(blocks as usize, width as usize) {
            Ok(())
        } else {
            Err(Fault::Shape)
        }
    }

    // Words of 0 for so many blocks of so many words each.
    pub fn blank(heap: Global, blocks: u32, width: u32) -> Result<Words, AllocError>
        requires { Limits blocks width }
        ensures { IfOk result (λ words. held words
            ≡ parts (replicate (blocks * width) 0) (replicate (blocks * width) 0) (replicate blocks 0) width) }
    {
        let blocks = blocks as usize;
        let width = width as usize;
        Ok(Words {
            current: vec![in heap; 0u32; blocks * width]?,
            persisted: vec![in heap; 0u32; blocks * width]?,
            marks: vec![in heap; 0u8; blocks]?,
            width,
        })
    }

    // Opens the memory: what its words show after a cut of the power.
    pub fn open(&mut self) -> Result<Memory<'_>, Fault>
        ensures { MatchResult result
            (λ s. memory (parts_of s.slices s.width) ≡ opened self.old)
            (λ fault. (fault ≡ Fault.Shape) × (Shaped (held self.old) → ⊥)) }
    {
        let width = self.width;
        Ok(Memory::open(
            &mut self.current,
            &mut self.persisted,
            &mut self.marks,
            width,
        )?)
    }
}

// What lies below a mirror of (check over memory) and (check over log).
#[derive(Drop)]
pub struct Sides {
    words: Words,
    image: Vec<u32>,
    blocks: u32,
}

impl Sides {
    // Refuses all but 1 to 4,096 blocks of at most 63 words each, and room in the log for at most 1,000,000 writes.
    pub fn check(blocks: u32, width: u32, records: u32) -> Result<(), Fault>
        ensures { MatchResult result
            (λ _. Planned blocks width records)
            (λ fault. (fault ≡ Fault.Shape) × (Planned blocks width records → ⊥)) }
    {
        if is_shape(blocks as usize, width as usize + 1) && records <= 1_000_000 {
            Ok(())
        } else {
            Err(Fault::Shape)
        }
    }

    // A mirror that was never written, of so many blocks of so many words, whose log has room for so many writes.
    pub fn blank(heap: Global, blocks: u32, width: u32, records: u32) -> Result<Sides, AllocError>
        requires { Planned blocks width records }
        ensures image { IfOk result (λ sides. sides.image.items ≡ word_of 8 0 ∷ replicate (records * (width + 2)) 0) }
        ensures words { IfOk result (λ sides. held sides.words
            ≡ parts (replicate (blocks * (width + 1)) 0) (replicate (blocks * (width + 1)) 0) (replicate blocks 0) (width + 1)) }
        ensures blocks { IfOk result (λ sides. sides.blocks ≡ blocks) }
    {
        // The word of the check, and in a log the word of the block.
        let mut image = vec![in heap; 0u32; 1 + records as usize * (width as usize + 2)]?;
        image[0] = Kind::Log.word(0);
        Ok(Sides {
            words: Words::blank(heap, blocks, width + 1)?,
            image,
            blocks,
        })
    }

    // The power fails: of the memory only the persisted words are left.
    pub fn lose_power(&mut self)
        ensures lost { self.new.words.current.items ≡ replicate (length self.old.words.current.items) GARBAGE }
        ensures persisted { self.new.words.persisted.items ≡ self.old.words.persisted.items }
        ensures marks { self.new.words.marks.items ≡ self.old.words.marks.items }
        ensures width { self.new.words.width ≡ self.old.words.width }
        ensures image { self.new.image.items ≡ self.old.image.items }
        ensures blocks { self.new.blocks ≡ self.old.blocks }
    {
        self.words.current.fill(GARBAGE);
    }

    // Opens both sides, and builds the layers over them. What it shows after a cut of the power is a cut of what was shown.
    pub fn open(&mut self) -> Result<Mirrored<'_>, Fault>
        ensures opened { MatchResult result
            (λ s. ⟦<Mirrored<'static> as Device>⟧.meaning s ≡ shown self.old)
            (λ fault. Refused fault self.old) }
        ensures cut { IfOk result (λ s. Outlasts self.old (⟦<Mirrored<'static> as Device>⟧.meaning s)) }
    {
        let blocks = self.blocks;
        let width = self.words.width;
        let log = Log::open(&mut self.image, blocks, width)?;
        let memory = self.words.open()?;
        checked_mirror(memory, log)
    }
}

// A mirror of two check layers.
fn checked_mirror<A: Device + Drop, B: Device + Drop>(
    first: A,
    second: B,
) -> Result<Mirror<Check<A>, Check<B>>, Fault>
    ensures { MatchResult result
        (λ s. ⟦<Mirror<Check<A>, Check<B>> as Device>⟧.meaning s ≡ built (A.Device.meaning first) (B.Device.meaning second))
        (λ fault. (fault ≡ Fault.Shape) × (Buildable (A.Device.meaning first) (B.Device.meaning second) → ⊥)) }
{
    Ok(Mirror::build(Check::build(first)?, Check::build(second)?)?)
}
