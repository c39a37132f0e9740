// Block devices, known by their meaning alone. The rules are stated in docs/devices.md.
#![tactic(auto)]

ghost use Rattle.std.specs.Prelude.{◌≡◌, ℕ, List, [], ◌∷◌, ◌++◌, length, MatchBool};
ghost use Rattle.device.specs.declared.Layer.{Layer};
ghost use Rattle.device.specs.Numbers.{layer_code, fault_number, fault_mark, shape_number};
ghost use Rattle.device.specs.Meaning.{Meaning, Shown, Readable, Limits, Lawful, Cut, own, admitted, count_of, shown_of, reading, writing, answered, filled, after_write, flushed, raised, raised_fault, passed};
ghost use Rattle.device.specs.Cuts.{Op, Op.flush, replay, written_ops, CutsAgree};

use std::fmt;
use thiserror::Error;

// What a device is made of: the layer that finds a fault signs it.
#[derive(Clone, Copy, PartialEq, Eq, Debug)]
pub enum Layer {
    Memory = 1,
    Log = 2,
    Check = 3,
    Mirror = 4,
    Quota = 5,
}

// What refusals call the layer.
impl fmt::Display for Layer {
    fn fmt<W: fmt::Write>(&self, f: &mut fmt::Formatter<W>) -> fmt::Result {
        write!(f, "{}", self.code())
    }
}

// The layer that found a fault, and how many layers lie above it, at most 255.
#[derive(Clone, Copy, PartialEq, Eq, Debug)]
pub struct LayerMark {
    pub layer: Layer,
    pub depth: u8,
}

impl fmt::Display for LayerMark {
    fn fmt<W: fmt::Write>(&self, f: &mut fmt::Formatter<W>) -> fmt::Result {
        write!(f, "layer {} depth {}", self.layer, self.depth)
    }
}

// Why a device refuses.
#[derive(Clone, Copy, PartialEq, Eq, Debug, Drop, Error)]
pub enum DeviceFault {
    #[error("the buffer is not as wide as a block ({0})")]
    Length(LayerMark),
    #[error("there is no such block ({0})")]
    Range(LayerMark),
    #[error("no write is left ({0})")]
    Worn(LayerMark),
    #[error("the block's content is damaged ({0})")]
    Damaged(LayerMark),
}

// The refusal of a shape that breaks the limits, in opening or building: what was handed over comes back.
#[derive(Drop)]
pub struct Unshaped<T> {
    pub given: T,
}

// What can only be read. Lookups need no more of it.
pub trait Reader {
    // The layer that this reader is.
    ghost code: { Layer };

    // What it shows: the width and each block's content.
    ghost shown: { Self → Shown };

    // All else that a read leaves as it was. A device has its whole meaning in it, and a layer all that lies below: with
    // what is shown, it determines all that later calls can answer.
    ghost Rest: { Type 0 };

    ghost rest: { Self → Rest };

    // The layer, as refusals name it.
    fn layer(&self) -> Layer
        ensures { result ≡ code };

    // The number of blocks.
    fn blocks(&self) -> u32
        ensures { result ≡ count_of (shown self.now) };

    // The number of words in a block.
    fn width(&self) -> u32
        ensures { result ≡ (shown self.now).width };

    // Fills the buffer with the block's content.
    fn read(&mut self, block: u32, out: &mut [u32]) -> Result<(), DeviceFault>
        ensures same { shown self.new ≡ shown self.old }
        ensures rest { rest self.new ≡ rest self.old }
        ensures answer { result ≡ answered (reading code (shown self.old) block (length out.old)) }
        ensures buffer { out.new ≡ filled (reading code (shown self.old) block (length out.old)) out.old };

    // Refuses a buffer that is not as wide as a block, and then a block that is not there.
    fn admit(&self, block: u32, len: usize) -> Result<(), DeviceFault>
        ensures { result ≡ admitted code (shown self.now) block len }
    {
        if len != self.width() as usize {
            return Err(DeviceFault::Length(self.layer().own()));
        }
        if block >= self.blocks() {
            return Err(DeviceFault::Range(self.layer().own()));
        }
        Ok(())
    }

    // What is shown keeps the limits of every reader.
    ghost readable: { (x : Self) → Readable (shown x) };
}

pub trait Device: Reader {
    // What the device means.
    ghost meaning: { Self → Meaning };

    // `led os x y`: the calls `os`, in this order and no others, led this device from state `x` to state `y`. It relates
    // states, not meanings, and nothing is known of it but what `write`, `flush` and the laws below say. So a caller can
    // show no calls but those it made, also where other calls would have led back to the same meaning.
    ghost led: { List Op → Self → Self → Type 0 };

    // How many writes are left (4,294,967,295: without end), and which layer sets that limit.
    fn left(&self) -> (u32, LayerMark)
        ensures { result ≡ ((meaning self.now).left, (meaning self.now).left_mark) };

    // Makes the words the block's current content. A refused write is no call.
    fn write(&mut self, block: u32, words: &[u32]) -> Result<(), DeviceFault>
        ensures after { meaning self.new ≡ after_write result (meaning self.old) block words.now }
        ensures answer { result ≡ writing Self.code (meaning self.old) block (length words.now) }
        ensures calls { led (written_ops result block words.now) self.old self.new };

    // Makes every current content the persisted one.
    fn flush(&mut self)
        ensures after { meaning self.new ≡ flushed (meaning self.old) }
        ensures calls { led (flush ∷ []) self.old self.new };

    // A reader of the device is shown its current contents.
    ghost shows: { (x : Self) → Self.shown x ≡ shown_of (meaning x) };

    // What a read leaves as it was determines the meaning, so a read keeps the meaning.
    ghost kept: { (x y : Self) → Self.shown x ≡ Self.shown y → Self.rest x ≡ Self.rest y → meaning x ≡ meaning y };

    // The meaning keeps the rules of every device.
    ghost fit: { (x : Self) → Lawful (meaning x) };

    // A read is none of the calls: two states that show the same and have the same rest are led to one another by none.
    ghost quiet: { (x y : Self) → Self.shown x ≡ Self.shown y → Self.rest x ≡ Self.rest y → led [] x y };

    // Calls that follow one another are one list of calls.
    ghost goes_on: { (os ps : List Op) (x y z : Self) → led os x y → led ps y z → led (os ++ ps) x z };

    // The calls determine what becomes of the meaning.
    ghost replays: { (os : List Op) (x y : Self) → led os x y → meaning y ≡ replay os (meaning x) };
}

impl Layer {
    // The layer's code, as refusals print it.
    pub fn code(self) -> u8
        ensures { result ≡ layer_code self }
    {
        self as u8
    }

    // The mark of a fault that the layer finds itself.
    pub fn own(self) -> LayerMark
        ensures { result ≡ own self }
    {
        LayerMark {
            layer: self,
            depth: 0,
        }
    }
}

impl LayerMark {
    // The mark of a fault as one layer further up passes it on.
    pub fn raised(self) -> LayerMark
        ensures { result ≡ raised self }
    {
        LayerMark {
            layer: self.layer,
            depth: self.depth.saturating_add(1),
        }
    }
}

impl DeviceFault {
    // The refusal's number.
    pub fn number(self) -> u8
        ensures { result ≡ fault_number self }
    {
        match self {
            DeviceFault::Length(_) => 3,
            DeviceFault::Range(_) => 4,
            DeviceFault::Worn(_) => 11,
            DeviceFault::Damaged(_) => 14,
        }
    }

    // The mark that the refusal carries.
    pub fn mark(self) -> LayerMark
        ensures { result ≡ fault_mark self }
    {
        match self {
            DeviceFault::Length(mark)
            | DeviceFault::Range(mark)
            | DeviceFault::Worn(mark)
            | DeviceFault::Damaged(mark) => mark,
        }
    }

    // The fault as one layer further up passes it on.
    pub fn raised(self) -> DeviceFault
        ensures { result ≡ raised_fault self }
    {
        match self {
            DeviceFault::Length(m) => DeviceFault::Length(m.raised()),
            DeviceFault::Range(m) => DeviceFault::Range(m.raised()),
            DeviceFault::Worn(m) => DeviceFault::Worn(m.raised()),
            DeviceFault::Damaged(m) => DeviceFault::Damaged(m.raised()),
        }
    }
}

impl<T> Unshaped<T> {
    // The refusal's number.
    pub fn number(&self) -> u8
        ensures { result ≡ shape_number }
    {
        2
    }
}

// May a device have so many blocks, 1 to 4,096, of so many words each, 1 to 64?
pub fn is_shape(blocks: usize, width: usize) -> bool
    ensures { MatchBool result (Limits blocks width) (Limits blocks width → ⊥) }
{
    (1..=4096).contains(&blocks) && (1..=64).contains(&width)
}

// An answer from below, as one layer further up passes it on.
pub fn pass_up(answer: Result<(), DeviceFault>) -> Result<(), DeviceFault>
    ensures { result ≡ passed answer }
{
    answer.map_err(DeviceFault::raised)
}

// A cut is a function of its choices: what it chooses is a cut by the rule, and every cut by the rule is so chosen.
pub fn cuts_are_choices()
    ensures { CutsAgree }
{}

// What a cut leaves of what a cut left is a cut of what stood before both.
pub fn cuts_compose()
    ensures { (m n p : Meaning) → Cut m n → Cut n p → Cut m p }
{}
