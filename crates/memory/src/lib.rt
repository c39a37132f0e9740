// A device in memory, over three lent slices: the current words, the persisted words and a mark for each block.
// Only the persisted words outlast a cut of the power.
#![tactic(auto)]

ghost use Rattle.std.specs.Prelude.{◌≡◌, ℕ, ◌+◌, ◌<◌, ◌≤◌, length, replicate, slice_index, IfOk, MatchBool, MatchResult};
ghost use Rattle.std.specs.List.{AllByRecursion};
ghost use Rattle.device.specs.declared.Layer.{Layer};
ghost use Rattle.device.specs.Meaning.{Meaning, written, shown_of};
ghost use Rattle.device.specs.Cuts.{replay, replay_goes_on};
ghost use Rattle.device.specs.Showing.{readable};
ghost use Rattle.std.proofs.Common.{refl, sym};
ghost use Rattle.std.proofs.Props.{props};
ghost use Rattle.memory.specs.Fit.{fit};
ghost use Rattle.memory.specs.Memory.{Parts, memory, parts, parts_of, Sound, Shaped, block_of, cleared, Outlasts};

use device::{Device, DeviceFault, Layer, LayerMark, Reader, Unshaped, is_shape};

#[derive(Drop)]
pub struct Memory<'a> {
    slices: Slices<'a>,
    width: usize,
    ghost sound: { Sound (parts_of slices width) } by { Prim.hlevel props },
}

// What a memory is made of: each slice is lent apart, since only the persisted words outlast a cut.
#[derive(Drop)]
pub struct Slices<'a> {
    pub current: &'a mut [u32],
    pub persisted: &'a mut [u32],
    pub marks: &'a mut [u8],
}

impl<'a> Slices<'a> {
    // Are there as many blocks as marks, 1 to 4,096, of 1 to 64 words, and words for each of them?
    fn is_shaped(&self, width: usize) -> bool
        ensures { MatchBool result (Shaped (parts_of self.now width)) (Shaped (parts_of self.now width) → ⊥) }
    {
        let blocks = self.marks.len();
        is_shape(blocks, width)
            && self.current.len() == blocks * width
            && self.persisted.len() == blocks * width
    }

    // Makes the words the current ones of a block, and counts the write in its mark.
    fn put(&mut self, block: usize, words: &[u32])
        requires sound { Sound (parts_of self.old (length words.now)) }
        requires there { block < length self.old.marks.now }
        ensures sound { Sound (parts_of self.new (length words.now)) }
        ensures after { memory (parts_of self.new (length words.now)) ≡ written (memory (parts_of self.old (length words.now))) block words.now }
    {
        let from = block * words.len();
        self.marks[block] = self.marks[block].saturating_add(1).min(2);
        self.current[from..from + words.len()].copy_from_slice(words);
    }

    // Makes the persisted words the current ones, and marks no block.
    fn restore(&mut self)
        requires { length self.old.current.now ≡ length self.old.persisted.now }
        ensures current { self.new.current.now ≡ self.old.persisted.now }
        ensures persisted { self.new.persisted.now ≡ self.old.persisted.now }
        ensures marks { self.new.marks.now ≡ replicate (length self.old.marks.now) 0 }
    {
        settle(self.persisted, self.current, self.marks);
    }

    // Makes the current words the persisted ones, and marks no block.
    fn persist(&mut self, width: usize)
        requires { Sound (parts_of self.old width) }
        ensures current { self.new.current.now ≡ self.old.current.now }
        ensures persisted { self.new.persisted.now ≡ self.old.current.now }
        ensures marks { self.new.marks.now ≡ replicate (length self.old.marks.now) 0 }
    {
        // A copy of all blocks takes no more than a look at all marks where a block is this narrow.
        if width < 4 {
            settle(self.current, self.persisted, self.marks);
        } else {
            settle_marked(self.current, self.persisted, self.marks, width);
        }
    }
}

// Copies one content over the other, and marks no block. The first stays as it is: it is lent as `&mut` because it is a
// field behind a `&mut` at the calls.
fn settle(from: &mut [u32], to: &mut [u32], marks: &mut [u8])
    requires { length to.old ≡ length from.old }
    ensures from { from.new ≡ from.old }
    ensures to { to.new ≡ from.old }
    ensures marks { marks.new ≡ replicate (length marks.old) 0 }
{
    to.copy_from_slice(from);
    marks.fill(0);
}

// The same where the contents differ in marked blocks alone: only these are copied, a run of them at once. Sixteen blocks of
// which none is marked are stepped over, and sixteen of which one is marked are gone through one by one.
fn settle_marked(from: &mut [u32], to: &mut [u32], marks: &mut [u8], width: usize)
    requires { Sound (parts from.old to.old marks.old width) }
    ensures from { from.new ≡ from.old }
    ensures to { to.new ≡ from.old }
    ensures marks { marks.new ≡ replicate (length marks.old) 0 }
{
    let blocks = marks.len();
    let mut block = 0;
    let mut looked = 0;
    while block < blocks {
        if block >= looked && blocks - block >= 16 && highest_of(marks, block) == 0 {
            block += 16;
        } else {
            if block >= looked {
                looked = block + 16;
            }
            let run = marked_run(marks, block);
            if run == 0 {
                block += 1;
            } else {
                let start = block * width;
                let words = run * width;
                to[start..start + words].copy_from_slice(&from[start..start + words]);
                marks[block..block + run].fill(0);
                block += run;
            }
        }
    }
}

// How many blocks from a place on are marked, up to the first that is not.
fn marked_run(marks: &[u8], from: usize) -> usize
    requires { from < length marks.now }
    ensures within { from + result ≤ length marks.now }
    ensures marked { (i : ℕ) → from ≤ i → i < from + result → 0 < slice_index marks.now i }
    ensures end { from + result < length marks.now → slice_index marks.now (from + result) ≡ 0 }
{
    let mut run = 0;
    while from + run < marks.len() && marks[from + run] > 0 {
        run += 1;
    }
    run
}

// The highest of sixteen marks.
fn highest_of(marks: &[u8], from: usize) -> u8
    requires { from + 16 ≤ length marks.now }
    ensures { result ≡ 0 → (i : ℕ) → from ≤ i → i < from + 16 → slice_index marks.now i ≡ 0 }
{
    let mut high = 0;
    for i in from..from + 16 {
        high = high.max(marks[i]);
    }
    high
}

impl<'a> Memory<'a> {
    // Makes the persisted words the current ones, with no block marked. There are as many blocks as marks, 1 to 4,096,
    // of 1 to 64 words; a wrong shape is refused, and the slices come back unchanged.
    pub fn open(
        current: &'a mut [u32],
        persisted: &'a mut [u32],
        marks: &'a mut [u8],
        width: usize,
    ) -> Result<Memory<'a>, Unshaped<Slices<'a>>>
        ensures opened { MatchResult result
            (λ s. Shaped (parts current.old persisted.old marks.old width)
            × (memory (parts_of s.slices s.width) ≡ cleared persisted.old (length marks.old) width))
            (λ e. (Shaped (parts current.old persisted.old marks.old width) → ⊥)
            × (e.given.current.now ≡ current.old) × (e.given.persisted.now ≡ persisted.old) × (e.given.marks.now ≡ marks.old)) }
        ensures cut { IfOk result (λ s. Outlasts persisted.old (length marks.old) width (memory (parts_of s.slices s.width))) }
    {
        let mut slices = Slices {
            current,
            persisted,
            marks,
        };
        if !slices.is_shaped(width) {
            return Err(Unshaped { given: slices });
        }
        slices.restore();
        Ok(Memory { slices, width })
    }

    // Gives the slices back as they are.
    pub fn into_slices(self) -> Slices<'a>
        ensures { (result.current.now ≡ self.entry.slices.current.now) × (result.persisted.now ≡ self.entry.slices.persisted.now) × (result.marks.now ≡ self.entry.slices.marks.now) }
    {
        self.slices
    }

    // The current words of a block.
    fn words(&self, block: usize) -> &[u32]
        requires { block < length self.now.slices.marks.now }
        ensures { result.now ≡ block_of self.now.width self.now.slices.current.now block }
    {
        let from = block * self.width;
        &self.slices.current[from..from + self.width]
    }
}

impl<'a> Reader for Memory<'a> {
    ghost code = { Layer.Memory };

    ghost shown = { λ s. shown_of (memory (parts_of s.slices s.width)) };

    ghost Rest = { Meaning };

    ghost rest = { λ s. memory (parts_of s.slices s.width) };

    fn layer(&self) -> Layer {
        Layer::Memory
    }

    fn blocks(&self) -> u32 {
        self.slices.marks.len() as u32
    }

    fn width(&self) -> u32 {
        self.width as u32
    }

    fn read(&mut self, block: u32, out: &mut [u32]) -> Result<(), DeviceFault> {
        self.admit(block, out.len())?;
        out.copy_from_slice(self.words(block as usize));
        Ok(())
    }

    ghost readable = { λ s. readable (memory (parts_of s.slices s.width)) (fit (parts_of s.slices s.width) s.sound) };
}

impl<'a> Device for Memory<'a> {
    ghost meaning = { λ s. memory (parts_of s.slices s.width) };

    // Nothing lies below, and the meaning shows every word of the slices and every mark.
    ghost led = { λ os x y. memory (parts_of y.slices y.width) ≡ replay os (memory (parts_of x.slices x.width)) };

    fn left(&self) -> (u32, LayerMark) {
        (u32::MAX, Layer::Memory.own())
    }

    fn write(&mut self, block: u32, words: &[u32]) -> Result<(), DeviceFault> {
        self.admit(block, words.len())?;
        self.slices.put(block as usize, words);
        Ok(())
    }

    fn flush(&mut self) {
        self.slices.persist(self.width);
    }

    ghost shows = { λ s. refl };

    ghost kept = { λ x y shown rest. rest };

    ghost fit = { λ s. fit (parts_of s.slices s.width) s.sound };

    ghost quiet = { λ x y shown rest. sym rest };

    ghost goes_on = { λ os ps x y z. replay_goes_on os ps (memory (parts_of x.slices x.width)) (memory (parts_of y.slices y.width)) (memory (parts_of z.slices z.width)) };

    ghost replays = { λ os x y led. led };
}

// What a memory means hides nothing of it: it determines all three slices, word by word.
pub fn slices_are_shown()
    ensures { (p q : Parts) → Shaped p → Shaped q → memory p ≡ memory q → p ≡ q }
{}

#[cfg(test)]
mod tests {
    use super::*;
    use std::test::Fail;

    #[test]
    fn unflushed_writes_are_lost(rt: HostRuntime) -> Result<(), Fail> {
        let mut current = [9, 9, 9, 9];
        let mut persisted = [1, 2, 3, 4];
        let mut marks = [7, 7];
        let Ok(mut memory) = Memory::open(&mut current, &mut persisted, &mut marks, 2) else {
            return Err(Fail::new("a good shape is refused"));
        };
        assert_eq!(rt; memory.blocks(), 2);
        assert_eq!(rt; memory.width(), 2);
        let mut out = [0, 0];
        memory.write(0, &[5, 6])?;
        memory.flush();
        memory.write(1, &[7, 8])?;
        memory.read(1, &mut out)?;
        assert_eq!(rt; out, [7, 8]);
        let Slices {
            current,
            persisted,
            marks,
        } = memory.into_slices();
        let Ok(mut memory) = Memory::open(current, persisted, marks, 2) else {
            return Err(Fail::new("it does not open again"));
        };
        memory.read(0, &mut out)?;
        assert_eq!(rt; out, [5, 6]);
        memory.read(1, &mut out)?;
        assert_eq!(rt; out, [3, 4]);
        Ok(())
    }

    #[test]
    fn length_before_block(rt: HostRuntime) -> Result<(), Fail> {
        let mut current = [0, 0];
        let mut persisted = [1, 2];
        let mut marks = [0];
        let Ok(mut memory) = Memory::open(&mut current, &mut persisted, &mut marks, 2) else {
            return Err(Fail::new("a good shape is refused"));
        };
        let mut long = [0, 0, 0];
        let mut out = [0, 0];
        assert_eq!(rt;
            memory.read(1, &mut long),
            Err(DeviceFault::Length(Layer::Memory.own()))
        );
        assert_eq!(rt;
            memory.read(1, &mut out),
            Err(DeviceFault::Range(Layer::Memory.own()))
        );
        assert_eq!(rt;
            memory.write(1, &[1]),
            Err(DeviceFault::Length(Layer::Memory.own()))
        );
        assert_eq!(rt;
            memory.write(1, &[1, 1]),
            Err(DeviceFault::Range(Layer::Memory.own()))
        );
        assert_eq!(rt; memory.left(), (u32::MAX, Layer::Memory.own()));
        Ok(())
    }

    #[test]
    fn wrong_shapes_come_back(rt: HostRuntime) -> Result<(), Fail> {
        let mut current = [9, 9, 9];
        let mut persisted = [1, 2, 3, 4];
        let mut marks = [7, 7];
        let Err(refused) = Memory::open(&mut current, &mut persisted, &mut marks, 2) else {
            return Err(Fail::new("a short slice is opened"));
        };
        assert_eq!(rt; refused.number(), 2);
        let Unshaped {
            given: Slices {
                current,
                persisted,
                marks,
            },
        } = refused;
        assert!(rt; current.len() == 3 && persisted.len() == 4 && marks.len() == 2);
        let first = current[0];
        assert_eq!(rt; first, 9);
        assert!(rt; Memory::open(current, persisted, marks, 0).is_err());
        Ok(())
    }
}
