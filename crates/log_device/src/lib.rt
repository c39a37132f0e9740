// A device in one lent slice of words: a head, and then records that are only ever added. The head says how many records
// are flushed, and these outlast a cut of the power.
#![tactic(auto)]

ghost use Rattle.std.specs.Prelude.{◌≡◌, ◌+◌, ◌-◌, ◌*◌, ◌^◌, ◌<◌, ◌≤◌, ◌∷◌, length, take, drop, replicate, MatchBool, MatchOption, MatchResult, None, Some, slice_index, slice_index_or, slice_set};
ghost use Rattle.std.specs.List.{AllByRecursion};
ghost use Rattle.arrayvec.specs.ArrayVec.{array_vec_len};
ghost use Rattle.device.specs.declared.Layer.{Layer};
ghost use Rattle.device.specs.Meaning.{Meaning, Limits, shown_of};
ghost use Rattle.device.specs.Cuts.{replay, replay_goes_on};
ghost use Rattle.device.specs.Showing.{readable};
ghost use Rattle.std.proofs.Common.{refl, ap, sym};
ghost use Rattle.std.proofs.Props.{props};
ghost use Rattle.log_device.specs.Fit.{fit, image_goes_on};
ghost use Rattle.log_device.specs.Log.{log_of, opened_log, Image, image_of, replay_image, Sound, Indexed, records, last_of, capacity, IsRecord, AreRecords, Shaped, Formed, Outlasts, place_of, flushed_in};
ghost use Rattle.log_device.specs.declared.LogRefusal.{LogRefusal};
ghost use Rattle.log_device.specs.Refusals.{Refused, refusal_number};

use arrayvec::ArrayVec;
use device::{Device, DeviceFault, Layer, LayerMark, Reader, is_shape};
use word::{Kind, payload};

// Writes a record: the word of its block, and its content.
fn write_record(to: &mut [u32], word: u32, words: &[u32])
    requires { length to.old ≡ length words.now + 1 }
    ensures { to.new ≡ word ∷ words.now }
{
    to[0] = word;
    to[1..].copy_from_slice(words);
}

// How many records the head says are flushed.
fn flushed(image: &[u32]) -> usize
    requires { 1 ≤ length image.now }
    ensures { result ≡ flushed_in image.now }
{
    payload(image[0]) as usize
}

// For each block the number of its last record.
type Index = ArrayVec<Option<u32>, 4096>;

// No number, 4,096 times.
fn no_numbers() -> [Option<u32>; 4096]
    ensures { result ≡ replicate 4096 None }
{
    [None; 4096]
}

// An index of no records, for so many blocks.
fn blank_index(blocks: u32) -> Index
    requires { blocks ≤ 4096 }
    ensures { result.items ≡ replicate blocks None }
{
    let mut index = ArrayVec::from(no_numbers());
    index.truncate(blocks as usize);
    index
}

// The number of a block's last record, if it has one.
fn number_in(index: &Index, block: u32) -> Option<u32>
    requires { block < array_vec_len index.now }
    ensures { result ≡ slice_index_or index.now.items block None }
{
    index[block as usize]
}

// Enters a block's last record.
fn enter(index: &mut Index, block: u32, number: u32)
    requires { block < array_vec_len index.old }
    ensures { index.new.items ≡ slice_set index.old.items block (Some number) }
{
    index[block as usize] = Some(number);
}

// How a log lies in an image: its blocks, 1 to 4,096, and the words of each, 1 to 64.
#[derive(Clone, Copy)]
struct Layout {
    blocks: u32,
    width: usize,
    ghost limits: { Limits blocks width } by { Prim.hlevel props },
}

impl Layout {
    // None where the limits are broken.
    fn new(blocks: u32, width: usize) -> Option<Layout>
        ensures { MatchOption result (Limits blocks width → ⊥) (λ layout. (layout.blocks ≡ blocks) × (layout.width ≡ width)) }
    {
        if !is_shape(blocks as usize, width) {
            return None;
        }
        Some(Layout { blocks, width })
    }

    // Where a record begins.
    fn place(self, number: usize) -> usize
        requires { number ≤ 268435455 }
        ensures { result ≡ place_of self.width number }
    {
        1 + number * (self.width + 1)
    }

    // How many records an image of some words has room for.
    fn capacity(self, words: usize) -> usize
        requires { 1 ≤ words }
        ensures { result ≡ capacity words self.width }
    {
        ((words - 1) / (self.width + 1)).min(268_435_455)
    }

    // Is this the word of a record of one of the blocks?
    fn is_record(self, word: u32) -> bool
        ensures { MatchBool result (IsRecord self.blocks word) (IsRecord self.blocks word → ⊥) }
    {
        Kind::try_from(word) == Ok(Kind::Record) && payload(word) < self.blocks
    }

    // Are these the words of the first records?
    fn are_records(self, image: &[u32], count: usize) -> bool
        requires within { place_of self.width count ≤ length image.now }
        requires few { count ≤ 268435455 }
        ensures { MatchBool result (AreRecords image.now self.blocks self.width count) (AreRecords image.now self.blocks self.width count → ⊥) }
    {
        image[1..self.place(count)]
            .chunks_exact(self.width + 1)
            .all(|record| self.is_record(record[0]))
    }

    // Are the head and the words of the flushed records in order?
    fn is_formed(self, image: &[u32]) -> bool
        requires { 1 ≤ length image.now }
        ensures { MatchBool result (Formed image.now self.blocks self.width) (Formed image.now self.blocks self.width → ⊥) }
    {
        let count = flushed(image);
        Kind::try_from(image[0]) == Ok(Kind::Log)
            && count <= self.capacity(image.len())
            && self.are_records(image, count)
    }

    // The numbers of each block's last record, or why the image is not opened.
    fn read_index(self, image: &[u32]) -> Result<Index, LogRefusal>
        ensures formed { MatchResult result
            (λ index. Shaped (length image.now) self.blocks self.width × Formed image.now self.blocks self.width
            × Indexed image.now self.blocks self.width (flushed_in image.now) index.items)
            (λ e. Refused e image.now self.blocks self.width) }
        ensures fits { AllByRecursion (λ x. x < 2 ^ 32) image.now }
    {
        if image.is_empty() {
            return Err(LogRefusal::Shape);
        }
        if !self.is_formed(image) {
            return Err(LogRefusal::Malformed);
        }
        let mut index = blank_index(self.blocks);
        let count = flushed(image);
        let records = &image[1..self.place(count)];
        for (number, record) in records.chunks_exact(self.width + 1).enumerate() {
            enter(&mut index, payload(record[0]), number as u32);
        }
        Ok(index)
    }
}

// Why an image is not opened.
#[derive(Clone, Copy, PartialEq, Eq, Debug)]
pub enum LogRefusal {
    // The image has no word, or the blocks or their width break the limits.
    Shape = 2,
    // The head or the word of a flushed record is not one of this log.
    Malformed = 15,
}

impl LogRefusal {
    // The refusal's number.
    pub fn number(self) -> u8
        ensures { result ≡ refusal_number self }
    {
        self as u8
    }
}

// The image that was refused, and why.
#[derive(Drop)]
pub struct Unopened<'a> {
    pub image: &'a mut [u32],
    pub refusal: LogRefusal,
}

#[derive(Drop)]
pub struct Log<'a> {
    image: &'a mut [u32],
    layout: Layout,
    count: usize,
    index: Index,
    ghost sound: { Sound image.now layout.blocks layout.width count } by { Prim.hlevel props },
    ghost indexed: { Indexed image.now layout.blocks layout.width count index.items } by { Prim.hlevel props },
}

impl<'a> Log<'a> {
    // Keeps the flushed records. What is refused comes back unchanged.
    pub fn open(image: &'a mut [u32], blocks: u32, width: usize) -> Result<Log<'a>, Unopened<'a>>
        ensures opened { MatchResult result
            (λ s. Shaped (length image.old) blocks width × Formed image.old blocks width
            × (log_of s.image.now s.layout.blocks s.layout.width s.count ≡ opened_log image.old blocks width)
            × (s.image.now ≡ image.old))
            (λ e. (e.image.now ≡ image.old) × Refused e.refusal image.old blocks width) }
        ensures cut { Outlasts image.old blocks width }
    {
        let Some(layout) = Layout::new(blocks, width) else {
            let refusal = LogRefusal::Shape;
            return Err(Unopened { image, refusal });
        };
        match layout.read_index(image) {
            Ok(index) => {
                let count = flushed(image);
                Ok(Log {
                    image,
                    layout,
                    count,
                    index,
                })
            }
            Err(refusal) => Err(Unopened { image, refusal }),
        }
    }

    // Gives the image back as it is.
    pub fn into_image(self) -> &'a mut [u32]
        ensures { result.now ≡ self.entry.image.now }
    {
        self.image
    }

    // The words of a block's last record.
    fn last(&self, block: u32) -> Option<&[u32]>
        requires { block < self.now.layout.blocks }
        ensures { MatchOption result
            (last_of (records self.now.layout.width self.now.image.now self.now.count) block (replicate self.now.layout.width 0) ≡ replicate self.now.layout.width 0)
            (λ words. words.now ≡ last_of (records self.now.layout.width self.now.image.now self.now.count) block (replicate self.now.layout.width 0)) }
    {
        let number = number_in(&self.index, block)?;
        let from = self.layout.place(number as usize) + 1;
        Some(&self.image[from..from + self.layout.width])
    }
}

impl<'a> Reader for Log<'a> {
    ghost code = { Layer.Log };

    ghost shown = { λ s. shown_of (log_of s.image.now s.layout.blocks s.layout.width s.count) };

    // The image too: the meaning hides the words of a record that has a later one of its block.
    ghost Rest = { Meaning × Image };

    ghost rest = { λ s. (log_of s.image.now s.layout.blocks s.layout.width s.count, image_of s.layout.width s.image.now s.count) };

    fn layer(&self) -> Layer {
        Layer::Log
    }

    fn blocks(&self) -> u32 {
        self.layout.blocks
    }

    fn width(&self) -> u32 {
        self.layout.width as u32
    }

    fn read(&mut self, block: u32, out: &mut [u32]) -> Result<(), DeviceFault> {
        self.admit(block, out.len())?;
        match self.last(block) {
            Some(words) => out.copy_from_slice(words),
            None => out.fill(0),
        }
        Ok(())
    }

    ghost readable = { λ s. readable (log_of s.image.now s.layout.blocks s.layout.width s.count) (fit s.image.now s.layout.blocks s.layout.width s.count s.sound) };
}

impl<'a> Device for Log<'a> {
    ghost meaning = { λ s. log_of s.image.now s.layout.blocks s.layout.width s.count };

    // Nothing lies below: the calls made the image what it is, word by word.
    ghost led = { λ os x y. (image_of y.layout.width y.image.now y.count ≡ replay_image os (image_of x.layout.width x.image.now x.count))
        × (log_of y.image.now y.layout.blocks y.layout.width y.count ≡ replay os (log_of x.image.now x.layout.blocks x.layout.width x.count)) };

    fn left(&self) -> (u32, LayerMark) {
        let left = self.layout.capacity(self.image.len()) - self.count;
        (left as u32, Layer::Log.own())
    }

    fn write(&mut self, block: u32, words: &[u32]) -> Result<(), DeviceFault> {
        self.admit(block, words.len())?;
        if self.count >= self.layout.capacity(self.image.len()) {
            return Err(DeviceFault::Worn(Layer::Log.own()));
        }
        let from = self.layout.place(self.count);
        let to = from + self.layout.width + 1;
        write_record(&mut self.image[from..to], Kind::Record.word(block), words);
        enter(&mut self.index, block, self.count as u32);
        self.count += 1;
        Ok(())
    }

    fn flush(&mut self) {
        self.image[0] = Kind::Log.word(self.count as u32);
    }

    ghost shows = { λ s. refl };

    ghost kept = { λ x y shown rest. ap (λ q. q.0) rest };

    ghost fit = { λ s. fit s.image.now s.layout.blocks s.layout.width s.count s.sound };

    ghost quiet = { λ x y shown rest. (sym (ap (λ q. q.1) rest), sym (ap (λ q. q.0) rest)) };

    ghost goes_on = { λ os ps x y z p q. (
      image_goes_on os ps (image_of x.layout.width x.image.now x.count) (image_of y.layout.width y.image.now y.count) (image_of z.layout.width z.image.now z.count) p.0 q.0,
      replay_goes_on os ps (log_of x.image.now x.layout.blocks x.layout.width x.count) (log_of y.image.now y.layout.blocks y.layout.width y.count) (log_of z.image.now z.layout.blocks z.layout.width z.count) p.1 q.1,
    ) };

    ghost replays = { λ os x y led. led.1 };
}

#[cfg(test)]
mod tests {
    use super::*;
    use std::test::Fail;

    #[test]
    fn unflushed_records_are_lost(rt: HostRuntime) -> Result<(), Fail> {
        let mut image = [0x8000_0000, 0, 0, 0, 0, 0, 0, 0, 0, 0, 0];
        let Ok(mut log) = Log::open(&mut image, 2, 2) else {
            return Err(Fail::new("a new log is refused"));
        };
        assert_eq!(rt; log.blocks(), 2);
        assert_eq!(rt; log.width(), 2);
        assert_eq!(rt; log.left(), (3, Layer::Log.own()));
        let mut out = [9, 9];
        log.read(1, &mut out)?;
        assert_eq!(rt; out, [0, 0]);
        log.write(1, &[5, 6])?;
        log.flush();
        log.write(1, &[7, 8])?;
        log.read(1, &mut out)?;
        assert_eq!(rt; out, [7, 8]);
        let image = log.into_image();
        let Ok(mut log) = Log::open(image, 2, 2) else {
            return Err(Fail::new("it does not open again"));
        };
        log.read(1, &mut out)?;
        assert_eq!(rt; out, [5, 6]);
        assert_eq!(rt; log.left(), (2, Layer::Log.own()));
        Ok(())
    }

    #[test]
    fn a_full_log_is_worn(rt: HostRuntime) -> Result<(), Fail> {
        let mut image = [0x8000_0000, 0, 0, 0];
        let Ok(mut log) = Log::open(&mut image, 1, 1) else {
            return Err(Fail::new("a new log is refused"));
        };
        log.write(0, &[1])?;
        assert_eq!(rt;
            log.write(1, &[1, 1]),
            Err(DeviceFault::Length(Layer::Log.own()))
        );
        assert_eq!(rt;
            log.write(1, &[1]),
            Err(DeviceFault::Range(Layer::Log.own()))
        );
        assert_eq!(rt;
            log.write(0, &[1]),
            Err(DeviceFault::Worn(Layer::Log.own()))
        );
        Ok(())
    }

    #[test]
    fn bad_images_come_back(rt: HostRuntime) -> Result<(), Fail> {
        // The head is of kind 9.
        let mut image = [0x9000_0000, 0, 0];
        let Err(refused) = Log::open(&mut image, 1, 1) else {
            return Err(Fail::new("a bad head is opened"));
        };
        assert_eq!(rt; refused.refusal.number(), 15);
        let image = refused.image;
        assert!(rt; image.len() == 3);
        // One flushed record, of block 1.
        image[0] = 0x8000_0001;
        image[1] = 0x9000_0001;
        let Err(refused) = Log::open(image, 1, 1) else {
            return Err(Fail::new("a record of no block is opened"));
        };
        assert_eq!(rt; refused.refusal.number(), 15);
        let Err(refused) = Log::open(refused.image, 2, 65) else {
            return Err(Fail::new("a wide block is opened"));
        };
        assert_eq!(rt; refused.refusal.number(), 2);
        assert!(rt; Log::open(refused.image, 2, 1).is_ok());
        Ok(())
    }
}
