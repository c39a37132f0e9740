// A device that counts the blocks that are read from another and written to it.
ghost use Rattle.std.specs.Prelude.{◌≡◌};

use device::{Device, DeviceFault, Layer, LayerMark, Reader};

#[derive(Drop)]
pub(crate) struct Tally<D: Device> {
    below: D,
    pub(crate) read: u64,
    pub(crate) written: u64,
}

impl<D: Device> Tally<D> {
    pub(crate) fn new(below: D) -> Tally<D> {
        Tally {
            below,
            read: 0,
            written: 0,
        }
    }

    // Counts anew.
    pub(crate) fn reset(&mut self) {
        self.read = 0;
        self.written = 0;
    }
}

impl<D: Device> Reader for Tally<D> {
    ghost code = { D.Reader.code };

    ghost shown = { λ t. D.Reader.shown t.below };

    ghost Rest = { D.Reader.Rest };

    ghost rest = { λ t. D.Reader.rest t.below };

    fn layer(&self) -> Layer {
        self.below.layer()
    }

    fn blocks(&self) -> u32 {
        self.below.blocks()
    }

    fn width(&self) -> u32 {
        self.below.width()
    }

    fn read(&mut self, block: u32, out: &mut [u32]) -> Result<(), DeviceFault> {
        self.read = self.read.wrapping_add(1);
        self.below.read(block, out)
    }

    ghost readable = { λ t. D.Reader.readable t.below };
}

impl<D: Device> Device for Tally<D> {
    ghost meaning = { λ t. D.Device.meaning t.below };

    // The same calls are made below; what is counted is not spoken of.
    ghost led = { λ os x y. D.Device.led os x.below y.below };

    fn left(&self) -> (u32, LayerMark) {
        self.below.left()
    }

    fn write(&mut self, block: u32, words: &[u32]) -> Result<(), DeviceFault> {
        self.written = self.written.wrapping_add(1);
        self.below.write(block, words)
    }

    fn flush(&mut self) {
        self.below.flush();
    }

    ghost shows = { λ t. D.Device.shows t.below };

    ghost kept = { λ x y. D.Device.kept x.below y.below };

    ghost fit = { λ t. D.Device.fit t.below };

    ghost quiet = { λ x y. D.Device.quiet x.below y.below };

    ghost goes_on = { λ os ps x y z. D.Device.goes_on os ps x.below y.below z.below };

    ghost replays = { λ os x y. D.Device.replays os x.below y.below };
}
