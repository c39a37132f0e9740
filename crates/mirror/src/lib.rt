// A mirror: two devices of one shape as one. Each write and each flush goes to both, the first side before the second.
#![tactic(auto, using(crate::proofs::Steps::steps))]

ghost use Rattle.std.specs.Prelude.{◌≡◌, [], ◌∷◌, IfOk, MatchResult};
ghost use Rattle.std.proofs.Common.{ap, ap₂, refl, sym};
ghost use Rattle.device.specs.declared.Layer.{Layer};
ghost use Rattle.device.specs.Meaning.{Meaning, Shown, flushed, shown_of};
ghost use Rattle.device.specs.Cuts.{Op.flush, replay, replay_goes_on};
ghost use Rattle.device.specs.Showing.{readable};
ghost use Rattle.mirror.specs.Mirrored.{Allowed, Alike, Alike-prop, mirrored, fits};
ghost use Rattle.mirror.specs.Cuts.{CutsKept};

use device::{Device, DeviceFault, Layer, LayerMark, Reader, Unshaped};

#[derive(Drop)]
pub struct Mirror<A: Device, B: Device> {
    first: A,
    second: B,
    ghost alike: { Alike (A.Device.meaning first) (B.Device.meaning second) } by { Alike-prop (A.Device.meaning first) (B.Device.meaning second) },
}

impl<A: Device, B: Device> Mirror<A, B> {
    // Builds the layer over two devices of one shape, and flushes both; else gives them back as they were.
    pub fn build(mut first: A, mut second: B) -> Result<Mirror<A, B>, Unshaped<(A, B)>>
        ensures built { MatchResult result
            (λ s. Allowed (A.Device.meaning first) (B.Device.meaning second)
            × (A.Device.meaning s.first ≡ flushed (A.Device.meaning first)) × (B.Device.meaning s.second ≡ flushed (B.Device.meaning second)))
            (λ u. (Allowed (A.Device.meaning first) (B.Device.meaning second) → ⊥) × (u.given.0 ≡ first) × (u.given.1 ≡ second)) }
        ensures calls { IfOk result (λ s. A.Device.led (flush ∷ []) first s.first × B.Device.led (flush ∷ []) second s.second) }
        ensures shows { IfOk result (λ s. mirrored (A.Device.meaning s.first) (B.Device.meaning s.second) ≡ mirrored (flushed (A.Device.meaning first)) (flushed (B.Device.meaning second))) }
        ensures cut { IfOk result (λ s. CutsKept (A.Device.meaning first) (B.Device.meaning second) (mirrored (A.Device.meaning s.first) (B.Device.meaning s.second))) }
    {
        if first.blocks() != second.blocks() || first.width() != second.width() {
            return Err(Unshaped {
                given: (first, second),
            });
        }
        first.flush();
        second.flush();
        Ok(Mirror { first, second })
    }

    // Takes the two sides apart again.
    pub fn into_parts(self) -> (A, B)
        ensures { (result.0 ≡ self.first) × (result.1 ≡ self.second) }
    {
        let Mirror { first, second } = self;
        (first, second)
    }
}

impl<A: Device, B: Device> Reader for Mirror<A, B> {
    ghost code = { Layer.Mirror };

    ghost shown = { λ s. shown_of (mirrored (A.Device.meaning s.first) (B.Device.meaning s.second)) };

    // All of both sides: where the first holds words, what the second holds is not shown.
    ghost Rest = { Shown × A.Reader.Rest × Shown × B.Reader.Rest };

    ghost rest = { λ s. (A.Reader.shown s.first, A.Reader.rest s.first, B.Reader.shown s.second, B.Reader.rest s.second) };

    fn layer(&self) -> Layer {
        Layer::Mirror
    }

    fn blocks(&self) -> u32 {
        self.first.blocks()
    }

    fn width(&self) -> u32 {
        self.first.width()
    }

    // Where the first side is damaged, the second is read.
    fn read(&mut self, block: u32, out: &mut [u32]) -> Result<(), DeviceFault> {
        self.admit(block, out.len())?;
        let Err(fault) = self.first.read(block, out) else {
            return Ok(());
        };
        self.second.read(block, out).map_err(|_| fault.raised())
    }

    ghost readable = { λ s. readable (mirrored (A.Device.meaning s.first) (B.Device.meaning s.second))
        (fits (A.Device.meaning s.first) (B.Device.meaning s.second) (A.Device.fit s.first) (B.Device.fit s.second) s.alike) };
}

impl<A: Device, B: Device> Device for Mirror<A, B> {
    ghost meaning = { λ s. mirrored (A.Device.meaning s.first) (B.Device.meaning s.second) };

    // The same calls are made on both sides.
    ghost led = { λ os x y. A.Device.led os x.first y.first × B.Device.led os x.second y.second
        × (mirrored (A.Device.meaning y.first) (B.Device.meaning y.second) ≡ replay os (mirrored (A.Device.meaning x.first) (B.Device.meaning x.second))) };

    fn left(&self) -> (u32, LayerMark) {
        let (a, mark_a) = self.first.left();
        let (b, mark_b) = self.second.left();
        if b < a {
            (b, mark_b.raised())
        } else {
            (a, mark_a.raised())
        }
    }

    // Neither side can refuse: the words are as wide as its blocks, the block is there, and a write is left.
    fn write(&mut self, block: u32, words: &[u32]) -> Result<(), DeviceFault> {
        self.admit(block, words.len())?;
        let (left, mark) = self.left();
        if left == 0 {
            return Err(DeviceFault::Worn(mark));
        }
        self.first.write(block, words).unwrap();
        self.second.write(block, words).unwrap();
        Ok(())
    }

    fn flush(&mut self) {
        self.first.flush();
        self.second.flush();
    }

    ghost shows = { λ s. refl };

    ghost kept = { λ x y shown rest. ap₂ mirrored
        (A.Device.kept x.first y.first (ap (λ q. q.0) rest) (ap (λ q. q.1) rest))
        (B.Device.kept x.second y.second (ap (λ q. q.2) rest) (ap (λ q. q.3) rest)) };

    ghost fit = { λ s. fits (A.Device.meaning s.first) (B.Device.meaning s.second) (A.Device.fit s.first) (B.Device.fit s.second) s.alike };

    ghost quiet = { λ x y shown rest. (
      A.Device.quiet x.first y.first (ap (λ q. q.0) rest) (ap (λ q. q.1) rest),
      B.Device.quiet x.second y.second (ap (λ q. q.2) rest) (ap (λ q. q.3) rest),
      sym (ap₂ mirrored
          (A.Device.kept x.first y.first (ap (λ q. q.0) rest) (ap (λ q. q.1) rest))
          (B.Device.kept x.second y.second (ap (λ q. q.2) rest) (ap (λ q. q.3) rest))),
    ) };

    ghost goes_on = { λ os ps x y z p q. (
      A.Device.goes_on os ps x.first y.first z.first p.0 q.0,
      B.Device.goes_on os ps x.second y.second z.second p.1 q.1,
      replay_goes_on os ps
          (mirrored (A.Device.meaning x.first) (B.Device.meaning x.second))
          (mirrored (A.Device.meaning y.first) (B.Device.meaning y.second))
          (mirrored (A.Device.meaning z.first) (B.Device.meaning z.second)) p.2 q.2,
    ) };

    ghost replays = { λ os x y led. led.2 };
}
