// A quota: a device that offers the first blocks of the one below it.
#![tactic(auto, using(crate::proofs::Steps::steps))]

ghost use Rattle.std.specs.Prelude.{◌≡◌, ℕ, [], ◌∷◌, IfOk, MatchResult};
ghost use Rattle.std.proofs.Common.{ap, ap₂, sym, subst};
ghost use Rattle.device.specs.declared.Layer.{Layer};
ghost use Rattle.device.specs.Meaning.{Meaning, Shown, flushed};
ghost use Rattle.device.specs.Cuts.{Op.flush, replay, replay_goes_on};
ghost use Rattle.quota.specs.Cuts.{CutsKept};
ghost use Rattle.quota.specs.Limited.{Allowed, limited, limited_shown, readable_limited, shows_limited, fits};

use device::{Device, DeviceFault, Layer, LayerMark, Reader, Unshaped, pass_up};

#[derive(Drop)]
pub struct Quota<R: Reader> {
    below: R,
    limit: u32,
    ghost allowed: { Allowed limit (R.Reader.shown below) },
}

impl<R: Reader> Quota<R> {
    // Takes the layer off again.
    pub fn into_below(self) -> R
        ensures { result ≡ self.below }
    {
        let Quota { below, limit: _ } = self;
        below
    }
}

impl<D: Device> Quota<D> {
    // Builds the layer over a device that has at least `limit` blocks, and flushes the device; else gives it back as it was.
    pub fn build(mut below: D, limit: u32) -> Result<Quota<D>, Unshaped<D>>
        ensures built { MatchResult result
            (λ s. Allowed limit (D.Reader.shown below) × (s.limit ≡ limit)
            × (D.Device.meaning s.below ≡ flushed (D.Device.meaning below)))
            (λ u. (Allowed limit (D.Reader.shown below) → ⊥) × (u.given ≡ below)) }
        ensures calls { IfOk result (λ s. D.Device.led (flush ∷ []) below s.below) }
        ensures shows { IfOk result (λ s. limited s.limit (D.Device.meaning s.below) ≡ limited limit (flushed (D.Device.meaning below))) }
        ensures cut { IfOk result (λ s. CutsKept limit (D.Device.meaning below) (limited s.limit (D.Device.meaning s.below))) }
    {
        if !(1..=below.blocks()).contains(&limit) {
            return Err(Unshaped { given: below });
        }
        below.flush();
        Ok(Quota { below, limit })
    }
}

impl<R: Reader> Reader for Quota<R> {
    ghost code = { Layer.Quota };

    ghost shown = { λ s. limited_shown s.limit (R.Reader.shown s.below) };

    // The limit, and all that lies below.
    ghost Rest = { ℕ × Shown × R.Reader.Rest };

    ghost rest = { λ s. (s.limit, R.Reader.shown s.below, R.Reader.rest s.below) };

    fn layer(&self) -> Layer {
        Layer::Quota
    }

    fn blocks(&self) -> u32 {
        self.limit
    }

    fn width(&self) -> u32 {
        self.below.width()
    }

    fn read(&mut self, block: u32, out: &mut [u32]) -> Result<(), DeviceFault> {
        self.admit(block, out.len())?;
        pass_up(self.below.read(block, out))
    }

    ghost readable = { λ s. readable_limited s.limit (R.Reader.shown s.below) (R.Reader.readable s.below) s.allowed };
}

impl<D: Device> Device for Quota<D> {
    ghost meaning = { λ s. limited s.limit (D.Device.meaning s.below) };

    // The same calls are made below.
    ghost led = { λ os x y. D.Device.led os x.below y.below × (limited y.limit (D.Device.meaning y.below) ≡ replay os (limited x.limit (D.Device.meaning x.below))) };

    fn left(&self) -> (u32, LayerMark) {
        let (left, mark) = self.below.left();
        (left, mark.raised())
    }

    fn write(&mut self, block: u32, words: &[u32]) -> Result<(), DeviceFault> {
        self.admit(block, words.len())?;
        pass_up(self.below.write(block, words))
    }

    fn flush(&mut self) {
        self.below.flush();
    }

    ghost shows = { λ s. shows_limited s.limit (D.Device.meaning s.below) (D.Reader.shown s.below) (D.Device.shows s.below) };

    ghost kept = { λ x y shown rest. ap₂ limited (ap (λ q. q.0) rest) (D.Device.kept x.below y.below (ap (λ q. q.1) rest) (ap (λ q. q.2) rest)) };

    ghost fit = { λ s. fits s.limit (D.Device.meaning s.below) (D.Device.fit s.below) (subst (Allowed s.limit) (D.Device.shows s.below) s.allowed) };

    ghost quiet = { λ x y shown rest. (
      D.Device.quiet x.below y.below (ap (λ q. q.1) rest) (ap (λ q. q.2) rest),
      sym (ap₂ limited (ap (λ q. q.0) rest) (D.Device.kept x.below y.below (ap (λ q. q.1) rest) (ap (λ q. q.2) rest))),
    ) };

    ghost goes_on = { λ os ps x y z p q. (
      D.Device.goes_on os ps x.below y.below z.below p.0 q.0,
      replay_goes_on os ps (limited x.limit (D.Device.meaning x.below)) (limited y.limit (D.Device.meaning y.below)) (limited z.limit (D.Device.meaning z.below)) p.1 q.1,
    ) };

    ghost replays = { λ os x y led. led.1 };
}

#[cfg(test)]
mod tests {
    use super::*;
    use memory::Memory;
    use std::test::Fail;

    #[test]
    fn offers_the_first_blocks(rt: HostRuntime) -> Result<(), Fail> {
        let mut current = [1, 2, 3];
        let mut persisted = [1, 2, 3];
        let mut marks = [0, 0, 0];
        let Ok(memory) = Memory::open(&mut current, &mut persisted, &mut marks, 1) else {
            return Err(Fail::new("a good shape is refused"));
        };
        let Ok(mut quota) = Quota::build(memory, 2) else {
            return Err(Fail::new("a quota of two of three blocks is refused"));
        };
        assert_eq!(rt; quota.blocks(), 2);
        assert_eq!(rt; quota.left(), (u32::MAX, Layer::Memory.own().raised()));
        let mut out = [0];
        quota.write(1, &[7])?;
        quota.read(1, &mut out)?;
        assert_eq!(rt; out, [7]);
        assert_eq!(rt;
            quota.write(2, &[7]),
            Err(DeviceFault::Range(Layer::Quota.own()))
        );
        let Err(refused) = Quota::build(quota.into_below(), 4) else {
            return Err(Fail::new("a quota of four of three blocks is built"));
        };
        assert_eq!(rt; refused.number(), 2);
        Ok(())
    }
}
