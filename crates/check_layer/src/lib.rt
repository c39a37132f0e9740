// A check layer: a device over one that is a word wider, whose last word is a check of the others.
#![tactic(auto, using(crate::proofs::Steps::steps))]

ghost use Rattle.std.specs.Prelude.{◌≡◌, ◌+◌, [], ◌∷◌, length, map, IfOk, MatchResult};
ghost use Rattle.std.proofs.Common.{ap, sym, subst};
ghost use Rattle.device.specs.declared.Layer.{Layer};
ghost use Rattle.device.specs.Meaning.{Meaning, Shown, flushed};
ghost use Rattle.device.specs.Cuts.{Op.flush, replay, replay_goes_on};
ghost use Rattle.check_layer.specs.Cuts.{CutsKept};
ghost use Rattle.check_layer.specs.Checked.{check_of, with_check, Allowed, checked, checked_shown, readable_checked, shows_checked, fits, below_op, below_append};

use device::{Device, DeviceFault, Layer, LayerMark, Reader, Unshaped, pass_up};

// The check of some words: it starts at 1; for each word it is rotated left by 5, and the word is XORed in.
pub fn check_word(words: &[u32]) -> u32
    ensures { result ≡ check_of words.now }
{
    words
        .iter()
        .copied()
        .fold(1, |sum: u32, word| sum.rotate_left(5) ^ word)
}

// Copies words, and their check after them.
fn append_check(words: &[u32], to: &mut [u32])
    requires { length to.old ≡ length words.now + 1 }
    ensures { to.new ≡ with_check words.now }
{
    let n = words.len();
    to[..n].copy_from_slice(words);
    to[n] = check_word(words);
}

#[derive(Drop)]
pub struct Check<R: Reader> {
    below: R,
    ghost wide: { Allowed (R.Reader.shown below) },
}

impl<R: Reader> Check<R> {
    // Takes the layer off again.
    pub fn into_below(self) -> R
        ensures { result ≡ self.below }
    {
        let Check { below } = self;
        below
    }
}

impl<D: Device> Check<D> {
    // Builds the layer over a device of at least two words a block, and flushes the device; else gives it back as it was.
    pub fn build(mut below: D) -> Result<Check<D>, Unshaped<D>>
        ensures built { MatchResult result
            (λ s. Allowed (D.Reader.shown below) × (D.Device.meaning s.below ≡ flushed (D.Device.meaning below)))
            (λ u. (Allowed (D.Reader.shown below) → ⊥) × (u.given ≡ below)) }
        ensures calls { IfOk result (λ s. D.Device.led (flush ∷ []) below s.below) }
        ensures shows { IfOk result (λ s. checked (D.Device.meaning s.below) ≡ checked (flushed (D.Device.meaning below))) }
        ensures cut { IfOk result (λ s. CutsKept (D.Device.meaning below) (checked (D.Device.meaning s.below))) }
    {
        if below.width() < 2 {
            return Err(Unshaped { given: below });
        }
        below.flush();
        Ok(Check { below })
    }
}

impl<R: Reader> Reader for Check<R> {
    ghost code = { Layer.Check };

    ghost shown = { λ s. checked_shown (R.Reader.shown s.below) };

    // All that lies below: a damaged block's words are not shown.
    ghost Rest = { Shown × R.Reader.Rest };

    ghost rest = { λ s. (R.Reader.shown s.below, R.Reader.rest s.below) };

    fn layer(&self) -> Layer {
        Layer::Check
    }

    fn blocks(&self) -> u32 {
        self.below.blocks()
    }

    fn width(&self) -> u32 {
        self.below.width() - 1
    }

    fn read(&mut self, block: u32, out: &mut [u32]) -> Result<(), DeviceFault> {
        self.admit(block, out.len())?;
        // No block is wider than 64 words.
        let mut buffer = [0; 64];
        let stored = &mut buffer[..=out.len()];
        pass_up(self.below.read(block, stored))?;
        match stored.split_last() {
            Some((check, words)) if *check == check_word(words) => {
                out.copy_from_slice(words);
                Ok(())
            }
            _ => Err(DeviceFault::Damaged(Layer::Check.own())),
        }
    }

    ghost readable = { λ s. readable_checked (R.Reader.shown s.below) (R.Reader.readable s.below) s.wide };
}

impl<D: Device> Device for Check<D> {
    ghost meaning = { λ s. checked (D.Device.meaning s.below) };

    // The calls are made below, each write with its check.
    ghost led = { λ os x y. D.Device.led (map below_op os) x.below y.below × (checked (D.Device.meaning y.below) ≡ replay os (checked (D.Device.meaning x.below))) };

    fn left(&self) -> (u32, LayerMark) {
        let (left, mark) = self.below.left();
        (left, mark.raised())
    }

    fn write(&mut self, block: u32, words: &[u32]) -> Result<(), DeviceFault> {
        self.admit(block, words.len())?;
        // No block is wider than 64 words.
        let mut buffer = [0; 64];
        let stored = &mut buffer[..=words.len()];
        append_check(words, stored);
        pass_up(self.below.write(block, stored))
    }

    fn flush(&mut self) {
        self.below.flush();
    }

    ghost shows = { λ s. shows_checked (D.Device.meaning s.below) (D.Reader.shown s.below) (D.Device.shows s.below) };

    ghost kept = { λ x y shown rest. ap checked (D.Device.kept x.below y.below (ap (λ q. q.0) rest) (ap (λ q. q.1) rest)) };

    ghost fit = { λ s. fits (D.Device.meaning s.below) (D.Device.fit s.below) (subst Allowed (D.Device.shows s.below) s.wide) };

    ghost quiet = { λ x y shown rest. (
      D.Device.quiet x.below y.below (ap (λ q. q.0) rest) (ap (λ q. q.1) rest),
      ap checked (sym (D.Device.kept x.below y.below (ap (λ q. q.0) rest) (ap (λ q. q.1) rest))),
    ) };

    ghost goes_on = { λ os ps x y z p q. (
      subst (λ rs. D.Device.led rs x.below z.below) (sym (below_append os ps)) (D.Device.goes_on (map below_op os) (map below_op ps) x.below y.below z.below p.0 q.0),
      replay_goes_on os ps (checked (D.Device.meaning x.below)) (checked (D.Device.meaning y.below)) (checked (D.Device.meaning z.below)) p.1 q.1,
    ) };

    ghost replays = { λ os x y led. led.1 };
}
