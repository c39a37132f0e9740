// Piles of layers over bottom devices: what they show, and what cuts of the power leave of them. docs/devices.md explains.
#![tactic(auto)]

ghost use Rattle.std.specs.Prelude.{◌≡◌, List, map};
ghost use Rattle.std.proofs.Common.{ap, ap₂, ◌∙◌, sym, refl, subst, subst₂};
ghost use Rattle.device.specs.Meaning.{Meaning, shown_of};
ghost use Rattle.device.specs.Cuts.{Op};
ghost use Rattle.check_layer.specs.Checked.{checked, below_op, Allowed as Wide};
ghost use Rattle.quota.specs.Limited.{limited, enough, Allowed as Within};
ghost use Rattle.mirror.specs.Mirrored.{mirrored, Alike};
ghost use Rattle.memory.specs.Memory.{memory, parts_of};
ghost use Rattle.memory.specs.Fit.{fit as memory_fit};
ghost use Rattle.log_device.specs.Log.{log_of};
ghost use Rattle.log_device.specs.Fit.{fit as log_fit};
ghost use Rattle.piles.specs.Piles.{Pile, Pile.bottom, Pile.check, Pile.quota, Pile.mirror, shows, Built, calls, PilesAreDevices, CutsRise};
ghost use Rattle.piles.specs.Reached.{calls_bottom, calls_check, calls_quota, calls_mirror, same_limit};

use check_layer::Check;
use device::Device;
use log_device::Log;
use memory::Memory;
use mirror::Mirror;
use quota::Quota;

// A device that is a pile: layers over bottom devices.
pub trait Piled: Device {
    // The pile that it is.
    ghost pile: { Self → Pile };

    // It is well built, and shows what the device means.
    ghost stands: { (x : Self) → Built (pile x) × (shows (pile x) ≡ Self.meaning x) };

    // Calls of the device are made of each bottom, in their order, each by all layers above it.
    ghost reaches: { (os : List Op) (x y : Self) → Self.led os x y → pile y ≡ calls os (pile x) };
}

impl<'a> Piled for Memory<'a> {
    ghost pile = { λ s. bottom (memory (parts_of s.slices s.width)) };

    ghost stands = { λ s. (memory_fit (parts_of s.slices s.width) s.sound, refl) };

    ghost reaches = { λ os x y led. ap bottom led ∙ sym (calls_bottom os (memory (parts_of x.slices x.width))) };
}

impl<'a> Piled for Log<'a> {
    ghost pile = { λ s. bottom (log_of s.image.now s.layout.blocks s.layout.width s.count) };

    ghost stands = { λ s. (log_fit s.image.now s.layout.blocks s.layout.width s.count s.sound, refl) };

    ghost reaches = { λ os x y led. ap bottom led.1 ∙ sym (calls_bottom os (log_of x.image.now x.layout.blocks x.layout.width x.count)) };
}

impl<D: Piled> Piled for Check<D> {
    ghost pile = { λ s. check (D.Piled.pile s.below) };

    ghost stands = { λ s. (
      (
        (D.Piled.stands s.below).0,
        subst (λ (m : Meaning). Wide (shown_of m)) (sym (D.Piled.stands s.below).1) (subst Wide (D.Device.shows s.below) s.wide),
      ),
      ap checked (D.Piled.stands s.below).1,
    ) };

    ghost reaches = { λ os x y led. ap check (D.Piled.reaches (map below_op os) x.below y.below led.0) ∙ sym (calls_check os (D.Piled.pile x.below)) };
}

impl<D: Piled> Piled for Quota<D> {
    ghost pile = { λ s. quota s.limit (D.Piled.pile s.below) };

    ghost stands = { λ s. (
      (
        (D.Piled.stands s.below).0,
        subst (λ (m : Meaning). Within s.limit (shown_of m)) (sym (D.Piled.stands s.below).1) (subst (Within s.limit) (D.Device.shows s.below) s.allowed),
      ),
      ap (limited s.limit) (D.Piled.stands s.below).1,
    ) };

    ghost reaches = { λ os x y led.
        ap₂ quota
        (same_limit x.limit y.limit (D.Device.meaning x.below) (D.Device.meaning y.below) os
        (enough x.limit (D.Device.meaning x.below) (subst (Within x.limit) (D.Device.shows x.below) x.allowed))
        (enough y.limit (D.Device.meaning y.below) (subst (Within y.limit) (D.Device.shows y.below) y.allowed)) led.1)
        (D.Piled.reaches os x.below y.below led.0)
        ∙ sym (calls_quota os x.limit (D.Piled.pile x.below)) };
}

impl<A: Piled, B: Piled> Piled for Mirror<A, B> {
    ghost pile = { λ s. mirror (A.Piled.pile s.first) (B.Piled.pile s.second) };

    ghost stands = { λ s. (
      (
        (A.Piled.stands s.first).0,
        (B.Piled.stands s.second).0,
        subst₂ Alike (sym (A.Piled.stands s.first).1) (sym (B.Piled.stands s.second).1) s.alike,
      ),
      ap₂ mirrored (A.Piled.stands s.first).1 (B.Piled.stands s.second).1,
    ) };

    ghost reaches = { λ os x y led.
        ap₂ mirror (A.Piled.reaches os x.first y.first led.0) (B.Piled.reaches os x.second y.second led.1)
        ∙ sym (calls_mirror os (A.Piled.pile x.first) (B.Piled.pile x.second)) };
}

// A pile shows what a device shows: its calls reach each bottom, and change what it shows as they change a device.
pub fn piles_are_devices()
    ensures { PilesAreDevices }
{}

// A pile that is built anew over what cuts left of its bottoms shows a cut of what it showed.
pub fn cuts_rise()
    ensures { CutsRise }
{}
