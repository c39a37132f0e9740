// The law of histories over every pile of layers: cuts of the bottoms are cuts of the volume's device. docs/proofs.md explains.
#![tactic(auto)]

ghost use Rattle.pile_law.specs.Histories.{LawOn, PilesKeepTheLaw, CallsAreEvents};
ghost use Rattle.pile_law.specs.TwoPiles.{SameRises, DamageCounts};
ghost use Rattle.pile_law.specs.TwoHistories.{AgreeOn, TwoPilesAgree};

use piles::Piled;

// The law of histories holds of a volume on a pile, when each cut cuts the bottoms and the layers are built anew.
pub fn piles_keep_the_law<V>()
    ensures { PilesKeepTheLaw V }
{}

// The same choices at the bottoms of two piles come out at the top as one cut of two runs.
pub fn same_cuts_rise()
    ensures { SameRises }
{}

// Two histories on a pile, alike but for angles and cut by the same choices at the bottoms: a mark in one clone is in no other.
pub fn two_piles_agree<V>()
    ensures { TwoPilesAgree V }
{}

// That the two runs hold the same at the slots, or what was written, is needed: damage in one run alone turns the choice.
pub fn damage_counts()
    ensures { DamageCounts }
{}

// The law of histories, for one run and for two, on any device that is a pile.
pub fn histories_on<D: Piled, V>(_device: &D)
    ensures one { LawOn V (D.Piled.pile _device.now) (D.Device.meaning _device.now) }
    ensures two { AgreeOn V (D.Piled.pile _device.now) (D.Device.meaning _device.now) }
{}

// What a call of a volume makes of a device that is a pile, it makes of the pile.
pub fn calls_are_events<D: Piled, V>()
    ensures { CallsAreEvents V D.Device.led D.Piled.pile D.Device.meaning }
{}
