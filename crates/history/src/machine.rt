// A volume and its device, in the state in which the last call or cut left them.
ghost use Rattle.std.specs.Prelude.{◌≡◌, ℕ, List, length, Some, MatchResult};
ghost use Rattle.table.specs.declared.pair.Pair.{Pair};
ghost use Rattle.model.specs.Plain.{Call.ask};
ghost use Rattle.model.specs.World.{Mode.mounted, Mode.sealed, Mode.down, Formatted, bare};
ghost use Rattle.device.specs.Cuts.{replay};
ghost use Rattle.model.specs.Onward.{formatting};
ghost use Rattle.mount.specs.Formats.{hindrance};
ghost use Rattle.history.specs.Calls.{ask_of, call_of, answer_of, shown, summed, Filled};
ghost use Rattle.history.specs.Law.{Lawful};
ghost use Rattle.history.specs.Machine.{Stepped, Outcome, state_of};

use super::call::{Answer, Ask, Call, Denied};
use device::Device;
use model::Refusal;
use table::{Pair, Summary};
use volume::{Sealed, Volume};

#[derive(Drop)]
pub enum Machine<D: Device> {
    // The volume takes every call but finish and reopen.
    Mounted(Volume<D>),
    // The volume waits for finish or reopen.
    Sealed(Sealed<D>),
    // The device may hold a volume: it takes a mount.
    Down(D),
}

// Asks a mounted volume.
fn ask<D: Device, S: Summary>(
    volume: &mut Volume<D>,
    call: Ask,
    out: &mut [Pair],
) -> Result<Answer<S>, Refusal>
    ensures step { Stepped S (summed S.summing) (mounted volume.old.0, volume.old.1) (ask (ask_of (length out.old) call)) (answer_of out.new result) (mounted volume.new.0, volume.new.1) }
    ensures slice { Filled (shown result) out.old out.new }
{
    match call {
        Ask::Create { clone } => {
            volume.create(clone)?;
            Ok(Answer::Done)
        },
        Ask::Clone { from, to } => {
            volume.clone_to(from, to)?;
            Ok(Answer::Done)
        },
        Ask::Delete { clone } => {
            volume.delete(clone)?;
            Ok(Answer::Done)
        },
        Ask::Put {
            clone,
            speed,
            angle,
        } => {
            volume.put(clone, speed, angle)?;
            Ok(Answer::Done)
        },
        Ask::Remove { clone, speed } => Ok(Answer::Angle(volume.remove(clone, speed)?)),
        Ask::Get { clone, speed } => Ok(Answer::Angle(volume.get(clone, speed)?)),
        Ask::At { clone, speed } => Ok(Answer::Angle(volume.at(clone, speed)?)),
        Ask::List { clone, speed } => Ok(Answer::Listed(volume.list(clone, speed, out)?)),
        Ask::Summary { clone } => Ok(Answer::Joined(volume.summary(clone)?)),
    }
}

// A call of a mounted volume.
fn while_mounted<D: Device, S: Summary>(
    mut volume: Volume<D>,
    call: Call,
    out: &mut [Pair],
) -> (Machine<D>, Result<Answer<S>, Denied>)
    ensures step { Outcome (Stepped S (summed S.summing)) out.new (mounted volume.0, volume.1) (call_of (length out.old) call) result.1 (state_of D.Device.meaning result.0) }
    ensures slice { Filled (shown result.1) out.old out.new }
{
    match call {
        Call::Ask(question) => {
            let answer = ask(&mut volume, question, out);
            (Machine::Mounted(volume), answer.map_err(Denied::Refused))
        },
        Call::Seal => match volume.seal() {
            Ok(sealed) => (Machine::Sealed(sealed), Ok(Answer::Done)),
            Err((volume, refusal)) => (Machine::Mounted(volume), Err(Denied::Refused(refusal))),
        },
        Call::Mount => match volume.remount() {
            Ok(volume) => (Machine::Mounted(volume), Ok(Answer::Done)),
            Err((device, refusal)) => (Machine::Down(device), Err(Denied::Refused(refusal))),
        },
        Call::Finish | Call::Reopen => (Machine::Mounted(volume), Err(Denied::OutOfTurn)),
    }
}

// A call of a sealed volume.
fn while_sealed<D: Device, S: Summary>(
    volume: Sealed<D>,
    call: Call,
) -> (Machine<D>, Result<Answer<S>, Denied>)
    ensures step { (k : ℕ) (out : List Pair) → Outcome (Stepped S (summed S.summing)) out (sealed volume.0, volume.1) (call_of k call) result.1 (state_of D.Device.meaning result.0) }
    ensures none { shown result.1 ≡ 0 }
{
    match call {
        Call::Finish => (Machine::Mounted(volume.finish()), Ok(Answer::Done)),
        Call::Reopen => (Machine::Mounted(volume.reopen()), Ok(Answer::Done)),
        Call::Ask(_) | Call::Seal | Call::Mount => (
            Machine::Sealed(volume),
            Err(Denied::OutOfTurn),
        ),
    }
}

// A call of a machine that is down.
fn while_down<D: Device, S: Summary>(
    device: D,
    call: Call,
) -> (Machine<D>, Result<Answer<S>, Denied>)
    ensures step { (k : ℕ) (out : List Pair) → Outcome (Stepped S (summed S.summing)) out (down, D.Device.meaning device) (call_of k call) result.1 (state_of D.Device.meaning result.0) }
    ensures none { shown result.1 ≡ 0 }
{
    match call {
        Call::Mount => match Volume::mount(device) {
            Ok(volume) => (Machine::Mounted(volume), Ok(Answer::Done)),
            Err((device, refusal)) => (Machine::Down(device), Err(Denied::Refused(refusal))),
        },
        Call::Ask(_) | Call::Seal | Call::Finish | Call::Reopen => {
            (Machine::Down(device), Err(Denied::OutOfTurn))
        },
    }
}

// What comes of a call: a step of the volume, or nothing.
fn step<D: Device, S: Summary>(
    machine: Machine<D>,
    call: Call,
    out: &mut [Pair],
) -> (Machine<D>, Result<Answer<S>, Denied>)
    ensures step { Outcome (Stepped S (summed S.summing)) out.new (state_of D.Device.meaning machine) (call_of (length out.old) call) result.1 (state_of D.Device.meaning result.0) }
    ensures slice { Filled (shown result.1) out.old out.new }
{
    match machine {
        Machine::Mounted(volume) => while_mounted(volume, call, out),
        Machine::Sealed(volume) => while_sealed(volume, call),
        Machine::Down(device) => while_down(device, call),
    }
}

// Makes one call of a history: it is lawful, or it changes nothing. The pairs of the slice that a list does not fill keep their values.
pub fn perform<D: Device, S: Summary>(
    machine: Machine<D>,
    call: Call,
    out: &mut [Pair],
) -> (Machine<D>, Result<Answer<S>, Denied>)
    ensures law { Outcome (Lawful S.summing) out.new (state_of D.Device.meaning machine) (call_of (length out.old) call) result.1 (state_of D.Device.meaning result.0) }
    ensures slice { Filled (shown result.1) out.old out.new }
{
    step(machine, call, out)
}

impl<D: Device> Machine<D> {
    // Makes an empty volume on a device, or gives the device back with the reason why it cannot.
    pub fn format(device: D) -> Result<Machine<D>, (D, Refusal)>
        ensures { MatchResult result
            (λ v. (state_of D.Device.meaning v ≡ (mounted bare, replay (formatting (D.Device.meaning device).width) (D.Device.meaning device))) × Formatted (state_of D.Device.meaning v).1)
            (λ e. (D.Device.meaning e.0 ≡ D.Device.meaning device) × (hindrance (D.Device.meaning device) ≡ Some e.1)) }
    {
        Ok(Machine::Mounted(Volume::format(device)?))
    }

    // Gives the device back as it is.
    pub fn into_device(self) -> D
        ensures { D.Device.meaning result ≡ (state_of D.Device.meaning self).1 }
    {
        match self {
            Machine::Mounted(volume) => volume.into_device(),
            Machine::Sealed(volume) => volume.reopen().into_device(),
            Machine::Down(device) => device,
        }
    }
}
