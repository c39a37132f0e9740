// Replays a script of calls and cuts of the power, and prints the answer to each. docs/oracle.md says what a script is.
#![tactic(auto)]

mod line;
mod power;
mod session;
mod stop;

use line::{Lines, Pile, parse_pile};
use medium::{Sides, Words};
use session::replay;
use std::alloc::Global;
use std::io::Read;
use stop::Stop;

// Runs a script on the devices that its first line names.
fn play(heap: Global, out: &mut String, text: &[u8]) -> Result<(), Stop> {
    let mut script = Lines::of(text);
    let first = script.next().ok_or(Stop::BadLine)?;
    match parse_pile(heap, first)?.ok_or(Stop::BadLine)? {
        Pile::Memory { blocks, width } => {
            Words::check(blocks, width)?;
            let mut words = Words::blank(heap, blocks, width)?;
            replay(heap, out, words.open()?, script)?;
        },
        Pile::Mirror {
            blocks,
            width,
            records,
        } => {
            Sides::check(blocks, width, records)?;
            let mut sides = Sides::blank(heap, blocks, width, records)?;
            replay(heap, out, sides.open()?, script)?;
        },
    }
    Ok(())
}

fn run(rt: &HostRuntime) -> anyhow::Result<()> {
    let mut text = Vec::new(rt.alloc());
    let mut reader = rt.reader();
    reader.read_to_end(&mut text)?;
    let mut out = String::new(rt.alloc());
    let ended = play(rt.alloc(), &mut out, &text);
    print!(rt; "{out}")?;
    match ended {
        Ok(()) => Ok(()),
        Err(Stop::Unallocated(error)) => Err(error.into()),
        Err(stop) => {
            println!(rt; "{stop}")?;
            Ok(())
        },
    }
}

fn main(rt: HostRuntime) -> anyhow::Result<()> {
    run(&rt)
}
