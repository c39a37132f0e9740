// Measures the calls of a volume in memory: the blocks that each reads and writes and, with the argument `time`, how many
// are made in a second. With `repeat CALL ROWS TIMES` it makes one call that often, and prints nothing.
#![tactic(auto)]

mod cost;
mod measure;
mod repeat;
mod tally;

use anyhow::anyhow;
use measure::Bench;
use repeat::repeat;
use std::env;

fn run(rt: &HostRuntime) -> anyhow::Result<()> {
    let mut args = env::args(rt)?.skip(1);
    let word = args.next();
    let is = |text: &str| word.as_ref().is_some_and(|word| word.as_str() == text);
    if is("repeat") {
        let (Some(name), Some(rows), Some(times)) = (args.next(), args.next(), args.next()) else {
            return Err(anyhow!("repeat what, over how many rows, how often?"));
        };
        return repeat(rt.alloc(), name.as_str(), rows.parse()?, times.parse()?);
    }
    let timed = is("time");
    for rows in [100, 1_000, 10_000] {
        Bench { rt, rows, timed }.run()?;
    }
    Ok(())
}

fn main(rt: HostRuntime) -> anyhow::Result<()> {
    run(&rt)
}
