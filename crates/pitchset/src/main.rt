// A planner keeps the pitch tables of a wind park on a pile of devices, through a cut of the power.
// Each call is printed with its answer.
#![tactic(auto)]

mod planner;
mod report;

use medium::Sides;

const BLOCKS: u32 = 24;

const WIDTH: u32 = 32;

// How many writes the log has room for.
const RECORDS: u32 = 200;

fn run(rt: &HostRuntime) -> anyhow::Result<()> {
    Sides::check(BLOCKS, WIDTH, RECORDS)?;
    let mut sides = Sides::blank(rt.alloc(), BLOCKS, WIDTH, RECORDS)?;
    println!(rt;
        "pile: a mirror of (check over memory) and (check over log), {BLOCKS} blocks of {WIDTH} words"
    )?;
    let pile = sides.open()?;
    planner::before_the_cut(rt, pile)?;
    sides.lose_power();
    println!(rt;
        "The power fails. Of the memory only the persisted words are left, of the log its image."
    )?;
    let pile = sides.open()?;
    planner::after_the_cut(rt, pile)?;
    Ok(())
}

fn main(rt: HostRuntime) -> anyhow::Result<()> {
    run(&rt)
}
