// One kind of call, made again and again: for a tool that counts the instructions of the program.
use super::measure::{BLOCKS, Call, WIDTH, commit, fill, mount};
use anyhow::anyhow;
use device::Device;
use medium::Words;
use std::alloc::Global;
use volume::Volume;

// The calls by their names.
const NAMED: [(&str, Call); 6] = [
    ("get", Call::Get),
    ("at", Call::At),
    ("list", Call::List),
    ("summary", Call::Summary),
    ("put", Call::Put),
    ("remove", Call::Remove),
];

// Puts a row and commits it, so many times.
fn commits<D: Device + Drop>(mut volume: Volume<D>, rows: u32, times: u32) -> anyhow::Result<()> {
    for i in 0..times {
        Call::Put.make(&mut volume, rows, i)?;
        volume = commit(volume)?;
    }
    Ok(())
}

// Mounts the device so many times.
fn mounts<D: Device + Drop>(mut device: D, times: u32) -> anyhow::Result<()> {
    for _ in 0..times {
        device = mount(device)?.into_device();
    }
    Ok(())
}

// Makes the call of a name so many times, on a clone of so many rows.
pub(crate) fn repeat(heap: Global, name: &str, rows: u32, times: u32) -> anyhow::Result<()> {
    let mut words = Words::blank(heap, BLOCKS, WIDTH)?;
    let device = fill(words.open()?, rows)?;
    if name == "mount" {
        return mounts(device, times);
    }
    let mut volume = mount(device)?;
    if name == "commit" {
        return commits(volume, rows, times);
    }
    let Some((_, call)) = NAMED.iter().find(|(other, _)| *other == name) else {
        return Err(anyhow!("no call is named {name}"));
    };
    for i in 0..times {
        call.make(&mut volume, rows, i)?;
    }
    Ok(())
}
