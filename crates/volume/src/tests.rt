// A clone of a clone, a sealed volume, and refused devices, in memory and in a log.
use crate::Volume;
use device::Device;
use log_device::Log;
use memory::Memory;
use model::Refusal;
use std::test::Fail;
use table::{Count, Extent, Pair, Span, Sum};

#[test]
fn siblings_keep_their_rows(rt: HostRuntime) -> Result<(), Fail> {
    let mut current = [0u32; 1024];
    let mut persisted = [0u32; 1024];
    let mut marks = [0u8; 32];
    let Ok(memory) = Memory::open(&mut current, &mut persisted, &mut marks, 32) else {
        return Err(Fail::new("the slices have the shape"));
    };
    let Ok(mut volume) = Volume::format(memory) else {
        return Err(Fail::new("a memory of that size is formatted"));
    };
    assert_eq!(rt; volume.create(0), Ok(()));
    assert_eq!(rt; volume.create(0), Err(Refusal::Taken));
    assert_eq!(rt; volume.create(24), Err(Refusal::Number));
    assert_eq!(rt; volume.put(0, 400, -100), Ok(()));
    assert_eq!(rt; volume.put(0, 1_200, 250), Ok(()));
    assert_eq!(rt; volume.put(0, 10_000, 9_001), Err(Refusal::Speed));
    assert_eq!(rt; volume.put(1, 0, 9_001), Err(Refusal::Angle));
    assert_eq!(rt; volume.clone_to(0, 7), Ok(()));
    assert_eq!(rt; volume.clone_to(2, 7), Err(Refusal::Absent));
    assert_eq!(rt; volume.put(7, 400, 300), Ok(()));
    assert_eq!(rt; volume.get(0, 400), Ok(Some(-100)));
    assert_eq!(rt; volume.get(7, 400), Ok(Some(300)));
    assert_eq!(rt; volume.get(7, 500), Ok(None));
    assert_eq!(rt; volume.at(0, 800), Ok(Some(75)));
    let mut out = [Pair::default(); 3];
    assert_eq!(rt; volume.list(7, 400, &mut out), Ok(2));
    let first = out[0];
    assert_eq!(rt;
        first,
        Pair {
            speed: 400,
            angle: 300
        }
    );
    assert_eq!(rt; volume.summary::<Count>(0), Ok(Count { rows: 2 }));
    assert_eq!(rt; volume.summary::<Sum>(0), Ok(Sum { angles: 150 }));
    assert_eq!(rt;
        volume.summary::<Span>(0),
        Ok(Span {
            extent: Some(Extent {
                lowest: -100,
                highest: 250
            })
        })
    );
    assert_eq!(rt; volume.remove(7, 400), Ok(Some(300)));
    assert_eq!(rt; volume.remove(7, 400), Ok(None));
    assert_eq!(rt; volume.get(0, 400), Ok(Some(-100)));
    assert_eq!(rt; volume.delete(0), Ok(()));
    assert_eq!(rt; volume.get(0, 400), Err(Refusal::Absent));
    assert_eq!(rt; volume.get(7, 1_200), Ok(Some(250)));
    let _memory = volume.into_device();
    Ok(())
}

#[test]
fn a_finished_table_is_mounted(rt: HostRuntime) -> Result<(), Fail> {
    let mut current = [0u32; 1024];
    let mut persisted = [0u32; 1024];
    let mut marks = [0u8; 32];
    let Ok(memory) = Memory::open(&mut current, &mut persisted, &mut marks, 32) else {
        return Err(Fail::new("the slices have the shape"));
    };
    let Ok(mut volume) = Volume::format(memory) else {
        return Err(Fail::new("a memory of that size is formatted"));
    };
    assert_eq!(rt; volume.create(3), Ok(()));
    assert_eq!(rt; volume.put(3, 700, 40), Ok(()));
    let mut volume = match volume.seal() {
        Ok(sealed) => sealed.finish(),
        Err(refused) => return unexpected(refused),
    };
    assert_eq!(rt; volume.put(3, 700, 55), Ok(()));
    assert_eq!(rt; volume.create(4), Ok(()));
    let mut volume = match volume.seal() {
        Ok(sealed) => sealed.reopen(),
        Err(refused) => return unexpected(refused),
    };
    assert_eq!(rt; volume.get(3, 700), Ok(Some(55)));
    let Ok(mut volume) = volume.remount() else {
        return Err(Fail::new("a finished volume mounts again"));
    };
    assert_eq!(rt; volume.get(3, 700), Ok(Some(40)));
    assert_eq!(rt; volume.get(4, 700), Err(Refusal::Absent));
    let Ok(mut volume) = Volume::mount(volume.into_device()) else {
        return Err(Fail::new("a finished volume mounts"));
    };
    assert_eq!(rt; volume.get(3, 700), Ok(Some(40)));
    let _memory = volume.into_device();
    Ok(())
}

// A volume that was not to be refused.
fn unexpected<D: Device + Drop>(refused: (Volume<D>, Refusal)) -> Result<(), Fail> {
    let (volume, _) = refused;
    let _device = volume.into_device();
    Err(Fail::new("the volume is refused"))
}

#[test]
fn a_small_memory_is_refused(rt: HostRuntime) -> Result<(), Fail> {
    let mut current = [0u32; 480];
    let mut persisted = [0u32; 480];
    let mut marks = [0u8; 15];
    let Ok(memory) = Memory::open(&mut current, &mut persisted, &mut marks, 32) else {
        return Err(Fail::new("the slices have the shape"));
    };
    let (_memory, refusal) = match Volume::format(memory) {
        Err(refused) => refused,
        Ok(volume) => {
            let _memory = volume.into_device();
            return Err(Fail::new("15 blocks are formatted"));
        }
    };
    assert_eq!(rt; refusal.number(), 2);
    Ok(())
}

#[test]
fn writes_run_out(rt: HostRuntime) -> Result<(), Fail> {
    // There is room for one record, and so for one write.
    let mut image = [0u32; 34];
    image[0] = 0x8000_0000;
    let Ok(log) = Log::open(&mut image, 16, 32) else {
        return Err(Fail::new("a new log is refused"));
    };
    let (_log, refusal) = match Volume::format(log) {
        Err(refused) => refused,
        Ok(volume) => {
            let _log = volume.into_device();
            return Err(Fail::new("a device of one write is formatted"));
        }
    };
    assert_eq!(rt; refusal.number(), 11);
    // There is room for three.
    let mut image = [0u32; 100];
    image[0] = 0x8000_0000;
    let Ok(log) = Log::open(&mut image, 16, 32) else {
        return Err(Fail::new("a new log is refused"));
    };
    let volume = match Volume::format(log) {
        Ok(volume) => volume,
        Err(refused) => {
            let (_log, _) = refused;
            return Err(Fail::new("a device of three writes is formatted"));
        }
    };
    let volume = match volume.seal() {
        Ok(sealed) => sealed.finish(),
        Err(refused) => return unexpected(refused),
    };
    let (volume, refusal) = match volume.seal() {
        Err(refused) => refused,
        Ok(sealed) => {
            let _log = sealed.reopen().into_device();
            return Err(Fail::new("a volume with no write left is sealed"));
        }
    };
    assert_eq!(rt; refusal.number(), 11);
    let _log = volume.into_device();
    Ok(())
}
