use device::LayerMark;

// Why a call of the volume is refused. `number` in specs/Numbers.antt gives each its number.
#[derive(Clone, Copy, PartialEq, Eq, Debug)]
pub enum Refusal {
    // The device is too small, too large, too narrow or too wide for a volume.
    Shape,
    // A clone number is above 23.
    Number,
    // A speed is above 9,999.
    Speed,
    // An angle is beyond 9,000 either way.
    Angle,
    // The named or source clone does not exist.
    Absent,
    // The clone to be made exists.
    Taken,
    // Too few blocks are free.
    Short,
    // Too few writes are left.
    Worn {
        clone: Option<u32>,
        layer: LayerMark,
    },
    // There is no generation after this one.
    Last,
    // The slots do not make a volume.
    NoVolume,
    // A block that mount walks is damaged.
    Damaged {
        block: u32,
        clone: u32,
        layer: LayerMark,
    },
    // A block that mount walks is off the layout.
    Malformed {
        block: u32,
        clone: u32,
    },
}
