ghost use Rattle.std.specs.Prelude.{◌≡◌};
ghost use Rattle.model.specs.Numbers.{number, refused_row, block_named, clone_named, layer_named};

use super::refusal::Refusal;
use device::LayerMark;
use table::RowFault;

impl From<RowFault> for Refusal {
    ghost from_gives = { λ fault refusal. refusal ≡ refused_row fault };

    fn from(fault: RowFault) -> Refusal {
        match fault {
            RowFault::Speed => Refusal::Speed,
            RowFault::Angle => Refusal::Angle,
        }
    }
}

impl Refusal {
    // The refusal's number.
    pub fn number(self) -> u8
        ensures { result ≡ number self }
    {
        match self {
            Refusal::Shape => 2,
            Refusal::Number => 5,
            Refusal::Speed => 6,
            Refusal::Angle => 7,
            Refusal::Absent => 8,
            Refusal::Taken => 9,
            Refusal::Short => 10,
            Refusal::Worn { .. } => 11,
            Refusal::Last => 12,
            Refusal::NoVolume => 13,
            Refusal::Damaged { .. } => 14,
            Refusal::Malformed { .. } => 15,
        }
    }

    // The block that it names.
    pub fn block(self) -> Option<u32>
        ensures { result ≡ block_named self }
    {
        match self {
            Refusal::Damaged { block, .. } | Refusal::Malformed { block, .. } => Some(block),
            _ => None,
        }
    }

    // The clone that it names.
    pub fn clone_number(self) -> Option<u32>
        ensures { result ≡ clone_named self }
    {
        match self {
            Refusal::Worn { clone, .. } => clone,
            Refusal::Damaged { clone, .. } | Refusal::Malformed { clone, .. } => Some(clone),
            _ => None,
        }
    }

    // The layer that it names.
    pub fn layer(self) -> Option<LayerMark>
        ensures { result ≡ layer_named self }
    {
        match self {
            Refusal::Worn { layer, .. } | Refusal::Damaged { layer, .. } => Some(layer),
            _ => None,
        }
    }
}
