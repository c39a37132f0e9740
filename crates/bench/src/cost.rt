// What calls cost.
use std::fmt;
use std::time::Duration;

// The blocks that some calls read and wrote, and the time that they took.
#[derive(Clone, Copy)]
pub(crate) struct Cost {
    pub(crate) read: u64,
    pub(crate) written: u64,
    pub(crate) calls: u32,
    pub(crate) spent: Duration,
}

impl Cost {
    // How many of the calls are made in a second.
    pub(crate) fn rate(self) -> u128 {
        u128::from(self.calls) * 1_000_000 / self.spent.as_micros().max(1)
    }
}

// The blocks that a call reads and writes.
impl fmt::Display for Cost {
    fn fmt<W: fmt::Write>(&self, f: &mut fmt::Formatter<W>) -> fmt::Result {
        let of = self.calls;
        let read = Average { sum: self.read, of };
        let written = Average {
            sum: self.written,
            of,
        };
        write!(f, "{read} blocks read, {written} written")
    }
}

// A number, to two places.
#[derive(Clone, Copy)]
struct Average {
    sum: u64,
    of: u32,
}

impl fmt::Display for Average {
    fn fmt<W: fmt::Write>(&self, f: &mut fmt::Formatter<W>) -> fmt::Result {
        let hundredths = self.sum.saturating_mul(100) / u64::from(self.of.max(1));
        let whole = hundredths / 100;
        let part = hundredths % 100;
        write!(f, "{whole}.{part:02}")
    }
}
