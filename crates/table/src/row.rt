ghost use Rattle.std.specs.Prelude.{◌≡◌, ℕ, ◌+◌, ◌≤◌, pos, negsuc, ◌≤ℤ◌};

use thiserror::Error;

// One row of a pitch table: a wind speed in hundredths of a metre per second, 0 to 9,999,
// and a blade angle in hundredths of a degree, -9,000 to 9,000.
#[derive(Clone, Copy, PartialEq, Eq, Debug)]
pub struct Row {
    pub speed: u32,
    pub angle: i32,
    ghost ranges: { (speed ≤ 9999) × (negsuc 8999 ≤ℤ angle) × (angle ≤ℤ pos 9000) },
}

impl Default for Row {
    ghost is_default = { λ row. (row.speed ≡ 0) × (row.angle ≡ pos 0) };

    fn default() -> Row {
        Row { speed: 0, angle: 0 }
    }
}

// Why two numbers are no row, by the refusal's number.
#[derive(Clone, Copy, PartialEq, Eq, Debug, Drop, Error)]
pub enum RowFault {
    #[error("the speed is above 9,999")]
    Speed = 6,
    #[error("the angle is beyond 9,000 either way")]
    Angle = 7,
}
