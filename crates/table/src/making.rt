ghost use Rattle.std.specs.Prelude.{◌≡◌, ℕ, ◌^◌, ◌<◌, ◌≤◌};
ghost use Rattle.table.specs.Rows.{pair_of, checked_row, shown, payload_of, angle_of, fault_number};

use super::row::{Row, RowFault};

// The angle that a payload stands for, as a stored word holds it.
pub fn stored_angle(payload: u32) -> i32
    requires { payload < 2 ^ 31 }
    ensures { result ≡ angle_of payload }
{
    payload as i32 - 9_000
}

impl Row {
    // A row of any two numbers that are in their ranges; the speed is looked at first.
    pub fn new(speed: u32, angle: i32) -> Result<Row, RowFault>
        ensures { shown result ≡ checked_row speed angle }
    {
        if speed > 9_999 {
            return Err(RowFault::Speed);
        }
        if angle < -9_000 || angle > 9_000 {
            return Err(RowFault::Angle);
        }
        Ok(Row { speed, angle })
    }

    // The angle as a stored word holds it, counted from -9,000.
    pub fn payload(self) -> u32
        ensures { result ≡ payload_of self.angle }
    {
        (self.angle + 9_000) as u32
    }

    // The row of a speed and a payload that a stored word holds.
    pub fn from_stored(speed: u32, payload: u32) -> Row
        requires speed { speed ≤ 9999 }
        requires payload { payload ≤ 18000 }
        ensures row { pair_of result ≡ (speed, angle_of payload) }
        ensures back { payload_of result.angle ≡ payload }
    {
        Row {
            speed,
            angle: stored_angle(payload),
        }
    }
}

impl RowFault {
    // The refusal's number.
    pub fn number(self) -> u8
        ensures { result ≡ fault_number self }
    {
        self as u8
    }
}
