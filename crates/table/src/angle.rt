ghost use Rattle.std.specs.Prelude.{◌≡◌, map};
ghost use Rattle.table.specs.Rows.{pair_of};
ghost use Rattle.std.specs.Option.{option_map};
ghost use Rattle.table.specs.Angles.{between, angle_by, angle_at};

use super::around::Around;
use super::row::Row;

// The angle at a speed between two rows; from the upper row on its own, and up to the lower row its own.
pub fn angle_between(lower: Row, upper: Row, speed: u32) -> i32
    ensures { result ≡ between (pair_of lower) (pair_of upper) speed }
{
    if speed <= lower.speed {
        return lower.angle;
    }
    if speed >= upper.speed {
        return upper.angle;
    }
    let rise = upper.angle - lower.angle;
    let run = (upper.speed - lower.speed) as i32;
    let along = (speed - lower.speed) as i32;
    lower.angle + rise * along / run
}

// The angle at a speed, by the last row at or below it and the first row above it, where there are such.
pub fn angle_by(before: Option<Row>, after: Option<Row>, speed: u32) -> Option<i32>
    ensures { result ≡ angle_by (option_map pair_of before) (option_map pair_of after) speed }
{
    match (before, after) {
        (None, after) => after.map(|first| first.angle),
        (Some(lower), None) => Some(lower.angle),
        (Some(lower), Some(upper)) => Some(angle_between(lower, upper, speed)),
    }
}

// The angle at a speed over ascending rows, or none where there is no row.
pub fn angle_at(rows: &[Row], speed: u32) -> Option<i32>
    ensures { result ≡ angle_at speed (map pair_of rows.now) }
{
    let Around { below, above } = Around::of(rows, speed);
    angle_by(below, above, speed)
}
