ghost use Rattle.std.specs.Prelude.{◌≡◌};

use super::row::Row;

// A speed and an angle, as a list of rows is handed out. Unlike a row it promises no range, so that a slice of pairs can be made
// before there are rows.
#[derive(Clone, Copy, PartialEq, Eq, Debug, Default)]
pub struct Pair {
    pub speed: u32,
    pub angle: i32,
}

impl From<Row> for Pair {
    ghost from_gives = { λ row pair. (pair.speed ≡ row.speed) × (pair.angle ≡ row.angle) };

    fn from(row: Row) -> Pair {
        Pair {
            speed: row.speed,
            angle: row.angle,
        }
    }
}
