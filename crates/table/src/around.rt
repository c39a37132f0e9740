// The rows on either side of a speed, found row by row.
ghost use Rattle.std.specs.Prelude.{ℕ, ℤ, List, [], ◌∷◌, ◌++◌, map};
ghost use Rattle.table.specs.Rows.{pair_of};
ghost use Rattle.table.specs.Around.{StandsAround};

use super::row::Row;

// The last row at or below a speed, and the first above it, of the rows seen so far.
#[derive(Clone, Copy, Debug, Default)]
pub struct Around {
    pub below: Option<Row>,
    pub above: Option<Row>,
}

impl Around {
    // Of ascending rows.
    pub fn of(rows: &[Row], speed: u32) -> Around
        ensures { StandsAround speed (map pair_of rows.now) result }
    {
        let mut below: Option<Row> = None;
        for row in rows {
            if row.speed > speed {
                let above = Some(*row);
                return Around { below, above };
            }
            below = Some(*row);
        }
        Around { below, above: None }
    }

    // The same with one more row seen; rows are seen in ascending order.
    pub fn with(self, row: Row, speed: u32) -> Around
        ensures { (rows : List (ℕ × ℤ)) → StandsAround speed rows self → StandsAround speed (rows ++ pair_of row ∷ []) result }
    {
        match self.above {
            Some(_) => self,
            None if row.speed > speed => Around {
                above: Some(row),
                ..self
            },
            None => Around {
                below: Some(row),
                ..self
            },
        }
    }
}
