// Rows of wind speed and blade angle, and the angle at a speed between them. docs/tables.md states the rules.
#![tactic(auto)]

mod angle;
mod around;
mod kinds;
mod making;
mod pair;
mod row;
mod summary;
mod summing;

pub use angle::{angle_at, angle_between, angle_by};
pub use around::Around;
pub use kinds::{Count, Extent, Span, Sum};
pub use making::stored_angle;
pub use pair::Pair;
pub use row::{Row, RowFault};
pub use summary::Summary;

#[cfg(test)]
mod tests {
    use super::*;

    #[test]
    fn ranges_end_where_they_should(rt: HostRuntime) {
        assert!(rt; Row::new(9_999, -9_000).is_ok());
        assert!(rt; Row::new(0, 9_000).is_ok());
        assert!(rt; Row::new(10_000, -9_001) == Err(RowFault::Speed));
        assert!(rt; Row::new(u32::MAX, i32::MIN) == Err(RowFault::Speed));
        assert!(rt; Row::new(0, -9_001) == Err(RowFault::Angle));
        assert!(rt; Row::new(0, i32::MAX) == Err(RowFault::Angle));
    }

    #[test]
    fn angles_between_rows(rt: HostRuntime) {
        let rows = two_rows();
        assert!(rt; angle_at(&rows, 399) == Some(-100));
        assert!(rt; angle_at(&rows, 400) == Some(-100));
        assert!(rt; angle_at(&rows, 800) == Some(75));
        assert!(rt; angle_at(&rows, 1_200) == Some(250));
        assert!(rt; angle_at(&rows, u32::MAX) == Some(250));
        assert!(rt; angle_at(&[], 800) == None);
    }

    #[test]
    fn summaries_of_two_rows(rt: HostRuntime) {
        let rows = two_rows();
        assert!(rt; summary_of::<Count>(&rows).rows == 2);
        assert!(rt;
            summary_of::<Span>(&rows).extent
                == Some(Extent {
                    lowest: -100,
                    highest: 250
                })
        );
        assert!(rt; summary_of::<Sum>(&rows).angles == 150);
        assert!(rt; summary_of::<Count>(&[]).rows == 0);
        assert!(rt; summary_of::<Span>(&[]).extent == None);
        assert!(rt; summary_of::<Sum>(&[]).angles == 0);
        assert!(rt;
            Pair::from(rows[0])
                == Pair {
                    speed: 400,
                    angle: -100
                }
        );
        assert!(rt; Row::from_stored(400, rows[0].payload()) == rows[0]);
    }

    fn two_rows() -> [Row; 2] {
        [
            Row {
                speed: 400,
                angle: -100,
            },
            Row {
                speed: 1_200,
                angle: 250,
            },
        ]
    }

    fn summary_of<S: Summary + Copy>(rows: &[Row]) -> S {
        rows.iter()
            .fold(S::empty(), |joined, row| joined.join(S::of_row(*row)))
    }
}
