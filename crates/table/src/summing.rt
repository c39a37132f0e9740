ghost use Rattle.std.specs.Prelude.{◌≡◌, pos, None};
ghost use Rattle.table.specs.Summaries.{count, count_of, counts, count_first, count_last, count_assoc, span, span_of, spans, span_first, span_last, span_assoc, sum, sum_of, sums, sum_first, sum_last, sum_assoc};

use super::kinds::{Count, Extent, Span, Sum};
use super::row::Row;
use super::summary::Summary;

impl Summary for Count {
    ghost summing = { record { none = count 0; value_of = count_of; joined = counts } };

    fn empty() -> Count {
        Count { rows: 0 }
    }

    fn of_row(_row: Row) -> Count {
        Count { rows: 1 }
    }

    fn join(self, other: Count) -> Count {
        Count {
            rows: self.rows.wrapping_add(other.rows),
        }
    }

    ghost none_before = { count_first };

    ghost none_after = { count_last };

    ghost associates = { count_assoc };
}

impl Summary for Span {
    ghost summing = { record { none = span None; value_of = span_of; joined = spans } };

    fn empty() -> Span {
        Span { extent: None }
    }

    fn of_row(row: Row) -> Span {
        Span {
            extent: Some(Extent {
                lowest: row.angle,
                highest: row.angle,
            }),
        }
    }

    fn join(self, other: Span) -> Span {
        let (Some(one), Some(two)) = (self.extent, other.extent) else {
            return Span {
                extent: self.extent.or(other.extent),
            };
        };
        Span {
            extent: Some(Extent {
                lowest: one.lowest.min(two.lowest),
                highest: one.highest.max(two.highest),
            }),
        }
    }

    ghost none_before = { span_first };

    ghost none_after = { span_last };

    ghost associates = { span_assoc };
}

impl Summary for Sum {
    ghost summing = { record { none = sum (pos 0); value_of = sum_of; joined = sums } };

    fn empty() -> Sum {
        Sum { angles: 0 }
    }

    fn of_row(row: Row) -> Sum {
        Sum { angles: row.angle }
    }

    fn join(self, other: Sum) -> Sum {
        Sum {
            angles: self.angles.wrapping_add(other.angles),
        }
    }

    ghost none_before = { sum_first };

    ghost none_after = { sum_last };

    ghost associates = { sum_assoc };
}
