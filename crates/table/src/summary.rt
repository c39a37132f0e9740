ghost use Rattle.std.specs.Prelude.{◌≡◌};
ghost use Rattle.table.specs.Summary.{Summing, in_pairs};

use super::row::Row;

// A value that sums up rows: one for no row, one for each row, and a join of the values of neighbouring runs of rows.
// Whichever way the runs are cut, the joined value is the same.
pub trait Summary: Sized {
    // These three, as the proofs have them.
    ghost summing: { Summing Self };

    fn empty() -> Self
        ensures { result ≡ summing.none };

    fn of_row(row: Row) -> Self
        ensures { result ≡ summing.value_of row.speed row.angle };

    fn join(self, other: Self) -> Self
        ensures { result ≡ summing.joined self other };

    ghost none_before: { (x : Self) → summing.joined summing.none x ≡ x };

    ghost none_after: { (x : Self) → summing.joined x summing.none ≡ x };

    ghost associates: { (x y z : Self) → summing.joined (summing.joined x y) z ≡ summing.joined x (summing.joined y z) };
}

// Two summaries in one.
impl<A: Summary, B: Summary> Summary for (A, B) {
    ghost use Rattle.std.proofs.Common.{ap₂};

    ghost summing = { in_pairs A.summing B.summing };

    fn empty() -> (A, B) {
        (A::empty(), B::empty())
    }

    fn of_row(row: Row) -> (A, B) {
        (A::of_row(row), B::of_row(row))
    }

    fn join(self, other: (A, B)) -> (A, B) {
        (self.0.join(other.0), self.1.join(other.1))
    }

    ghost none_before = { λ x. ap₂ (λ a b. (a, b)) (A.none_before x.0) (B.none_before x.1) };

    ghost none_after = { λ x. ap₂ (λ a b. (a, b)) (A.none_after x.0) (B.none_after x.1) };

    ghost associates = { λ x y z. ap₂ (λ a b. (a, b)) (A.associates x.0 y.0 z.0) (B.associates x.1 y.1 z.1) };
}
