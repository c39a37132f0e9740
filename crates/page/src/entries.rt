// The entries of a page.
ghost use Rattle.std.specs.Prelude.{◌≡◌, ◌+◌, ◌≤◌, ◌==◌, [], ◌++◌, length};

use super::page::Entry;
use std::fmt;
use std::ops::DerefSlice;

// At most 15 entries, which lie in the value itself. An `ArrayVec` of them is not `Copy`, and a page is.
#[derive(Clone, Copy)]
pub struct Entries {
    cells: [Entry; 15],
    len: usize,
    ghost few: { len ≤ 15 },
}

impl Entries {
    ghost use Rattle.page.specs.InUse.{in_use};

    // No entries.
    pub fn new() -> Entries
        ensures { in_use result ≡ [] }
    {
        Entries {
            cells: [Entry::default(); 15],
            len: 0,
        }
    }

    pub fn len(&self) -> usize
        ensures value { result ≡ length (in_use self.now) }
        ensures fits { result ≤ 15 }
    {
        self.as_slice().len()
    }

    pub fn is_full(&self) -> bool
        ensures value { result ≡ (length (in_use self.now) == 15) }
        ensures fits { length (in_use self.now) ≤ 15 }
    {
        self.len == 15
    }

    pub fn as_slice(&self) -> &[Entry]
        ensures value { result.now ≡ in_use self.now }
        ensures fits { length result.now ≤ 15 }
    {
        &self.cells[..self.len]
    }

    // Appends the entries of a slice.
    pub fn extend(&mut self, more: &[Entry])
        requires { length (in_use self.old) + length more.now ≤ 15 }
        ensures { in_use self.new ≡ in_use self.old ++ more.now }
    {
        let len = self.len + more.len();
        self.cells[self.len..len].copy_from_slice(more);
        self.len = len;
    }
}

impl DerefSlice for Entries {
    type Elem = Entry;

    ghost use Rattle.page.specs.InUse.{in_use};

    ghost deref_gives = { λ v xs. (xs ≡ in_use v) × (length xs ≤ 15) };

    fn deref(&self) -> &[Entry] {
        self.as_slice()
    }
}

impl PartialEq for Entries {
    ghost use Rattle.std.specs.Cmp.{and_per, nat_eq_equiv, on_per, partial_equiv_from_equiv};
    ghost use Rattle.std.specs.Cmp.Lexicographic.{lists_per, pointwise};
    ghost use Rattle.std.specs.Ordering.{eq_of_both, on};
    ghost use Rattle.page.specs.InUse.{in_use};

    ghost eq = { on in_use (pointwise (eq_of_both (on (λ e. e.speed) ◌==◌) (on (λ e. e.value) ◌==◌))) };

    ghost laws = { on_per in_use (lists_per (and_per
        (on_per (λ e. e.speed) (partial_equiv_from_equiv nat_eq_equiv))
        (on_per (λ e. e.value) (partial_equiv_from_equiv nat_eq_equiv)))) };

    fn eq(&self, other: &Entries) -> bool {
        self.as_slice() == other.as_slice()
    }
}

impl Eq for Entries {
    ghost use Rattle.std.specs.Cmp.{and_equiv, nat_eq_equiv, on_equiv};
    ghost use Rattle.std.specs.Cmp.Lexicographic.{lists_equiv};
    ghost use Rattle.page.specs.InUse.{in_use};

    ghost laws = { on_equiv in_use (lists_equiv (and_equiv
        (on_equiv (λ e. e.speed) nat_eq_equiv)
        (on_equiv (λ e. e.value) nat_eq_equiv))) };
}

impl fmt::Debug for Entries {
    fn fmt<W: fmt::Write>(&self, f: &mut fmt::Formatter<W>) -> fmt::Result {
        f.debug_list().entries(self.as_slice()).finish()
    }
}
