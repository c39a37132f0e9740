// A child that can lose an entry, in memory.
use edit::Rest;
use page::page::Page;

// The removal goes on in `part`, beside which stands what is left of a neighbour: they replace the children from `at` to `end` of the page.
#[derive(Drop)]
pub struct Filled {
    pub at: usize,
    pub end: usize,
    pub part: Page,
    pub rest: Rest,
}
