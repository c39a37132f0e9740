// A row removed from a tree on counted blocks.
#![tactic(auto)]

ghost use Rattle.std.specs.Prelude.{◌≡◌, ℕ, suc, ◌+◌, ◌*◌, ◌<◌, ◌≤◌, List, ◌++◌, length, take, drop, slice_index};
ghost use Rattle.tree.specs.Node.{map_e};
ghost use Rattle.tree.specs.Tree.{Pay, Tree};
ghost use Rattle.page.specs.InUse.{in_use};
ghost use Rattle.page.specs.View.{view, entries, root_pair};
ghost use Rattle.counts.specs.Counts.{free_blocks};
ghost use Rattle.counts.specs.Moves.{run, Shaped};
ghost use Rattle.model.specs.TreeBlocks.{Change.takes, changed_on, tree_on, root_of, GoodOn};
ghost use Rattle.edit.specs.Plan.{placed, links};
ghost use Rattle.edit.specs.Kids.{Beside};
ghost use Rattle.edit.specs.Able.{Open};
ghost use Rattle.edit.specs.Edited.{Editable, Granted, Edited};
ghost use Rattle.removal.specs.Able.{Ready, Able, AbleIndex, Room, At, parts_of, Fits, Filling, Made};

mod filled;

use counts::{Grant, Store};
use device::Device;
use edit::{Rest, link_kids};
use filled::Filled;
use page::page::Page;
use page::roots::Root;

// How many entries a block has at least, save a root.
const FEWEST: usize = 7;

// The child at i opened, with one entry more than it must have: a short one takes from its right neighbour.
fn fill_right<D: Device>(store: &mut Store<D>, page: &Page, i: usize, speed: u32) -> Filled
    requires able { AbleIndex store.old (view page.now) speed }
    requires at { At (view page.now) speed i }
    requires more { suc i < length (in_use page.now.entries) }
    ensures filling { (l : ℕ) (es : List (ℕ × Tree ℕ ℕ l)) → Ready store.old (view page.now) speed (suc l) es → Filling store.old store.new speed l es result }
    ensures shape { Shaped store.old }
{
    let child = store.open(page.entries[i].value);
    if child.entries.len() != FEWEST {
        return Filled {
            at: i,
            end: i + 1,
            part: child,
            rest: Rest::Nothing,
        };
    }
    let after = store.open(page.entries[i + 1].value);
    if after.entries.len() == FEWEST {
        return Filled {
            at: i,
            end: i + 2,
            part: child.spliced(FEWEST..FEWEST, &after.entries),
            rest: Rest::Nothing,
        };
    }
    let part = child.spliced(FEWEST..FEWEST, &[after.entries[0]]);
    let rest = after.part(1..after.entries.len());
    Filled {
        at: i,
        end: i + 2,
        part,
        rest: Rest::After(rest.first_speed(), rest),
    }
}

// The same of the last child, which takes from its left neighbour, at i.
fn fill_left<D: Device>(store: &mut Store<D>, page: &Page, i: usize, speed: u32) -> Filled
    requires able { AbleIndex store.old (view page.now) speed }
    requires at { At (view page.now) speed (suc i) }
    requires last { length (in_use page.now.entries) ≡ suc (suc i) }
    ensures filling { (l : ℕ) (es : List (ℕ × Tree ℕ ℕ l)) → Ready store.old (view page.now) speed (suc l) es → Filling store.old store.new speed l es result }
    ensures shape { Shaped store.old }
{
    let last = page.entries[i + 1].value;
    let child = store.read_page(last);
    if child.entries.len() != FEWEST {
        store.open_page(last, &child);
        return Filled {
            at: i + 1,
            end: i + 2,
            part: child,
            rest: Rest::Nothing,
        };
    }
    let before = store.open(page.entries[i].value);
    store.open_page(last, &child);
    let len = before.entries.len();
    if len == FEWEST {
        return Filled {
            at: i,
            end: i + 2,
            part: before.spliced(FEWEST..FEWEST, &child.entries),
            rest: Rest::Nothing,
        };
    }
    let part = child.spliced(0..0, &[before.entries[len - 1]]);
    let rest = before.part(0..len - 1);
    Filled {
        at: i,
        end: i + 2,
        rest: Rest::Before(part.first_speed(), rest),
        part,
    }
}

// The child at i filled.
fn fill<D: Device>(store: &mut Store<D>, page: &Page, i: usize, speed: u32) -> Filled
    requires able { AbleIndex store.old (view page.now) speed }
    requires at { At (view page.now) speed i }
    ensures filling { (l : ℕ) (es : List (ℕ × Tree ℕ ℕ l)) → Ready store.old (view page.now) speed (suc l) es → Filling store.old store.new speed l es result }
    ensures shape { Shaped store.old }
{
    if i + 1 < page.entries.len() {
        fill_right(store, page, i, speed)
    } else {
        fill_left(store, page, i - 1, speed)
    }
}

// Writes the parts of a filled child, once `made` stands for the part, to the next places of the grant; answers the page with them.
fn link_parts<D: Device>(
    store: &mut Store<D>,
    grant: &mut Grant,
    page: &Page,
    filled: &Filled,
    made: &Page,
) -> Page
    requires places { Open store.old grant.old }
    requires two { 2 ≤ length grant.old }
    requires left { 2 ≤ store.old.0.left }
    requires level { made.now.level < 5 }
    requires beside { Beside made.now.level filled.now.rest }
    requires fits { Fits filled.now }
    requires within { filled.now.end ≤ length (in_use page.now.entries) }
    ensures level { result.level ≡ page.now.level }
    ensures these { entries result ≡ take filled.now.at (entries page.now) ++ (map_e (λ c. c.0) (placed (slice_index grant.old 0) (slice_index grant.old 1) (parts_of page.now filled.now made.now)) ++ drop filled.now.end (entries page.now)) }
    ensures state { store.new ≡ run (links made.now.level (placed (slice_index grant.old 0) (slice_index grant.old 1) (parts_of page.now filled.now made.now))) store.old }
    ensures grant { grant.new ≡ drop 2 grant.old }
{
    let key = page.entries[filled.at].speed;
    let kids = link_kids(store, grant, key, made, &filled.rest);
    page.spliced(filled.at..filled.end, &kids)
}

// The page with a speed removed below it: its altered children are written and linked, the page itself is not.
fn remove_in<D: Device>(store: &mut Store<D>, grant: &mut Grant, page: &Page, speed: u32) -> Page
    requires able { Able store.old (view page.now) speed }
    requires room { Room store.old grant.old page.now.level }
    requires enough { 2 * page.now.level ≤ length grant.old }
    ensures made { (l : ℕ) (es : List (ℕ × Pay ℕ ℕ l)) → Ready store.old (view page.now) speed l es → Made store.old store.new grant.old speed l es (view result) }
    ensures grant { grant.new ≡ drop (2 * page.now.level) grant.old }
{
    if page.level == 0 {
        return page.without_row(speed);
    }
    let i = page.covering(speed);
    let filled = fill(store, page, i, speed);
    let made = remove_in(store, grant, &filled.part, speed);
    link_parts(store, grant, page, &filled, &made)
}

// Removes a speed from a tree: the tree that results is held in its place. A root with one child left gives way to it.
pub fn remove_tree<D: Device>(
    store: &mut Store<D>,
    root: Root,
    speed: u32,
    mut grant: Grant,
) -> Root
    requires editable { Editable store.old (root_pair root) }
    requires granted { Granted (2 * root.height + 1) store.old grant }
    requires speed { speed < 10000 }
    ensures root { root_pair result ≡ root_of (changed_on ℕ (takes speed) (free_blocks store.old.1) (tree_on store.old.0 (root_pair root))) }
    ensures edited { Edited (takes speed) (tree_on store.old.0 (root_pair root)) store.old store.new }
    ensures good { GoodOn store.new.0 (root_pair result) }
{
    let page = store.open(root.block);
    let made = remove_in(store, &mut grant, &page, speed);
    if made.level > 0 && made.entries.len() == 1 {
        grant.give_back_all();
        grant.end();
        return Root {
            height: root.height - 1,
            block: made.entries[0].value,
        };
    }
    let block = grant.take();
    grant.give_back_all();
    grant.end();
    store.link(block, &made);
    Root {
        height: root.height,
        block,
    }
}
