// The rows of a leaf.
ghost use Rattle.std.specs.Prelude.{◌≡◌, ◌<◌, length, slice_index_or};
ghost use Rattle.table.specs.Rows.{pair_of, angle_of};
ghost use Rattle.model.specs.TreeBlocks.{Each};
ghost use Rattle.reads.specs.Sound.{Valid};

use page::page_words::PageWords;
use table::Row;

// The row of an entry of a leaf, whose ranges are in its type from here on.
pub fn row_at(leaf: &PageWords, i: usize) -> Row
    requires valid { Each Valid leaf.now.entries }
    requires within { i < length leaf.now.entries }
    ensures { pair_of result ≡ ((slice_index_or leaf.now.entries i (0, 0)).0, angle_of (slice_index_or leaf.now.entries i (0, 0)).1) }
{
    Row::from_stored(leaf.speed(i), leaf.value(i))
}
