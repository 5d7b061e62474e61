// The lookup.

#![tactic(auto)]

ghost use Rattle.std.specs.Prelude.{◌≡◌, true, ◌⊎◌, ℕ, ◌<◌};
ghost use Rattle.model.specs.Words.{lent};
ghost use Rattle.model.specs.Tree.{Limit, empty_root};
ghost use Rattle.model.specs.Reading.{leaf};
ghost use Rattle.model.specs.Lookup.{find_in_tree, found_in, try_find_row};
ghost use Rattle.model.specs.Refusals.{location};
ghost use Rattle.node_read.specs.Layout.{shape_of};
ghost use Rattle.call_find.specs.Leaf.{IsLeaf};

use model::answer::Refusal;
use model::id::{NodeNo, PageID, RowID};
use node_place;
use node_read::header;
use node_read::store::Store;
use node_root;
use tree_path::path;

// In a leaf that was reached.
#[tactic(auto, unfolding(model::specs::Lookup::found_in))]
fn find_in_leaf(s: Store<'_>, n: NodeNo, row: RowID) -> Option<PageID>
    requires leaf { IsLeaf (shape_of s.layout) s.layout.pool s.words.now n.0 }
    ensures { (b : Limit) → location (Ok result) ≡ found_in (shape_of s.entry.layout) s.entry.words.now row.0 (leaf n.0 b) }
{
    let h = s.header(n);
    if h.is_empty() {
        return None;
    }
    if h.end_row_id <= row {
        return None;
    }
    let i = node_place::place_of(s, n, h.count, row);
    Some(s.page(n, i))
}

// In the tree of an open store. Below the root's start only the root is read.
#[tactic(auto, unfolding(model::specs::Lookup::find_in_tree, model::specs::Lookup::found_in))]
fn find_in_tree(s: Store<'_>, root: NodeNo, row: RowID) -> Result<Option<PageID>, Refusal>
    requires root_lt_pool { root.0 < s.layout.pool }
    ensures { location result ≡ find_in_tree (shape_of s.entry.layout) s.entry.layout.pool s.entry.words.now root.0 row.0 }
{
    let h = s.header(root);
    if row < h.start_row_id {
        if !node_root::is_sound_root(s, root) {
            return Err(Refusal::Unsound(root));
        }
        return Ok(None);
    }
    let reached = path::find_leaf(s, root, row)?;
    Ok(find_in_leaf(s, reached.leaf, row))
}

// The page that holds a row, or none.
#[tactic(auto, unfolding(model::specs::Lookup::try_find_row, node_read::specs::Layout::opened))]
pub fn try_find_row(s: &[u64], row: RowID) -> Result<Option<PageID>, Refusal>
    ensures { location result ≡ try_find_row lent s.now row.0 }
{
    let h = header::open(s)?;
    let layout = h.layout;
    let store = Store { layout, words: s };
    find_in_tree(store, h.root, row)
}
