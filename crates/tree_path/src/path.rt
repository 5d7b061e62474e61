// The path from the root to a leaf, tested node by node: in each branch by the last entry whose row is not above the
// sought one.

ghost use Rattle.std.specs.Prelude.{◌≡◌, ◌<◌};
ghost use Rattle.model.specs.Reading.{descend, root_leaf, to_row};
ghost use Rattle.node_read.specs.Layout.{shape_of};
ghost use Rattle.node_test.specs.Test.{limit_of};
ghost use Rattle.tree_path.specs.Reached.{reached_of};

use model::answer::UnsoundNode;
use model::id::{NodeNo, RowID};
use node_place;
use node_read::store::Store;
use node_root;
use node_test;
use tree_turn::turn;

// The leaf that a path leads to, and what is next for it.
#[derive(Clone, Copy)]
pub struct Reached {
    pub leaf: NodeNo,
    pub next: Option<RowID>,
}

// From a node of this height, which its holder leads to by an entry of this row, and with what is next for it, towards
// the sought row.
pub fn find_below(
    s: Store<'_>,
    holder: NodeNo,
    node: NodeNo,
    height: u64,
    row: RowID,
    beyond: Option<RowID>,
    sought: RowID,
) -> Result<Reached, UnsoundNode>
    ensures { reached_of result ≡ descend (to_row (shape_of s.entry.layout) s.entry.words.now sought.0) (shape_of s.entry.layout) s.entry.layout.pool s.entry.words.now height holder.0 node.0 row.0 (limit_of beyond) }
{
    let mut parent = holder;
    let mut n = node;
    let mut r = row;
    let mut next = beyond;
    for below in (0..height).rev() {
        if !s.layout.has_node(n) {
            return Err(UnsoundNode(parent));
        }
        if !node_test::is_sound(s, n, below + 1, r, next) {
            return Err(UnsoundNode(n));
        }
        let head = s.header(n);
        let index = node_place::place_of(s, n, head.count, sought);
        next = turn::next_row(s, n, index, next);
        r = s.row(n, index);
        parent = n;
        n = s.child(n, index);
    }
    if !s.layout.has_node(n) {
        return Err(UnsoundNode(parent));
    }
    if !node_test::is_sound(s, n, 0, r, next) {
        return Err(UnsoundNode(n));
    }
    Ok(Reached { leaf: n, next })
}

// From the root of an open store, which is its own holder: no entry leads to it.
pub fn find_leaf(s: Store<'_>, root: NodeNo, sought: RowID) -> Result<Reached, UnsoundNode>
    requires root_lt_pool { root.0 < s.layout.pool }
    ensures { reached_of result ≡ root_leaf (to_row (shape_of s.entry.layout) s.entry.words.now sought.0) (shape_of s.entry.layout) s.entry.layout.pool s.entry.words.now root.0 }
{
    if node_root::is_empty_root(s, root) {
        return Ok(Reached {
            leaf: root,
            next: None,
        });
    }
    let h = s.header(root);
    if !h.is_in_height() {
        return Err(UnsoundNode(root));
    }
    find_below(s, root, root, h.height, h.start_row_id, None, sought)
}
