// The right edge of a tree: from the root down by the last entry of each node, once. Where the next rows begin, and where
// there is room.

#![tactic(auto)]

ghost use Rattle.std.specs.Prelude.{◌≡◌, ◌≤◌, ◌<◌};
ghost use Rattle.model.specs.Words.{max_height};
ghost use Rattle.model.specs.Append.{append_start};
ghost use Rattle.node_read.specs.Layout.{shape_of};
ghost use Rattle.tree_right_edge.specs.Edge.{Descended, EdgeFound};

use model::answer::UnsoundNode;
use model::id::{NodeNo, RowID};
use model::path::{Path, Position};
use node_read::store::Store;
use node_root;
use node_test;

// The node that gets the new entry, and how many nodes that needs.
#[derive(Clone, Copy)]
pub struct Room {
    pub node: NodeNo,
    pub needed: u64,
}

// The path down the right edge, each node at its last entry; its leaf; and the lowest node with room.
#[derive(Clone, Copy)]
pub struct RightEdge {
    pub path: Path,
    pub leaf: NodeNo,
    pub room: Room,
}

// The row after the right leaf n; an empty root begins at its start.
#[tactic(auto, unfolding(model::specs::Append::append_start))]
pub fn range_start(s: Store<'_>, n: NodeNo) -> RowID
    requires n_lt_pool { n.0 < s.layout.pool }
    ensures { result.0 ≡ append_start (shape_of s.entry.layout) s.entry.words.now n.0 }
{
    let h = s.header(n);
    if h.is_empty() {
        return h.start_row_id;
    }
    h.end_row_id
}

// From a root of this height that starts at this row. The positions are stored to in place; what is next stays open on
// the right edge.
#[tactic(auto, using(crate::proofs::Turns::edge_steps))]
fn go_down(s: Store<'_>, root: NodeNo, height: u64, row: RowID) -> Result<RightEdge, UnsoundNode>
    requires height_le_max_height { height ≤ max_height }
    ensures { Descended (shape_of s.entry.layout) s.entry.layout.pool s.entry.words.now height root.0 row.0 result }
{
    // no Path with a method that stores: append at C = 2 took 1.14 times as long
    let mut positions = [Position::entered(root); 32];
    let mut room = Room {
        node: root,
        needed: height + 2,
    };
    let mut parent = root;
    let mut n = root;
    let mut h = height;
    let mut r = row;
    let mut depth: usize = 0;
    // no `for` over heights: the leaf is tested and stored as the others are, and has no child
    loop {
        if !s.layout.has_node(n) {
            return Err(UnsoundNode(parent));
        }
        if !node_test::is_sound(s, n, h, r, None) {
            return Err(UnsoundNode(n));
        }
        let head = s.header(n);
        let full = head.is_full(s.layout.capacity);
        if !full {
            room = Room { node: n, needed: h };
        }
        let index = head.count - 1;
        positions[depth] = Position { node: n, index };
        depth += 1;
        if h == 0 {
            return Ok(RightEdge {
                path: Path { positions, depth },
                leaf: n,
                room,
            });
        }
        r = s.row(n, index);
        parent = n;
        n = s.child(n, index);
        h -= 1;
    }
}

// From the root of an open store, which is its own holder: no entry leads to it. An empty root is an edge of one
// position, with room.
#[tactic(auto, using(crate::proofs::Edges::root_steps))]
pub fn right_edge(s: Store<'_>, root: NodeNo) -> Result<RightEdge, UnsoundNode>
    requires root_lt_pool { root.0 < s.layout.pool }
    ensures { EdgeFound (shape_of s.entry.layout) s.entry.layout.pool s.entry.words.now root.0 result }
{
    if node_root::is_empty_root(s, root) {
        return Ok(RightEdge {
            path: Path::rooted(root),
            leaf: root,
            room: Room {
                node: root,
                needed: 0,
            },
        });
    }
    let h = s.header(root);
    if !h.is_in_height() {
        return Err(UnsoundNode(root));
    }
    go_down(s, root, h.height, h.start_row_id)
}
