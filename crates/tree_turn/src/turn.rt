// One turn of the walk, and its parts.

ghost use Rattle.std.specs.Prelude.{◌≡◌, not, true, ◌+◌, ◌-◌, ◌≤◌, ◌<◌};
ghost use Rattle.model.specs.Words.{count};
ghost use Rattle.model.specs.Reading.{next_row};
ghost use Rattle.node_read.specs.Layout.{shape_of};
ghost use Rattle.node_test.specs.Test.{limit_of};
ghost use Rattle.tree_turn.specs.Turn.{Placed, has_child, stepping, turn_of, turning};

use model::answer::UnsoundNode;
use model::id::{NodeNo, RowID};
use model::path::Position;
use node_read::layout::Layout;
use node_read::store::Store;
use node_test;

// Whether node n is a branch with an entry i.
#[tactic(auto, unfolding(crate::specs::Turn::has_child))]
pub fn has_child(s: Store<'_>, n: NodeNo, i: u64) -> bool
    requires n_lt_pool { n.0 < s.layout.pool }
    ensures { result ≡ has_child (shape_of s.entry.layout) s.entry.words.now n.0 i }
{
    let h = s.header(n);
    if h.is_leaf() {
        return false;
    }
    i < h.count
}

// What is next for entry i of node n.
#[tactic(auto, unfolding(model::specs::Reading::next_row, node_read::specs::Layout::row_after))]
pub fn next_row(s: Store<'_>, n: NodeNo, i: u64, next: Option<RowID>) -> Option<RowID>
    requires n_lt_pool { (n.0 < s.layout.pool) × (i < count (shape_of s.layout) s.words.now n.0) × (count (shape_of s.layout) s.words.now n.0 ≤ s.layout.capacity) }
    ensures { limit_of result ≡ next_row (shape_of s.entry.layout) s.entry.words.now n.0 i (limit_of next) }
{
    s.row_after(n, i).or(next)
}

// Whether the node at a position has no child left, so that it is left.
pub fn is_done(s: Store<'_>, at: Position) -> bool
    requires node_lt_pool { at.node.0 < s.layout.pool }
    ensures { result ≡ not (has_child (shape_of s.entry.layout) s.entry.words.now at.node.0 at.index) }
{
    let node = at.node;
    !has_child(s, node, at.index)
}

// A child that was entered, with what is next for it and the first of its child numbers out of range.
#[derive(Clone, Copy)]
pub struct Entered {
    pub child: NodeNo,
    pub next: Option<RowID>,
    pub first: u64,
}

// The turn at a position that is not done, with the first of its node's child numbers out of range and what is next for
// the node.
#[inline(always)]
pub fn tested(
    s: Store<'_>,
    at: Position,
    first: u64,
    next: Option<RowID>,
) -> Result<Entered, UnsoundNode>
    requires placed { Placed (shape_of s.layout) s.layout.pool s.words.now at first × (has_child (shape_of s.layout) s.words.now at.node.0 at.index ≡ true) }
    ensures { turn_of result ≡ turning (shape_of s.entry.layout) s.entry.layout.pool s.entry.words.now at.node.0 at.index (limit_of next) }
{
    let node = at.node;
    let index = at.index;
    if first <= index {
        return Err(UnsoundNode(node));
    }
    let h = s.header(node);
    let row = s.row(node, index);
    let child = s.child(node, index);
    let beyond = next_row(s, node, index, next);
    match node_test::test_node(s, child, h.height - 1, row, beyond) {
        Some(inner) => Ok(Entered {
            child,
            next: beyond,
            first: inner,
        }),
        None => Err(UnsoundNode(child)),
    }
}

// The turn at a position of a tree that is known to be sound: nothing is tested. The child that is entered; none where the node is
// left.
#[tactic(auto, unfolding(crate::specs::Turn::stepping, crate::specs::Turn::has_child))]
pub fn untested(s: Store<'_>, at: Position) -> Option<NodeNo>
    requires node_lt_pool { (at.node.0 < s.layout.pool) × (count (shape_of s.layout) s.words.now at.node.0 ≤ s.layout.capacity) }
    ensures { result ≡ stepping (shape_of s.entry.layout) s.entry.words.now at.node.0 at.index }
{
    if is_done(s, at) {
        return None;
    }
    let node = at.node;
    Some(s.child(node, at.index))
}
