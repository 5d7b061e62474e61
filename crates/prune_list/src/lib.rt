// The page ids of a prefix against the leaves, read one after the other until the list is used.

#![tactic(auto)]

ghost use Rattle.std.specs.Prelude.{◌≡◌, [], ◌∷◌, ◌+◌, ◌-◌, ◌≤◌, ◌<◌, length};
ghost use Rattle.model.specs.Words.{height};
ghost use Rattle.model.specs.Paths.{entered};
ghost use Rattle.node_read.specs.Layout.{shape_of};
ghost use Rattle.tree_turn.specs.Left.{Valid};
ghost use Rattle.tree_turn.specs.Turn.{out_of};
ghost use Rattle.prune_list.specs.Named.{Begun, Ending, PassedRoot, below_scan, prefix_of, tree_scan};

use model::answer::Refusal;
use model::id::{NodeNo, RowID};
use model::path::Path;
use node_read::store::Store;
use prune_leaf;
use prune_leaf::Progress;
use tree_tally;
use tree_turn::walk::TreeWalk;

// An accepted list: how many entries it names, the path to the leaf of the last of them, how many entries of that leaf are named,
// and how many nodes the scan left. On the path each position but the last stands at the entry after the one that leads down.
#[derive(Clone, Copy)]
pub struct Prefix {
    pub entries: u64,
    pub path: Path,
    pub used: u64,
    pub left: u64,
}

// The leaves below a node that was entered, against the ids from a place on; what is named before is in that node. The walk is
// changed in place.
#[tactic(auto, unfolding(crate::specs::Named::Ending), using(crate::proofs::Scanning::scan_turns))]
fn scan_below(
    s: Store<'_>,
    node: NodeNo,
    first: u64,
    end: RowID,
    ids: &[u64],
    from: Progress,
) -> Result<Prefix, Refusal>
    requires valid { Valid (shape_of s.layout) s.layout.pool s.words.now (height (shape_of s.layout) s.words.now node.0) (entered node.0 ∷ []) }
    requires first_value { first ≡ out_of (shape_of s.layout) s.layout.pool s.words.now (height (shape_of s.layout) s.words.now node.0) node.0 }
    requires begun { Begun s.layout s.words.now node.0 ids.now from.place from.reached.0 }
    ensures answer { prefix_of end.0 result ≡ below_scan s.entry.layout s.entry.words.now end node ids.now from.place from.reached }
    ensures edge { Ending (shape_of s.entry.layout) s.entry.layout.pool s.entry.words.now end.0 node.0 result }
{
    let mut walk = TreeWalk::rooted(node, first);
    let mut named = from;
    let mut used = from.place as u64;
    let mut left = 0;
    // up and down the tree: a leaf names several ids, a branch none
    while named.place < ids.len() {
        if walk.is_over() {
            return Err(Refusal::ListTooLong(named.place as u64));
        }
        match walk.turn(s)? {
            None => left = tree_tally::add(left, 1),
            Some(down) => {
                let more = prune_leaf::scan_node(s, down.child, end, ids, named)?;
                used = (more.place - named.place) as u64;
                named = more;
            }
        }
    }
    let entries = prune_leaf::finish(end, named)?;
    Ok(Prefix {
        entries,
        path: walk.path,
        used,
        left,
    })
}

// The leaves from a root that passed its test, with the first of its child numbers out of range.
pub fn scan_tree(
    s: Store<'_>,
    root: NodeNo,
    first: u64,
    end: RowID,
    ids: &[u64],
) -> Result<Prefix, Refusal>
    requires passed_root { PassedRoot s.layout s.words.now root.0 }
    requires first_value { first ≡ out_of (shape_of s.layout) s.layout.pool s.words.now (height (shape_of s.layout) s.words.now root.0) root.0 }
    requires ids_nonzero { 0 < length ids.now }
    ensures answer { prefix_of end.0 result ≡ tree_scan s.entry.layout s.entry.words.now end.0 root.0 ids.now }
    ensures edge { Ending (shape_of s.entry.layout) s.entry.layout.pool s.entry.words.now end.0 root.0 result }
{
    let none = Progress {
        place: 0,
        reached: RowID(0),
    };
    let named = prune_leaf::scan_node(s, root, end, ids, none)?;
    scan_below(s, root, first, end, ids, named)
}
