// The nodes that a prune copies into the root, tested before anything is written.

#![tactic(auto)]

ghost use Rattle.std.specs.Prelude.{◌≡◌, IfOk, ◌+◌, ◌≤◌, ◌<◌, length};
ghost use Rattle.model.specs.Words.{height};
ghost use Rattle.node_read.specs.Layout.{shape_of};
ghost use Rattle.prune_boundary.specs.Trims.{NoneBelow};
ghost use Rattle.prune_write.specs.Nodes.{AllIn};
ghost use Rattle.prune_collapse.specs.Copied.{Asked, Collapses, SoundTop, copies_of, copy_at};

use model::answer::UnsoundNode;
use model::id::NodeNo;
use model::path::Path;
use node_read::store::Store;
use node_test;

// The nodes copied, the top first.
#[derive(Clone, Copy)]
pub struct Copies {
    pub nodes: [NodeNo; 32],
    pub count: usize,
}

// The copy at branch n of this height, of which k entries go: while one entry stays, and it is the last, its child is copied.
#[tactic(auto, unfolding(crate::specs::Copied::copy_at))]
fn copy_at(s: Store<'_>, n: NodeNo, height: u64, k: u64) -> Result<Option<NodeNo>, UnsoundNode>
    requires asked { Asked s.layout s.words.now n.0 height }
    ensures { result ≡ copy_at (shape_of s.entry.layout) s.entry.layout.pool s.entry.words.now n.0 height k }
{
    let h = s.header(n);
    let last = h.count - 1;
    if last != k {
        return Ok(None);
    }
    let child = s.child(n, last);
    if !s.layout.has_node(child) {
        return Err(UnsoundNode(n));
    }
    let row = s.row(n, last);
    if !node_test::is_sound(s, child, height - 1, row, None) {
        return Err(UnsoundNode(child));
    }
    Ok(Some(child))
}

// The nodes copied at an edge, which says on each level how many entries go.
pub fn find_copies(s: Store<'_>, root: NodeNo, edge: Path) -> Result<Copies, UnsoundNode>
    requires positions_len { (length edge.positions ≡ 32) × NoneBelow edge (height (shape_of s.layout) s.words.now root.0 + 1) }
    requires sound_top { SoundTop (shape_of s.layout) s.layout.pool s.words.now root.0 }
    ensures are { Collapses (shape_of s.entry.layout) s.entry.layout.pool s.entry.words.now root.0 edge (copies_of result) }
    ensures few { IfOk result (λ c. (c.count ≤ 31) × AllIn s.entry.layout.pool c.nodes c.count) }
{
    let mut nodes = [NodeNo(0); 32];
    let mut n = root;
    let levels = s.header(root).height as usize;
    for i in 0..levels {
        let height = (levels - i) as u64;
        let Some(child) = copy_at(s, n, height, edge.positions[i].index)? else {
            return Ok(Copies { nodes, count: i });
        };
        nodes[i] = child;
        n = child;
    }
    Ok(Copies {
        nodes,
        count: levels,
    })
}
