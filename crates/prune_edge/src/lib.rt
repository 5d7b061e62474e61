// The edge of a prune: the nodes that stay but lose entries, by their positions. Numbers that were not read mean nothing, so
// nothing here is found by rows.

#![tactic(auto)]

ghost use Rattle.std.specs.Prelude.{◌≡◌, ℕ, ◌+◌, ◌-◌, ◌≤◌, ◌<◌, get_or, length};
ghost use Rattle.model.specs.Paths.{no_position};
ghost use Rattle.node_read.specs.Layout.{shape_of};
ghost use Rattle.prune_boundary.specs.Edge.{Settled, goes_at};
ghost use Rattle.prune_edge.specs.Found.{Climbs, Finds, Given};

use model::path::Path;
use node_read::store::Store;

// On each level of the tree the node that loses entries, with how many, 0 below the last; and how many nodes go.
#[derive(Clone, Copy)]
pub struct Boundary {
    pub edge: Path,
    pub gone: u64,
}

// From the leaf of the last entry that goes up to the first node that keeps an entry, or to the root. A node all of whose
// entries go is left, and goes.
fn climb(s: Store<'_>, path: Path, used: u64, left: u64) -> Boundary
    requires given { Given (shape_of s.layout) s.layout.pool s.words.now path used left }
    ensures { Climbs (shape_of s.entry.layout) s.entry.layout.pool s.entry.words.now path used left result }
{
    let mut edge = path;
    let mut gone = left;
    let at = edge.depth - 1;
    edge.positions[at].index = used;
    // up the path, which gets shorter: no index is counted
    while 1 < edge.depth {
        let above = edge.depth - 1;
        let top = edge.positions[above];
        if top.index < s.header(top.node).count {
            return Boundary { edge, gone };
        }
        edge.depth = above;
        gone += 1;
    }
    Boundary { edge, gone }
}

// How many entries go of the node i levels below the root: all positions but the last stand after the entry that leads down.
#[tactic(auto, unfolding(prune_boundary::specs::Edge::goes_at))]
fn goes(depth: usize, i: usize, index: u64) -> u64
    requires { (i < 32) × (i + 1 < depth → 1 ≤ index) }
    ensures { result ≡ goes_at depth i index }
{
    if i + 1 < depth {
        return index - 1;
    }
    if i < depth {
        return index;
    }
    0
}

// The first levels of a path that was climbed, each with how many entries go. By a &mut of the path a prune of one entry took
// 388 ns in place of 357 at C = 64.
fn settle(climbed: Path, levels: usize) -> Path
    requires levels_bound { (levels ≤ 32) × (length climbed.positions ≡ 32) }
    requires by_index { (i : ℕ) → i + 1 < climbed.depth → 1 ≤ (get_or climbed.positions i no_position).index }
    ensures { Settled climbed result levels }
{
    let mut edge = climbed;
    for i in 0..levels {
        edge.positions[i].index = goes(edge.depth, i, edge.positions[i].index);
    }
    edge
}

// The edge that a path to the last entry that goes leads to; its leaf has so many entries that go, and so many nodes were left.
pub fn find_edge(s: Store<'_>, path: Path, used: u64, left: u64) -> Boundary
    requires given { Given (shape_of s.layout) s.layout.pool s.words.now path used left }
    ensures { Finds (shape_of s.entry.layout) s.entry.layout.pool s.entry.words.now path used left result }
{
    let levels = path.depth;
    let climbed = climb(s, path, used, left);
    Boundary {
        edge: settle(climbed.edge, levels),
        gone: climbed.gone,
    }
}
