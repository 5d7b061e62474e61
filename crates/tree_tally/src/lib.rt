// What a reading of a tree has counted.

#![tactic(auto)]

ghost use Rattle.std.specs.Prelude.{◌≡◌, ◌+◌, ◌-◌, ◌≤◌, ◌<◌};
ghost use Rattle.model.specs.Words.{count, height};
ghost use Rattle.node_read.specs.Layout.{shape_of};
ghost use Rattle.tree_tally.specs.Tally.{counted, more};

use model::id::NodeNo;
use node_read::store::Store;

// What a reading has counted. A sound tree has at most 65,535 nodes, so the counts of one never reach Counts::MOST.
#[derive(Clone, Copy)]
pub struct Counts {
    pub nodes: u64,
    pub leaves: u64,
    pub entries: u64,
}

impl Counts {
    pub const MOST: u64 = 1 << 32;
}

// k and some more, up to what is told apart.
#[tactic(auto, unfolding(crate::specs::Tally::more))]
pub fn add(k: u64, some: u64) -> u64
    requires { some ≤ 4094 }
    ensures { result ≡ more k some }
{
    if k < Counts::MOST { k + some } else { k }
}

// Node n counted.
#[tactic(auto, unfolding(crate::specs::Tally::counted))]
pub fn count_node(s: Store<'_>, n: NodeNo, k: Counts) -> Counts
    requires n_lt_pool { (n.0 < s.layout.pool) × (count (shape_of s.layout) s.words.now n.0 ≤ s.layout.capacity) }
    ensures { result ≡ counted (shape_of s.entry.layout) s.entry.words.now n.0 k }
{
    let nodes = add(k.nodes, 1);
    let h = s.header(n);
    if !h.is_leaf() {
        return Counts {
            nodes,
            leaves: k.leaves,
            entries: k.entries,
        };
    }
    let leaves = add(k.leaves, 1);
    let entries = add(k.entries, h.count);
    Counts {
        nodes,
        leaves,
        entries,
    }
}
