// The writes of a prune to nodes that stay, and to the root.

#![tactic(auto)]

ghost use Rattle.std.specs.Prelude.{◌≡◌, reverse, ℕ, ◌+◌, ◌-◌, ◌≤◌, ◌<◌, length};
ghost use Rattle.model.specs.Words.{count, free_all, free_count};
ghost use Rattle.model.specs.Prune.{copy_all, trim_all, trimmed};
ghost use Rattle.node_read.specs.Layout.{shape_of};
ghost use Rattle.node_read.specs.Store.{SameLoan};
ghost use Rattle.node_chain.specs.Chain.{listed};
ghost use Rattle.prune_boundary.specs.Trims.{Trims, trims_of};
ghost use Rattle.prune_write.specs.Nodes.{AllIn};

use model::id::{NodeNo, RowID};
use model::path::Path;
use node_chain;
use node_copy;
use node_read::store::StoreMut;
use node_write::write;

// Node n loses its first k entries; what is left starts at the end.
#[tactic(auto, unfolding(model::specs::Prune::trimmed))]
fn trim_node(s: &mut StoreMut<'_>, n: NodeNo, k: u64, end: RowID)
    requires n_lt_pool { (n.0 < s.old.layout.pool) × (k ≤ count (shape_of s.old.layout) s.old.words.now n.0) × (count (shape_of s.old.layout) s.old.words.now n.0 ≤ s.old.layout.capacity) }
    ensures words { s.new.words.now ≡ trimmed (shape_of s.old.layout) s.old.words.now n.0 k end.0 }
    ensures kept { SameLoan s.old s.new }
{
    let l = s.layout;
    let h = s.read().header(n);
    let left = h.count - k;
    node_copy::move_front(s, n, k, left);
    write::put(s, n, 1, left);
    write::put(s, n, 2, end.0);
    write::put(s, n, l.row_place(0), end.0);
}

// The nodes of an edge, the top first, each by its entries that go.
pub fn trim_all(s: &mut StoreMut<'_>, edge: Path, end: RowID)
    requires depth_bound { (edge.depth ≤ 32) × (length edge.positions ≡ 32) × Trims (shape_of s.old.layout) s.old.layout.pool s.old.words.now (trims_of edge) }
    ensures words { s.new.words.now ≡ trim_all (shape_of s.old.layout) s.old.words.now end.0 (trims_of edge) }
    ensures kept { SameLoan s.old s.new }
{
    for p in &edge.positions[..edge.depth] {
        trim_node(s, p.node, p.index, end);
    }
}

// Nodes copied into the root, one after the other.
pub fn copy_all(s: &mut StoreMut<'_>, root: NodeNo, nodes: &[NodeNo])
    requires root_lt_pool { (root.0 < s.old.layout.pool) × AllIn s.old.layout.pool nodes.now (length nodes.now) }
    ensures words { s.new.words.now ≡ copy_all (shape_of s.old.layout) s.old.words.now root.0 (listed nodes.now 0 (length nodes.now)) }
    ensures kept { SameLoan s.old s.new }
{
    for n in nodes {
        node_copy::copy_node(s, *n, root);
    }
}

// The same nodes freed, the deepest first.
pub fn free_copied(s: &mut StoreMut<'_>, nodes: &[NodeNo])
    requires free_bound { AllIn s.old.layout.pool nodes.now (length nodes.now) × (free_count s.old.words.now + length nodes.now ≤ 65535) }
    ensures words { s.new.words.now ≡ free_all (shape_of s.old.layout) s.old.words.now (reverse (listed nodes.now 0 (length nodes.now))) }
    ensures kept { SameLoan s.old s.new }
{
    for i in (0..nodes.len()).rev() {
        node_chain::free_node(s, nodes[i]);
    }
}
