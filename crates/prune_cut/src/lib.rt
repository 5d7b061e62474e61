// The cut at an edge: what it answers, and what it writes.

#![tactic(auto)]

ghost use Rattle.std.specs.Prelude.{◌≡◌, ◌+◌, ◌-◌, ◌<◌, length};
ghost use Rattle.model.specs.Refusals.{pruned};
ghost use Rattle.node_read.specs.Layout.{shape_of};
ghost use Rattle.node_read.specs.Store.{SameLoan};
ghost use Rattle.node_chain.specs.Chain.{listed};
ghost use Rattle.prune_boundary.specs.Trims.{trims_of};
ghost use Rattle.prune_cut.specs.Found.{AllGo, EdgedIn, RootedIn, SomeStay, cut_at_in, cut_in, reset_in};
ghost use Rattle.prune_cut.specs.Writable.{Resettable, Writable, cut_words, reset_words};

use model::answer::{Refusal, RowPagePrefixPrune};
use model::id::{NodeNo, RowID};
use node_read::header::StoreHeader;
use node_read::store::{Store, StoreMut};
use node_write::write;
use prune_collapse;
use prune_edge::Boundary;
use prune_write;
use tree_free;

// What goes is freed first: the numbers of the children that go are lost when their node is trimmed. No freed node is trimmed,
// copied or the root, so the words are those of 01's order.
fn write_edge(s: &mut StoreMut<'_>, root: NodeNo, end: RowID, b: Boundary, nodes: &[NodeNo])
    requires { Writable (shape_of s.old.layout) s.old.layout.pool s.old.words.now root.0 b.edge b.gone nodes.now }
    ensures words { s.new.words.now ≡ cut_words (shape_of s.old.layout) s.old.words.now root.0 end.0 (trims_of b.edge) (listed nodes.now 0 (length nodes.now)) }
    ensures kept { SameLoan s.old s.new }
{
    tree_free::free_first(s, root, b.gone);
    prune_write::trim_all(s, b.edge, end);
    prune_write::copy_all(s, root, nodes);
    prune_write::free_copied(s, nodes);
}

// Nothing is left: all below the root is freed, and the root is an empty leaf from the end on.
fn write_reset(s: &mut StoreMut<'_>, root: NodeNo, end: RowID, b: Boundary)
    requires { Resettable (shape_of s.old.layout) s.old.layout.pool s.old.words.now root.0 b.edge b.gone }
    ensures words { s.new.words.now ≡ reset_words (shape_of s.old.layout) s.old.words.now root.0 end.0 (trims_of b.edge) }
    ensures kept { SameLoan s.old s.new }
{
    tree_free::free_first(s, root, b.gone);
    write::empty_node(s, root, end);
}

// All k entries go, and nothing is left.
fn prune_all(
    h: StoreHeader,
    s: &mut [u64],
    end: RowID,
    k: u64,
    b: Boundary,
) -> Result<RowPagePrefixPrune, Refusal>
    requires { RootedIn h s.old × EdgedIn h s.old end.0 b × AllGo (shape_of h.layout) s.old b.edge }
    ensures answer { pruned result ≡ (reset_in h s.old end.0 k b.edge).answer }
    ensures words { s.new ≡ (reset_in h s.old end.0 k b.edge).words }
{
    if h.layout.pool - h.free_count < b.gone {
        return Err(Refusal::Unsound(NodeNo::HEADER));
    }
    let layout = h.layout;
    let mut store = StoreMut { layout, words: s };
    write_reset(&mut store, h.root, end, b);
    Ok(RowPagePrefixPrune {
        removed_entries: k,
        reclaimed_nodes: b.gone,
        collapsed_levels: 0,
    })
}

// The first k entries go, and some are left.
fn prune_some(
    h: StoreHeader,
    s: &mut [u64],
    end: RowID,
    k: u64,
    b: Boundary,
) -> Result<RowPagePrefixPrune, Refusal>
    requires { RootedIn h s.old × EdgedIn h s.old end.0 b × SomeStay (shape_of h.layout) s.old b.edge }
    ensures answer { pruned result ≡ (cut_in h s.old end.0 k b.edge).answer }
    ensures words { s.new ≡ (cut_in h s.old end.0 k b.edge).words }
{
    let layout = h.layout;
    let read = Store { layout, words: &*s };
    let copies = prune_collapse::find_copies(read, h.root, b.edge)?;
    let levels = copies.count as u64;
    let freed = b.gone + levels;
    if h.layout.pool - h.free_count < freed {
        return Err(Refusal::Unsound(NodeNo::HEADER));
    }
    let mut store = StoreMut { layout, words: s };
    write_edge(&mut store, h.root, end, b, &copies.nodes[..copies.count]);
    Ok(RowPagePrefixPrune {
        removed_entries: k,
        reclaimed_nodes: freed,
        collapsed_levels: levels,
    })
}

// The first k entries go, at an edge that was found.
pub fn prune_edge(
    h: StoreHeader,
    s: &mut [u64],
    end: RowID,
    k: u64,
    b: Boundary,
) -> Result<RowPagePrefixPrune, Refusal>
    requires { RootedIn h s.old × EdgedIn h s.old end.0 b }
    ensures answer { pruned result ≡ (cut_at_in h s.old end.0 k).answer }
    ensures words { s.new ≡ (cut_at_in h s.old end.0 k).words }
{
    let last = b.edge.positions[b.edge.depth - 1];
    let layout = h.layout;
    let store = Store { layout, words: &*s };
    if store.header(last.node).count <= last.index {
        return prune_all(h, s, end, k, b);
    }
    prune_some(h, s, end, k, b)
}
