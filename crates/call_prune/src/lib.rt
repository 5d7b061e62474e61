// The prune of a checkpointed prefix.

#![tactic(auto)]

ghost use Rattle.std.specs.Prelude.{false, ◌≡◌, ◌-◌, ◌<◌, length};
ghost use Rattle.model.specs.Words.{lent};
ghost use Rattle.model.specs.Tree.{empty_root};
ghost use Rattle.model.specs.Refusals.{pruned};
ghost use Rattle.model.specs.Prune.{prune_checkpoint_prefix};
ghost use Rattle.prune_boundary.specs.Edge.{Ended};
ghost use Rattle.prune_cut.specs.Found.{InOpen, RootedIn, cut_at_in, prune_in};
ghost use Rattle.node_read.specs.Layout.{shape_of};

use model::answer::{Refusal, RowPagePrefixPrune};
use model::id::RowID;
use node_read::header;
use node_read::header::StoreHeader;
use node_read::store::Store;
use node_root;
use node_test;
use prune_cut;
use prune_edge;
use prune_list;
use prune_list::Prefix;

// What an accepted list names goes. Not in prune_filled: there the boundary was filled with zeros first, and copied once more.
fn prune_named(
    h: StoreHeader,
    s: &mut [u64],
    end: RowID,
    prefix: Prefix,
) -> Result<RowPagePrefixPrune, Refusal>
    requires rooted_in { RootedIn h s.old }
    requires ended { Ended (shape_of h.layout) h.layout.pool s.old end.0 h.root.0 prefix.path prefix.used prefix.left }
    ensures answer { pruned result ≡ (cut_at_in h s.old end.0 prefix.entries).answer }
    ensures words { s.new ≡ (cut_at_in h s.old end.0 prefix.entries).words }
{
    let layout = h.layout;
    let store = Store { layout, words: &*s };
    let boundary = prune_edge::find_edge(store, prefix.path, prefix.used, prefix.left);
    prune_cut::prune_edge(h, s, end, prefix.entries, boundary)
}

// On a root that holds entries: its test, its start, then the leaves against the list.
#[tactic(auto, unfolding(prune_cut::specs::Found::prune_at, model::specs::Tree::root_sound))]
fn prune_filled(
    h: StoreHeader,
    s: &mut [u64],
    start: RowID,
    end: RowID,
    ids: &[u64],
) -> Result<RowPagePrefixPrune, Refusal>
    requires in_open { InOpen h s.old }
    requires ids_nonzero { 0 < length ids.now }
    requires root_value { empty_root (shape_of h.layout) s.old h.root.0 ≡ false }
    ensures answer { pruned result ≡ (prune_in h s.old start.0 end.0 ids.now).answer }
    ensures words { s.new ≡ (prune_in h s.old start.0 end.0 ids.now).words }
{
    let layout = h.layout;
    let store = Store { layout, words: &*s };
    let root = h.root;
    let head = store.header(root);
    let begin = head.start_row_id;
    if !head.is_in_height() {
        return Err(Refusal::Unsound(root));
    }
    let Some(first) = node_test::test_node(store, root, head.height, begin, None) else {
        return Err(Refusal::Unsound(root));
    };
    if start != begin {
        return Err(Refusal::StartDiffers(begin));
    }
    let prefix = prune_list::scan_tree(store, root, first, end, ids)?;
    prune_named(h, s, end, prefix)
}

// On an open store, with ids and rows.
#[tactic(auto, unfolding(prune_cut::specs::Found::prune_at, model::specs::Tree::root_sound))]
fn prune_open(
    h: StoreHeader,
    s: &mut [u64],
    start: RowID,
    end: RowID,
    ids: &[u64],
) -> Result<RowPagePrefixPrune, Refusal>
    requires in_open { InOpen h s.old }
    requires ids_nonzero { 0 < length ids.now }
    ensures answer { pruned result ≡ (prune_in h s.old start.0 end.0 ids.now).answer }
    ensures words { s.new ≡ (prune_in h s.old start.0 end.0 ids.now).words }
{
    let layout = h.layout;
    let store = Store { layout, words: &*s };
    if !node_root::is_empty_root(store, h.root) {
        return prune_filled(h, s, start, end, ids);
    }
    let top = store.header(h.root);
    if start != top.start_row_id {
        return Err(Refusal::StartDiffers(top.start_row_id));
    }
    Err(Refusal::ListTooLong(0))
}

// Removes the first entries, whose page ids are given and which end at the given row.
#[tactic(auto, unfolding(model::specs::Prune::prune_checkpoint_prefix, node_read::specs::Layout::opened, prune_cut::specs::Found::prune_at))]
pub fn prune_checkpoint_prefix(
    s: &mut [u64],
    start: RowID,
    end: RowID,
    ids: &[u64],
) -> Result<RowPagePrefixPrune, Refusal>
    ensures answer { pruned result ≡ (prune_checkpoint_prefix lent s.old start.0 end.0 ids.now).answer }
    ensures words { s.new ≡ (prune_checkpoint_prefix lent s.old start.0 end.0 ids.now).words }
{
    let h = header::open(&s[..])?;
    if ids.is_empty() {
        return Err(Refusal::NoPrefix);
    }
    if end <= start {
        return Err(Refusal::NoPrefix);
    }
    prune_open(h, s, start, end, ids)
}
