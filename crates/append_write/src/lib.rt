// What an append writes to nodes: one more entry, a new path, a root of two entries.

#![tactic(auto)]

ghost use Rattle.std.specs.Prelude.{◌≡◌, [], ◌≢◌, ◌≤◌, ◌<◌, length};
ghost use Rattle.model.specs.Words.{NONE, count, height};
ghost use Rattle.model.specs.Append.{hang, raised, split_root};
ghost use Rattle.node_read.specs.Layout.{shape_of};
ghost use Rattle.node_read.specs.Store.{SameLoan};
ghost use Rattle.append_path.specs.Inside.{Inside, number_at, numbers};

use append_path;
use append_path::NewPage;
use model::id::{NodeNo, RowID};
use node_copy;
use node_pairs;
use node_read::store::StoreMut;
use node_write::write;

// The page becomes the last entry of the right leaf n.
#[tactic(auto, unfolding(model::specs::Append::hang))]
pub fn hang_page(s: &mut StoreMut<'_>, n: NodeNo, new: NewPage)
    requires n_lt_pool { (n.0 < s.old.layout.pool) × (count (shape_of s.old.layout) s.old.words.now n.0 < s.old.layout.capacity) }
    ensures words { s.new.words.now ≡ hang (shape_of s.old.layout) s.old.words.now n.0 new.start.0 new.end.0 new.page.0 [] }
    ensures kept { SameLoan s.old s.new }
{
    node_pairs::add_pair(s, n, new.start, new.page);
    write::put(s, n, 3, new.end.0);
}

// One more entry in branch n: a path of these nodes over the page.
#[tactic(auto, using(append_path::proofs::NewPaths::hang_is))]
pub fn hang_path(s: &mut StoreMut<'_>, n: NodeNo, new: NewPage, nodes: &[NodeNo])
    requires n_lt_pool { (n.0 < s.old.layout.pool) × (count (shape_of s.old.layout) s.old.words.now n.0 < s.old.layout.capacity) }
    requires some { 0 < length nodes.now }
    requires inside { Inside s.old.layout.pool (numbers nodes.now) }
    ensures words { s.new.words.now ≡ hang (shape_of s.old.layout) s.old.words.now n.0 new.start.0 new.end.0 new.page.0 (numbers nodes.now) }
    ensures kept { SameLoan s.old s.new }
{
    node_pairs::add_pair(s, n, new.start, nodes[0]);
    append_path::new_path(s, new, nodes);
}

// Root n gets two entries: its copy from its start on, and node top from row start on.
#[tactic(auto, unfolding(model::specs::Append::raised))]
fn raise(s: &mut StoreMut<'_>, n: NodeNo, copy: NodeNo, start: RowID, top: NodeNo)
    requires n_lt_pool { (n.0 < s.old.layout.pool) × (height (shape_of s.old.layout) s.old.words.now n.0 ≤ 31) }
    ensures words { s.new.words.now ≡ raised (shape_of s.old.layout) s.old.words.now n.0 copy.0 start.0 top.0 }
    ensures kept { SameLoan s.old s.new }
{
    let h = s.read().header(n);
    write::put(s, n, 0, h.height + 1);
    write::put(s, n, 1, 2);
    write::put(s, n, 3, RowID::NONE.0);
    node_pairs::put_pair(s, n, 0, h.start_row_id, copy);
    node_pairs::put_pair(s, n, 1, start, top);
}

// The root's copy, which ends where the page begins, and a path of the other nodes become the root's two entries.
#[tactic(auto, using(append_path::proofs::NewPaths::split_steps))]
pub fn split_root(s: &mut StoreMut<'_>, n: NodeNo, new: NewPage, nodes: &[NodeNo])
    requires n_lt_pool { (n.0 < s.old.layout.pool) × (height (shape_of s.old.layout) s.old.words.now n.0 ≤ 31) }
    requires two { 2 ≤ length nodes.now }
    requires inside { Inside s.old.layout.pool (numbers nodes.now) × (n.0 ≢ number_at nodes.now 0) }
    ensures words { s.new.words.now ≡ split_root (shape_of s.old.layout) s.old.words.now n.0 new.start.0 new.end.0 new.page.0 (numbers nodes.now) }
    ensures kept { SameLoan s.old s.new }
{
    let copy = nodes[0];
    node_copy::copy_node(s, n, copy);
    write::put(s, copy, 3, new.start.0);
    raise(s, n, copy, new.start, nodes[1]);
    append_path::new_path(s, new, &nodes[1..]);
}
