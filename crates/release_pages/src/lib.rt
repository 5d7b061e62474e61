// The page ids of a tree, leaf by leaf.

#![tactic(auto)]

ghost use Rattle.std.specs.Prelude.{◌≡◌, ◌+◌, ◌-◌, ◌≤◌, ◌<◌, length};
ghost use Rattle.model.specs.Words.{count, fill};
ghost use Rattle.model.specs.Reading.{page_ids, root_entries};
ghost use Rattle.node_read.specs.Layout.{shape_of};
ghost use Rattle.release_pages.specs.Pages.{pages_at};
ghost use Rattle.release_pages.specs.Releasable.{Releasable};

use model::id::NodeNo;
use model::path::Path;
use node_read::store::Store;
use tree_turn::turn;

// The page ids of a leaf go into the list from place at on; the place after them. A branch has none.
#[tactic(auto, unfolding(model::specs::Words::fill), using(crate::proofs::Filling::filling))]
fn copy_leaf(s: Store<'_>, n: NodeNo, pages: &mut [u64], at: usize) -> usize
    requires n_lt_pool { (n.0 < s.layout.pool) × (count (shape_of s.layout) s.words.now n.0 ≤ s.layout.capacity) × (at + length (pages_at (shape_of s.layout) s.words.now n.0) ≤ length pages.old) }
    ensures after { result ≡ at + length (pages_at (shape_of s.entry.layout) s.entry.words.now n.0) }
    ensures list { pages.new ≡ fill pages.old at (pages_at (shape_of s.entry.layout) s.entry.words.now n.0) }
{
    let h = s.header(n);
    if !h.is_leaf() {
        return at;
    }
    for i in 0..h.count {
        pages[at + i as usize] = s.page(n, i).0;
    }
    at + h.count as usize
}

// The page ids of a sound tree go into the list, left to right: those of a leaf as the walk leaves it.
#[inline(always)]
pub fn copy_tree(s: Store<'_>, node: NodeNo, pages: &mut [u64])
    requires releasable { Releasable (shape_of s.layout) s.layout.pool s.words.now node.0 0 }
    requires node_in_bounds { length (root_entries (shape_of s.layout) s.words.now node.0) ≤ length pages.old }
    ensures { pages.new ≡ fill pages.old 0 (page_ids (root_entries (shape_of s.entry.layout) s.entry.words.now node.0)) }
{
    let mut path = Path::rooted(node);
    let mut place: usize = 0;
    // up and down the tree: no index is counted
    while 0 < path.depth {
        let top = path.last();
        match turn::untested(s, top) {
            None => {
                place = copy_leaf(s, top.node, pages, place);
                path.leave();
            }
            Some(child) => path.enter(child),
        }
    }
}
