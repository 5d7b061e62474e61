// Release: page ids into a lent list, all nodes into the chain, and the store closed.

#![tactic(auto)]

ghost use Rattle.std.specs.Prelude.{◌≡◌, ◌+◌, ◌-◌, ◌≤◌, ◌<◌, length};
ghost use Rattle.model.specs.Words.{lent, fill};
ghost use Rattle.model.specs.Reading.{page_ids, root_entries, root_nodes};
ghost use Rattle.model.specs.Release.{destroy, released_words};
ghost use Rattle.model.specs.Refusals.{destroyed};
ghost use Rattle.node_read.specs.Layout.{shape_of};
ghost use Rattle.node_read.specs.Store.{SameLoan};
ghost use Rattle.release_pages.specs.Releasable.{Releasable, first_below};

use model::answer::{Refusal, Released};
use model::id::{NodeNo, RowID};
use node_read::header;
use node_read::store::{Store, StoreMut};
use node_write::write;
use release_pages;
use tree_free;
use tree_survey;

// A sound tree of k nodes: its page ids go into the list, its nodes into the chain, and the root word closes the store.
#[tactic(auto, unfolding(model::specs::Release::released_words), using(crate::proofs::Deciding::all_freed))]
#[inline(always)]
fn destroy_tree(s: &mut StoreMut<'_>, root: NodeNo, k: u64, pages: &mut [u64])
    requires releasable { Releasable (shape_of s.old.layout) s.old.layout.pool s.old.words.now root.0 k }
    requires k_value { (k ≡ length (root_nodes (shape_of s.old.layout) s.old.words.now root.0)) × (length (root_entries (shape_of s.old.layout) s.old.words.now root.0) ≤ length pages.old) }
    ensures words { s.new.words.now ≡ released_words (shape_of s.old.layout) s.old.layout.pool s.old.words.now (root_nodes (shape_of s.old.layout) s.old.words.now root.0) }
    ensures list { pages.new ≡ fill pages.old 0 (page_ids (root_entries (shape_of s.old.layout) s.old.words.now root.0)) }
    ensures kept { SameLoan s.old s.new }
{
    release_pages::copy_tree(s.read(), root, pages);
    tree_free::free_first(s, root, k);
    write::set_word(&mut *s.words, 2, s.layout.pool);
}

// The first row of a sound tree with so many entries, if it is below the pivot: it is the lowest.
#[tactic(auto, unfolding(release_pages::specs::Releasable::first_below))]
fn first_below(s: Store<'_>, root: NodeNo, entries: u64, pivot: RowID) -> Option<RowID>
    requires root_lt_pool { root.0 < s.layout.pool }
    ensures { result ≡ first_below (shape_of s.entry.layout) s.entry.words.now root.0 entries pivot.0 }
{
    let first = s.header(root).start_row_id;
    (0 < entries && first < pivot).then_some(first)
}

// Releases a store whose rows are all at or above the pivot.
#[tactic(auto, using(crate::proofs::Deciding::deciding))]
pub fn destroy(s: &mut [u64], pivot: RowID, pages: &mut [u64]) -> Result<Released, Refusal>
    ensures answer { destroyed result ≡ (destroy lent s.old pivot.0 pages.old).answer }
    ensures words { s.new ≡ (destroy lent s.old pivot.0 pages.old).words }
    ensures list { pages.new ≡ (destroy lent s.old pivot.0 pages.old).list }
{
    let h = header::open(&s[..])?;
    let layout = h.layout;
    let root = h.root;
    let read = Store { layout, words: &*s };
    let counts = tree_survey::survey_tree(read, false, root)?;
    if let Some(first) = first_below(read, root, counts.entries, pivot) {
        return Err(Refusal::RowBelowPivot(first));
    }
    if (pages.len() as u64) < counts.entries {
        return Err(Refusal::ListTooShort(counts.entries));
    }
    if layout.pool < h.free_count + counts.nodes {
        return Err(Refusal::Unsound(NodeNo::HEADER));
    }
    let mut store = StoreMut { layout, words: s };
    destroy_tree(&mut store, root, counts.nodes, pages);
    Ok(Released {
        nodes: counts.nodes,
        pages: counts.entries,
    })
}
