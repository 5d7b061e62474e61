// The entries of a leaf, copied into a lent list of records.

#![tactic(auto)]

ghost use Rattle.std.specs.Prelude.{◌≡◌, ◌<◌, ◌≤◌, length};
ghost use Rattle.model.specs.Words.{child, fill, row};
ghost use Rattle.model.specs.LeafWalk.{page_entry};
ghost use Rattle.node_read.specs.Layout.{shape_of};
ghost use Rattle.next_records.specs.Listing.{Readable, records_of};

use model::id::NodeNo;
use model::node::PageEntry;
use node_read::layout::Layout;
use node_read::store::Store;

// The first entries of a leaf, so many of them.
#[derive(Clone, Copy)]
pub struct LeafEntries {
    pub layout: Layout,
    pub leaf: NodeNo,
    pub count: usize,
}

// Entry i of node n as a record.
fn entry_at(s: Store<'_>, n: NodeNo, i: usize) -> PageEntry
    requires { (n.0 < s.layout.pool) × (i < s.layout.capacity) }
    ensures { result ≡ page_entry (row (shape_of s.entry.layout) s.entry.words.now n.0 i) (child (shape_of s.entry.layout) s.entry.words.now n.0 i) }
{
    let row = s.row(n, i as u64);
    let page = s.page(n, i as u64);
    PageEntry::new(row, page)
}

// Further records stay.
pub fn copy_out(s: &[u64], list: &mut [PageEntry], e: LeafEntries)
    requires { Readable s.now e × (e.count ≤ length list.old) }
    ensures { list.new ≡ fill list.old 0 (records_of s.now e) }
{
    let layout = e.layout;
    for i in 0..e.count {
        // the words are known to be a store only where there is an entry
        let store = Store { layout, words: s };
        list[i] = entry_at(store, e.leaf, i);
    }
}
