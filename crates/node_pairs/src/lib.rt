// Entries of a node: one put, one added.

#![tactic(auto)]

ghost use Rattle.std.specs.Prelude.{◌≡◌, ℕ, ◌+◌, ◌<◌};
ghost use Rattle.model.specs.Words.{added, count, put};
ghost use Rattle.node_read.specs.Layout.{shape_of};
ghost use Rattle.node_read.specs.Store.{SameLoan};
ghost use Rattle.node_write.specs.Write.{put_entry};

use model::id::{NodeNo, PageID, RowID};
use node_read::store::StoreMut;
use node_write::write;

// A number that stands beside a row: a page in a leaf, a child in a branch.
pub trait PairNumber: Copy {
    ghost number: { Self → ℕ };

    fn number(self) -> u64
        ensures { result ≡ number self };
}

impl PairNumber for PageID {
    ghost number = { λ page. page.0 };

    fn number(self) -> u64 {
        self.0
    }
}

impl PairNumber for NodeNo {
    ghost number = { λ child. child.0 };

    fn number(self) -> u64 {
        self.0
    }
}

// Pair i of node n.
pub fn put_pair<T: PairNumber>(s: &mut StoreMut<'_>, n: NodeNo, i: u64, row: RowID, x: T)
    requires n_lt_pool { (n.0 < s.old.layout.pool) × (i < s.old.layout.capacity) }
    ensures words { s.new.words.now ≡ put_entry (shape_of s.old.layout) s.old.words.now n.0 i row.0 (T.number x) }
    ensures kept { SameLoan s.old s.new }
{
    let l = s.layout;
    write::put(s, n, l.row_place(i), row.0);
    write::put(s, n, l.child_place(i), x.number());
}

// One more pair in node n.
#[tactic(auto, unfolding(model::specs::Words::added))]
pub fn add_pair<T: PairNumber>(s: &mut StoreMut<'_>, n: NodeNo, row: RowID, x: T)
    requires n_lt_pool { (n.0 < s.old.layout.pool) × (count (shape_of s.old.layout) s.old.words.now n.0 < s.old.layout.capacity) }
    ensures words { s.new.words.now ≡ added (shape_of s.old.layout) s.old.words.now n.0 row.0 (T.number x) }
    ensures kept { SameLoan s.old s.new }
{
    let k = s.read().header(n).count;
    put_pair(s, n, k, row, x);
    write::put(s, n, 1, k + 1);
}
