// Writes to nodes.

ghost use Rattle.std.specs.Prelude.{◌≡◌, ◌<◌, length, set};
ghost use Rattle.model.specs.Words.{count, emptied, node_size, put};
ghost use Rattle.node_read.specs.Layout.{shape_of};
ghost use Rattle.node_read.specs.Store.{SameLoan};
ghost use Rattle.node_write.specs.Write.{put_header};

use model::id::{NodeNo, RowID};
use model::node::RowPageIndexNodeHeader;
use node_read::store::StoreMut;

// Word i of the store becomes x.
pub fn set_word(s: &mut [u64], i: usize, x: u64)
    requires { i < length s.old }
    ensures { s.new ≡ set s.old i x }
{
    s[i] = x;
}

// Word j of node n becomes x.
#[tactic(auto, unfolding(model::specs::Words::put), using(model::proofs::Words::place_lt))]
pub fn put(s: &mut StoreMut<'_>, n: NodeNo, j: u64, x: u64)
    requires n_lt_pool { (n.0 < s.old.layout.pool) × (j < node_size s.old.layout.capacity) }
    ensures words { s.new.words.now ≡ put (shape_of s.old.layout) s.old.words.now n.0 j x }
    ensures kept { SameLoan s.old s.new }
{
    let at = s.layout.place(n, j);
    s.words[at] = x;
}

// The four words before the pairs of node n.
pub fn put_header(s: &mut StoreMut<'_>, n: NodeNo, h: RowPageIndexNodeHeader)
    requires n_lt_pool { n.0 < s.old.layout.pool }
    ensures words { s.new.words.now ≡ put_header (shape_of s.old.layout) s.old.words.now n.0 h }
    ensures kept { SameLoan s.old s.new }
{
    put(s, n, 0, h.height);
    put(s, n, 1, h.count);
    put(s, n, 2, h.start_row_id.0);
    put(s, n, 3, h.end_row_id.0);
}

// Node n becomes an empty root leaf that starts at this row.
#[tactic(auto, unfolding(model::specs::Words::emptied))]
pub fn empty_node(s: &mut StoreMut<'_>, n: NodeNo, start: RowID)
    requires n_lt_pool { n.0 < s.old.layout.pool }
    ensures words { s.new.words.now ≡ emptied (shape_of s.old.layout) s.old.words.now n.0 start.0 }
    ensures kept { SameLoan s.old s.new }
{
    let header = RowPageIndexNodeHeader {
        height: 0,
        count: 0,
        start_row_id: start,
        end_row_id: RowID::NONE,
    };
    put_header(s, n, header);
}
