// A new path, from a leaf with the new entry up.

#![tactic(auto)]

ghost use Rattle.std.specs.Prelude.{◌≡◌, ◌<◌, length};
ghost use Rattle.model.specs.Append.{fresh, new_path};
ghost use Rattle.node_read.specs.Layout.{shape_of};
ghost use Rattle.node_read.specs.Store.{SameLoan};
ghost use Rattle.append_path.specs.Inside.{Inside, numbers};

use model::id::{NodeNo, PageID, RowID};
use model::node::RowPageIndexNodeHeader;
use node_pairs;
use node_pairs::PairNumber;
use node_read::store::StoreMut;
use node_write::write;

// A page, its first row and the row after its last.
#[derive(Clone, Copy)]
pub struct NewPage {
    pub start: RowID,
    pub end: RowID,
    pub page: PageID,
}

// Node n becomes a node of one entry, of this height and from start to end.
#[tactic(auto, unfolding(model::specs::Append::fresh))]
fn fresh_node<T: PairNumber>(
    s: &mut StoreMut<'_>,
    n: NodeNo,
    height: u64,
    start: RowID,
    end: RowID,
    x: T,
)
    requires n_lt_pool { n.0 < s.old.layout.pool }
    ensures words { s.new.words.now ≡ fresh (shape_of s.old.layout) s.old.words.now n.0 height start.0 end.0 (T.number x) }
    ensures kept { SameLoan s.old s.new }
{
    let header = RowPageIndexNodeHeader {
        height,
        count: 1,
        start_row_id: start,
        end_row_id: end,
    };
    write::put_header(s, n, header);
    node_pairs::put_pair(s, n, 0, start, x);
}

// A path of one-entry nodes over the page, the top first. New branches end at NONE.
#[tactic(auto, using(crate::proofs::NewPaths::path_turn, crate::proofs::NewPaths::inside_at, crate::proofs::NewPaths::path_end))]
#[inline(always)]
pub fn new_path(s: &mut StoreMut<'_>, new: NewPage, nodes: &[NodeNo])
    requires some { 0 < length nodes.now }
    requires inside { Inside s.old.layout.pool (numbers nodes.now) }
    ensures words { s.new.words.now ≡ new_path (shape_of s.old.layout) s.old.words.now new.start.0 new.end.0 new.page.0 (numbers nodes.now) }
    ensures kept { SameLoan s.old s.new }
{
    let leaf = nodes.len() - 1;
    for i in 0..leaf {
        fresh_node(
            s,
            nodes[i],
            (leaf - i) as u64,
            new.start,
            RowID::NONE,
            nodes[i + 1],
        );
    }
    fresh_node(s, nodes[leaf], 0, new.start, new.end, new.page);
}
