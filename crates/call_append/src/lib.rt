// Append: a page of rows after the last.

#![tactic(auto)]

ghost use Rattle.std.specs.Prelude.{◌≡◌, ◌≢◌, ◌<◌, ◌≤◌, length};
ghost use Rattle.model.specs.Words.{lent, free_count, free_head, height};
ghost use Rattle.model.specs.Tree.{Open};
ghost use Rattle.model.specs.Reading.{leaf};
ghost use Rattle.model.specs.Refusals.{inserted};
ghost use Rattle.model.specs.Append.{append_to, insert_row_page, room};
ghost use Rattle.node_read.specs.Layout.{Fits, shape_of};
ghost use Rattle.node_read.specs.Store.{SameLoan};
ghost use Rattle.append_path.specs.Inside.{Inside, number_at, numbers};
ghost use Rattle.tree_right_edge.specs.Edge.{SoundEdge, Usable, room_of};
ghost use Rattle.call_append.specs.Placed.{grown, placed};

use append_path::NewPage;
use model::answer::{Refusal, RowPageIndexInsert};
use model::id::{NodeNo, PageID, RowID};
use node_chain;
use node_read::header;
use node_read::header::StoreHeader;
use node_read::store::{Store, StoreMut};
use tree_right_edge;
use tree_right_edge::Room;

// A path of new nodes over the page goes to the branch with room; where none has room, the root, of this height, splits.
fn grow_tree(
    s: &mut StoreMut<'_>,
    root: NodeNo,
    root_height: u64,
    room: Room,
    new: NewPage,
    nodes: &[NodeNo],
)
    requires root_lt_pool { (root.0 < s.old.layout.pool) × (root_height ≡ height (shape_of s.old.layout) s.old.words.now root.0) }
    requires le_needed { (1 ≤ room.needed) × (length nodes.now ≡ room.needed) × Usable (shape_of s.old.layout) s.old.layout.pool s.old.words.now root.0 (room_of room) }
    requires inside { Inside s.old.layout.pool (numbers nodes.now) × (root.0 ≢ number_at nodes.now 0) }
    ensures words { s.new.words.now ≡ grown (shape_of s.old.layout) s.old.words.now root.0 new.start.0 new.end.0 new.page.0 (room_of room) (numbers nodes.now) }
    ensures kept { SameLoan s.old s.new }
{
    if room.needed <= root_height {
        append_write::hang_path(s, room.node, new, nodes);
        return;
    }
    append_write::split_root(s, root, new, nodes);
}

// A new page goes where there is room. Where the right leaf has it, the chain is neither read nor written; else its nodes
// are read and tested before anything is written.
#[tactic(auto, unfolding(crate::specs::Placed::placed, model::specs::Append::append_at, model::specs::Append::taken), using(crate::proofs::Writing::nodes_are))]
fn place_page(
    s: &mut [u64],
    h: StoreHeader,
    root_height: u64,
    new: NewPage,
    room: Room,
) -> Result<RowPageIndexInsert, Refusal>
    requires fits { Fits h.layout s.old }
    requires root_lt_pool { (h.root.0 < h.layout.pool) × (h.free_head.0 ≡ free_head s.old) × (h.free_count ≡ free_count s.old) }
    requires root_height_value { root_height ≡ height (shape_of h.layout) s.old h.root.0 }
    requires usable { Usable (shape_of h.layout) h.layout.pool s.old h.root.0 (room_of room) }
    ensures answer { inserted result ≡ (placed (shape_of h.layout) h.layout.pool s.old h.root.0 new.start.0 new.end.0 new.page.0 (room_of room)).answer }
    ensures words { s.new ≡ (placed (shape_of h.layout) h.layout.pool s.old h.root.0 new.start.0 new.end.0 new.page.0 (room_of room)).words }
{
    let layout = h.layout;
    let done = RowPageIndexInsert {
        start_row_id: new.start,
        end_row_id: new.end,
        taken_nodes: room.needed,
    };
    if room.needed == 0 {
        append_write::hang_page(&mut StoreMut { layout, words: s }, room.node, new);
        return Ok(done);
    }
    let k = room.needed as usize;
    let read = Store { layout, words: &*s };
    let wanted = node_chain::read_chain(read, h.free_head, k);
    let wanted = wanted.ok_or(Refusal::Unsound(NodeNo::HEADER))?;
    let mut store = StoreMut { layout, words: s };
    let nodes = &wanted.nodes[..k];
    grow_tree(&mut store, h.root, root_height, room, new, nodes);
    node_chain::set_chain(s, wanted.next, h.free_count - room.needed);
    Ok(done)
}

// After the right leaf, with the room on the right edge: 4, 6 and 5, then the chain.
#[tactic(auto, unfolding(model::specs::Append::append_to, append_limits::specs::Limits::limits_told, crate::specs::Placed::placed))]
fn insert_after(
    s: &mut [u64],
    h: StoreHeader,
    last: NodeNo,
    free: Room,
    count: u64,
    page: PageID,
) -> Result<RowPageIndexInsert, Refusal>
    requires fits { Fits h.layout s.old }
    requires root_lt_pool { (h.root.0 < h.layout.pool) × (h.free_head.0 ≡ free_head s.old) × (h.free_count ≡ free_count s.old) }
    requires sound_edge { SoundEdge (shape_of h.layout) h.layout.pool s.old h.root.0 last.0 }
    requires free_value { room_of free ≡ room (shape_of h.layout) s.old h.root.0 }
    ensures answer { inserted result ≡ (append_to (shape_of h.layout) h.layout.pool s.old h.root.0 count page.0 (leaf last.0 Open)).answer }
    ensures words { s.new ≡ (append_to (shape_of h.layout) h.layout.pool s.old h.root.0 count page.0 (leaf last.0 Open)).words }
{
    let layout = h.layout;
    let store = Store { layout, words: &*s };
    let start = tree_right_edge::range_start(store, last);
    let top = store.header(h.root);
    append_limits::test_limits(start, count, top.height, free.needed, h.free_count)?;
    let end = RowID(start.0 + count);
    place_page(s, h, top.height, NewPage { start, end, page }, free)
}

// The page gets the next count rows.
#[tactic(auto, using(crate::proofs::FromHeader::insert_unsound))]
pub fn insert_row_page(
    s: &mut [u64],
    count: u64,
    page: PageID,
) -> Result<RowPageIndexInsert, Refusal>
    ensures answer { inserted result ≡ (insert_row_page lent s.old count page.0).answer }
    ensures words { s.new ≡ (insert_row_page lent s.old count page.0).words }
{
    let h = header::open(&s[..])?;
    let layout = h.layout;
    let store = Store { layout, words: &*s };
    let edge = tree_right_edge::right_edge(store, h.root)?;
    insert_after(s, h, edge.leaf, edge.room, count, page)
}
