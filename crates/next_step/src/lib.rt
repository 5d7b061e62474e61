// A step of the leaf walk, by value.

#![tactic(auto)]

ghost use Rattle.std.specs.Prelude.{◌≡◌, ◌<◌};
ghost use Rattle.model.specs.LeafWalk.{seek};
ghost use Rattle.next_step.specs.Steps.{Steps, gives};

use model::answer::{Leaf, Refusal};
use model::cursor::RowPageIndexMemCursor;
use model::id::{NodeNo, RowID};
use next_records::LeafEntries;
use node_read::header;
use node_read::store::Store;
use tree_path::path;

// What a step by value gives: a leaf, the cursor afterwards, and the entries to give out.
#[derive(Clone, Copy)]
pub struct LeafStep {
    pub leaf: Leaf,
    pub cursor: RowPageIndexMemCursor,
    pub entries: LeafEntries,
}

// The leaf reached, and what is next for it. After the last leaf the cursor is done.
#[tactic(auto, unfolding(model::specs::LeafWalk::is_last))]
fn give(s: Store<'_>, n: NodeNo, next: Option<RowID>) -> LeafStep
    requires n_lt_pool { n.0 < s.layout.pool }
    ensures { result ≡ gives s.entry.layout s.entry.words.now n next }
{
    let h = s.header(n);
    let start = h.start_row_id;
    let end = h.end_row_id;
    let done = next.is_none();
    LeafStep {
        leaf: Leaf {
            start_row_id: start,
            end_row_id: end,
            count: h.count,
        },
        cursor: RowPageIndexMemCursor { row_id: end, done },
        entries: LeafEntries {
            layout: s.layout,
            leaf: n,
            count: h.count as usize,
        },
    }
}

// The step by value, for a list of this length: none after the last leaf. Nothing moves but by a leaf.
pub fn step(
    s: &[u64],
    cursor: RowPageIndexMemCursor,
    len: usize,
) -> Result<Option<LeafStep>, Refusal>
    ensures { Steps s.now cursor len result }
{
    let h = header::open(s)?;
    let layout = h.layout;
    let capacity = layout.capacity;
    if (len as u64) < capacity {
        return Err(Refusal::ListTooShort(capacity));
    }
    if cursor.done {
        return Ok(None);
    }
    let store = Store { layout, words: s };
    let reached = path::find_leaf(store, h.root, cursor.row_id)?;
    Ok(Some(give(store, reached.leaf, reached.next)))
}

// A cursor sought to a row.
pub fn sought(row: RowID) -> RowPageIndexMemCursor
    ensures { result ≡ seek row.0 }
{
    RowPageIndexMemCursor {
        row_id: row,
        done: false,
    }
}
