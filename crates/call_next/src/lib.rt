// The leaf walk.

#![tactic(auto)]

ghost use Rattle.std.specs.Prelude.{◌≡◌};
ghost use Rattle.model.specs.Words.{lent};
ghost use Rattle.model.specs.Refusals.{next_leaf};
ghost use Rattle.model.specs.LeafWalk.{next_leaf_of};
ghost use Rattle.model.specs.LeafWalk as W;

use model::answer::{Leaf, Refusal};
use model::cursor::RowPageIndexMemCursor;
use model::id::RowID;
use model::node::PageEntry;
use next_step;

// Keeps a row; it cannot be refused.
pub fn seek(c: &mut RowPageIndexMemCursor, row: RowID)
    ensures { c.new ≡ W.seek row.0 }
{
    *c = next_step::sought(row);
}

// Gives the leaf reached for the row kept, and keeps that leaf's end. Its entries go into the list.
pub fn next(
    c: &mut RowPageIndexMemCursor,
    s: &[u64],
    list: &mut [PageEntry],
) -> Result<Option<Leaf>, Refusal>
    ensures { (next_leaf result ≡ (next_leaf_of lent s.now c.old list.old).answer)
        × ((c.new ≡ (next_leaf_of lent s.now c.old list.old).cursor)
        × (list.new ≡ (next_leaf_of lent s.now c.old list.old).list)) }
{
    let Some(step) = next_step::step(s, *c, list.len())? else {
        return Ok(None);
    };
    next_records::copy_out(s, list, step.entries);
    *c = step.cursor;
    Ok(Some(step.leaf))
}
