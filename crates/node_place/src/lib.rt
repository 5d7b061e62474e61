// The place of a row in a node.

#![tactic(auto)]

ghost use Rattle.std.specs.Prelude.{◌≡◌, ℕ, ◌+◌, ◌≤◌, ◌<◌, min, T};
ghost use Rattle.model.specs.Tree.{pairs_from, rising};
ghost use Rattle.model.specs.Reading.{last_not_above};
ghost use Rattle.node_read.specs.Layout.{shape_of};
ghost use Rattle.node_place.specs.Place.{LiesIn};

use model::id::{NodeNo, RowID};
use node_read::store::Store;

// The place of q lies in a part of so many entries from low on: the start of a part of step entries that it lies in. Every
// step-th row is looked at, and no branch depends on one: the processor would guess it wrong half of the time.
fn narrow(s: Store<'_>, n: NodeNo, count: u64, q: RowID, low: u64, width: u64, step: u64) -> u64
    requires n_lt_pool { (n.0 < s.layout.pool) × (count ≤ s.layout.capacity) × T (rising (pairs_from (shape_of s.layout) s.words.now (λ (x : ℕ). x) n.0 0 count)) }
    requires le_step { (1 ≤ step) × (step ≤ 4096) × (width ≤ 4096) × (low < count) }
    requires lies_in { LiesIn (shape_of s.layout) s.words.now q.0 n.0 count low width }
    ensures { LiesIn (shape_of s.entry.layout) s.entry.words.now q.0 n.0 count result step }
{
    let end = count.min(low + width);
    let mut place = low;
    for i in (low + step..end).step_by(step as usize) {
        if s.row(n, i) <= q {
            place = i;
        }
    }
    place
}

// The last entry of node n whose row is not above q; 0 where there is none.
pub fn place_of(s: Store<'_>, n: NodeNo, count: u64, q: RowID) -> u64
    requires n_lt_pool { (n.0 < s.layout.pool) × (1 ≤ count) × (count ≤ s.layout.capacity) × T (rising (pairs_from (shape_of s.layout) s.words.now (λ (x : ℕ). x) n.0 0 count)) }
    ensures { result ≡ last_not_above (shape_of s.entry.layout) s.entry.words.now q.0 n.0 count }
{
    if count <= 16 {
        return narrow(s, n, count, q, 0, count, 1);
    }
    let part = narrow(s, n, count, q, 0, count, 256);
    let few = narrow(s, n, count, q, part, 256, 16);
    narrow(s, n, count, q, few, 16, 1)
}
