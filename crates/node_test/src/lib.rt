// The node test, on any words.

#![tactic(auto)]

ghost use Rattle.std.specs.Prelude.{◌≡◌, true, ℕ, ◌+◌, ◌-◌, ◌≤◌, ◌<◌};
ghost use Rattle.model.specs.Words.{row};
ghost use Rattle.model.specs.Tree.{end_sound, node_at, pairs_from, rising, sound};
ghost use Rattle.node_read.specs.Layout.{shape_of};
ghost use Rattle.node_test.specs.Test.{first_out, limit_of, node_test};

use model::id::{NodeNo, RowID};
use node_read::store::Store;

// Whether a node of this height may end so, its last row being last; next is the row of the next entry on its path, if there is
// one.
#[tactic(auto, unfolding(model::specs::Tree::end_sound, model::specs::Tree::meets))]
fn end_sound(height: u64, next: Option<RowID>, end: RowID, last: RowID) -> bool
    ensures { result ≡ end_sound height (limit_of next) end.0 last.0 }
{
    if height == 0 {
        if end <= last {
            return false;
        }
        if RowID::LIMIT < end {
            return false;
        }
        next.is_none_or(|row| end == row)
    } else {
        if end == RowID::NONE {
            return true;
        }
        last < end
    }
}

// Whether the rows of node n rise strictly. Four rows a turn: one compare and one load each, with a short loop body. Then
// the last four once more, so that no branch depends on how many are left.
#[inline(always)]
fn rises(s: Store<'_>, n: NodeNo, count: u64) -> bool
    requires n_lt_pool { (n.0 < s.layout.pool) × (1 ≤ count) × (count ≤ s.layout.capacity) }
    ensures { result ≡ rising (pairs_from (shape_of s.entry.layout) s.entry.words.now (λ (x : ℕ). x) n.0 0 count) }
{
    let mut last = s.row(n, 0).0;
    let mut i: u64 = 1;
    while i + 3 < count {
        let a = s.row(n, i).0;
        if a <= last {
            return false;
        }
        let b = s.row(n, i + 1).0;
        if b <= a {
            return false;
        }
        let c = s.row(n, i + 2).0;
        if c <= b {
            return false;
        }
        let d = s.row(n, i + 3).0;
        if d <= c {
            return false;
        }
        last = d;
        i += 4;
    }
    if 4 <= count {
        let a = s.row(n, count - 4).0;
        let b = s.row(n, count - 3).0;
        if b <= a {
            return false;
        }
        let c = s.row(n, count - 2).0;
        if c <= b {
            return false;
        }
        let d = s.row(n, count - 1).0;
        return c < d;
    }
    for k in i..count {
        let a = s.row(n, k).0;
        if a <= last {
            return false;
        }
        last = a;
    }
    true
}

// The first of the child numbers of node n that is not below the pool; the count where all are.
#[tactic(auto, unfolding(crate::specs::Test::first_out), using(crate::proofs::Rows::out_on))]
fn first_out(s: Store<'_>, n: NodeNo, count: u64) -> u64
    requires n_lt_pool { (n.0 < s.layout.pool) × (count ≤ s.layout.capacity) }
    ensures { result ≡ first_out (shape_of s.entry.layout) s.entry.layout.pool s.entry.words.now n.0 0 count }
{
    for i in 0..count {
        if !s.layout.has_node(s.child(n, i)) {
            return i;
        }
    }
    count
}

// Whether node n is sound at this height, under an entry of this row.
#[inline(always)]
pub fn is_sound(s: Store<'_>, n: NodeNo, height: u64, row: RowID, next: Option<RowID>) -> bool
    requires n_lt_pool { n.0 < s.layout.pool }
    ensures { result ≡ sound (shape_of s.entry.layout) height (node_at (shape_of s.entry.layout) s.entry.words.now n.0) row.0 (limit_of next) }
{
    let h = s.header(n);
    let count = h.count;
    if h.height != height {
        return false;
    }
    if count < 1 {
        return false;
    }
    if s.layout.capacity < count {
        return false;
    }
    if h.start_row_id != row {
        return false;
    }
    if s.row(n, 0) != row {
        return false;
    }
    let last = s.row(n, count - 1);
    if !end_sound(height, next, h.end_row_id, last) {
        return false;
    }
    rises(s, n, count)
}

// The node test: all rows, then all child numbers. Of a sound node it gives the first of its child numbers that is out of range:
// the count where none is.
#[tactic(auto, unfolding(crate::specs::Test::node_test), using(crate::proofs::Rows::facts))]
#[inline(always)]
pub fn test_node(
    s: Store<'_>,
    n: NodeNo,
    height: u64,
    row: RowID,
    next: Option<RowID>,
) -> Option<u64>
    requires n_lt_pool { n.0 < s.layout.pool }
    ensures { result ≡ node_test (shape_of s.entry.layout) s.entry.layout.pool s.entry.words.now n.0 height row.0 (limit_of next) }
{
    if !is_sound(s, n, height, row, next) {
        return None;
    }
    let h = s.header(n);
    if height == 0 {
        return Some(h.count);
    }
    Some(first_out(s, n, h.count))
}
