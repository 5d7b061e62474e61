// The words of any store, read and changed by place: nothing is refused but a place that is not lent.

ghost use Rattle.std.specs.Prelude.{◌≡◌, ◌≤◌, length, IsNone};

use model::id::NodeNo;
use node_read::layout::Layout;

// Word i of the store; 0 where it has none.
pub fn word(s: &[u64], i: usize) -> u64 {
    s.get(i).copied().unwrap_or(0)
}

// Where word j of node n stands, by the store's first word, C.
fn place_of(s: &[u64], n: u64, j: u64) -> Option<usize> {
    let l = Layout {
        capacity: word(s, 0),
        pool: Layout::MAX_POOL,
    };
    if Layout::MAX_CAPACITY < l.capacity || l.pool < n || l.node_size() <= j {
        return None;
    }
    Some(l.place(NodeNo(n), j))
}

// Word j of node n.
pub fn part(s: &[u64], n: u64, j: u64) -> u64 {
    place_of(s, n, j).map_or(0, |i| word(s, i))
}

// How many entries of a node can be read: its count, at most C.
pub fn entries(s: &[u64], n: u64) -> u64
    ensures { result ≤ 4094 }
{
    let capacity = word(s, 0);
    if Layout::MAX_CAPACITY < capacity {
        return 0;
    }
    part(s, n, 1).min(capacity)
}

// Row i of a node, and its page or child number.
pub fn row(s: &[u64], n: u64, i: u64) -> u64 {
    if Layout::MAX_CAPACITY <= i {
        return 0;
    }
    part(s, n, 4 + 2 * i)
}

pub fn child(s: &[u64], n: u64, i: u64) -> u64 {
    if Layout::MAX_CAPACITY <= i {
        return 0;
    }
    part(s, n, 5 + 2 * i)
}

// Words from place i on become these. None where one of them has no place; then none changes.
pub fn load(s: &mut [u64], i: usize, words: &[u64]) -> Option<()>
    ensures length { length s.new ≡ length s.old }
    ensures none { IsNone result → s.new ≡ s.old }
{
    let end = i.checked_add(words.len())?;
    if s.len() < end {
        return None;
    }
    s[i..end].copy_from_slice(words);
    Some(())
}

// Word j of node n becomes x. None where there is no such word.
pub fn put(s: &mut [u64], n: u64, j: u64, x: u64) -> Option<()>
    ensures length { length s.new ≡ length s.old }
    ensures none { IsNone result → s.new ≡ s.old }
{
    let i = place_of(s, n, j)?;
    load(s, i, &[x])
}
