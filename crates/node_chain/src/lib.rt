// The chain of free nodes.

#![tactic(auto)]

ghost use Rattle.std.specs.Prelude.{◌≡◌, not, [], IfSome, is_some, ◌+◌, ◌-◌, ◌≤◌, ◌<◌, eqb, length, set};
ghost use Rattle.model.specs.Words.{free_count, freed};
ghost use Rattle.model.specs.Reading.{occ};
ghost use Rattle.model.specs.Append.{chain_sound, firsts, past};
ghost use Rattle.node_read.specs.Layout.{shape_of};
ghost use Rattle.node_read.specs.Store.{SameLoan};
ghost use Rattle.node_chain.specs.Chain.{is_link, listed};

use model::id::NodeNo;
use model::node::RowPageIndexNodeHeader;
use node_read::store::{Store, StoreMut};
use node_write::write;

// The head of the chain and the free count, as nodes are taken.
pub fn set_chain(s: &mut [u64], head: NodeNo, free: u64)
    requires { 8 ≤ length s.old }
    ensures { s.new ≡ set (set s.old 3 head.0) 4 free }
{
    write::set_word(s, 3, head.0);
    write::set_word(s, 4, free);
}

// Node n goes to the head of the chain: its first two words alone are written.
#[tactic(auto, unfolding(model::specs::Words::freed))]
pub fn free_node(s: &mut StoreMut<'_>, n: NodeNo)
    requires n_lt_pool { (n.0 < s.old.layout.pool) × (free_count s.old.words.now ≤ 65535) }
    ensures words { s.new.words.now ≡ freed (shape_of s.old.layout) s.old.words.now n.0 }
    ensures kept { SameLoan s.old s.new }
{
    let head = s.read().words[3];
    let free = s.read().words[4];
    write::put(s, n, 0, RowPageIndexNodeHeader::FREE_MARK);
    write::put(s, n, 1, head);
    set_chain(&mut *s.words, n, free + 1);
}

// Whether n is among the first k nodes.
fn holds(nodes: [NodeNo; 32], k: usize, n: NodeNo) -> bool
    requires { k ≤ 32 }
    ensures { not result ≡ eqb (occ n.0 (listed nodes 0 k)) 0 }
{
    nodes[..k].contains(&n)
}

// Whether node n may be in the chain: below the pool and marked free, its next number at most the pool.
fn is_link(s: Store<'_>, n: NodeNo) -> bool
    ensures { result ≡ is_link (shape_of s.entry.layout) s.entry.layout.pool s.entry.words.now n.0 }
{
    if !s.layout.has_node(n) {
        return false;
    }
    let node = s.header(n);
    if !node.is_free() {
        return false;
    }
    node.count <= s.layout.pool
}

// The first nodes of the chain, and the number after them.
#[derive(Clone, Copy)]
pub struct Wanted {
    pub nodes: [NodeNo; 32],
    pub next: NodeNo,
}

// The k nodes of the chain from head on, read and tested before anything is written; none where they may not be taken.
pub fn read_chain(s: Store<'_>, head: NodeNo, k: usize) -> Option<Wanted>
    requires k_bound { k ≤ 32 }
    ensures ok { is_some result ≡ chain_sound (shape_of s.entry.layout) s.entry.layout.pool s.entry.words.now head.0 [] k }
    ensures given { IfSome result (λ w. (listed w.nodes 0 k ≡ firsts (shape_of s.entry.layout) s.entry.words.now head.0 k) × (w.next.0 ≡ past (shape_of s.entry.layout) s.entry.words.now head.0 k)) }
{
    let mut nodes = [NodeNo(0); 32];
    let mut n = head;
    for i in 0..k {
        if !is_link(s, n) {
            return None;
        }
        if holds(nodes, i, n) {
            return None;
        }
        nodes[i] = n;
        n = NodeNo(s.header(n).count);
    }
    Some(Wanted { nodes, next: n })
}
