// Which capacity, pool and length make a store, and where its words lie. Nothing else knows.

ghost use Rattle.std.specs.Prelude.{◌≡◌, ◌+◌, ◌*◌, ◌≤◌, ◌<◌, length, ltb};
ghost use Rattle.model.specs.Words.{child_place, in_range, node_size, row_place, sized, store_length, word_place};
ghost use Rattle.node_read.specs.Layout.{shape_of};

use model::id::NodeNo;

// The capacity of a node and the number of nodes: C and P.
#[derive(Clone, Copy)]
pub struct Layout {
    pub capacity: u64,
    pub pool: u64,
}

impl Layout {
    pub const MIN_CAPACITY: u64 = 2;

    pub const MAX_CAPACITY: u64 = 4094;

    pub const MIN_POOL: u64 = 1;

    pub const MAX_POOL: u64 = 65535;

    // Whether the pool has node n.
    pub fn has_node(self, n: NodeNo) -> bool
        ensures { result ≡ ltb n.0 self.pool }
    {
        n.0 < self.pool
    }

    // Whether capacity and pool are in range.
    pub fn in_range(self) -> bool
        ensures { result ≡ in_range self.capacity self.pool }
    {
        if self.capacity < Layout::MIN_CAPACITY {
            return false;
        }
        if Layout::MAX_CAPACITY < self.capacity {
            return false;
        }
        if self.pool < Layout::MIN_POOL {
            return false;
        }
        if Layout::MAX_POOL < self.pool {
            return false;
        }
        true
    }

    // The words of a node.
    pub fn node_size(self) -> u64
        requires { self.capacity ≤ 4094 }
        ensures { result ≡ node_size self.capacity }
    {
        4 + 2 * self.capacity
    }

    // The words of a store.
    pub fn store_length(self) -> u64
        requires { (self.capacity ≤ 4094) × (self.pool ≤ 65535) }
        ensures { result ≡ store_length self.capacity self.pool }
    {
        8 + self.pool * self.node_size()
    }

    // Whether capacity and pool are in range, and the words are as many as they need.
    pub fn fits(self, s: &[u64]) -> bool
        ensures { result ≡ sized self.capacity self.pool (length s.now) }
    {
        let good = self.in_range();
        if !good {
            return false;
        }
        s.len() as u64 == self.store_length()
    }

    // The place of word j of node n among the store's words.
    #[tactic(auto, using(model::proofs::Words::in_pairs_lem))]
    pub fn place(self, n: NodeNo, j: u64) -> usize
        requires { (self.capacity ≤ 4094) × (n.0 ≤ 65535) × (j < node_size self.capacity) }
        ensures { result ≡ word_place (shape_of self) n.0 j }
    {
        (8 + n.0 * self.node_size() + j) as usize
    }

    // The place of row i in a node.
    pub fn row_place(self, i: u64) -> u64
        requires { (i < self.capacity) × (self.capacity ≤ 4094) }
        ensures { result ≡ row_place i }
    {
        4 + 2 * i
    }

    // The place of page or child number i in a node.
    pub fn child_place(self, i: u64) -> u64
        requires { (i < self.capacity) × (self.capacity ≤ 4094) }
        ensures { result ≡ child_place i }
    {
        5 + 2 * i
    }
}
