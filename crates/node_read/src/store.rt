// A store's words, lent for reading or for writing, with their layout.

ghost use Rattle.std.specs.Prelude.{◌≡◌, ◌+◌, ◌≤◌, ◌<◌};
ghost use Rattle.model.specs.Words.{child, count, node_size, pair_words, part, row};
ghost use Rattle.node_read.specs.Layout.{Fits, header_at, row_after, shape_of};

use crate::layout::Layout;
use model::id::{NodeNo, PageID, RowID};
use model::node::RowPageIndexNodeHeader;

// The words are a store of this layout.
#[derive(Clone, Copy)]
pub struct Store<'a> {
    pub layout: Layout,
    pub words: &'a [u64],
    ghost fits: { Fits layout words.now },
}

impl<'a> Store<'a> {
    // Word j of node n.
    #[tactic(auto, unfolding(model::specs::Words::part), using(model::proofs::Words::small, model::proofs::Words::place_lt))]
    pub fn part(self, n: NodeNo, j: u64) -> u64
        requires { (n.0 < self.layout.pool) × (j < node_size self.layout.capacity) }
        ensures { result ≡ part (shape_of self.entry.layout) self.entry.words.now n.0 j }
    {
        let at = self.layout.place(n, j);
        self.words[at]
    }

    // The four words before the pairs of node n.
    pub fn header(self, n: NodeNo) -> RowPageIndexNodeHeader
        requires { n.0 < self.layout.pool }
        ensures { result ≡ header_at (shape_of self.entry.layout) self.entry.words.now n.0 }
    {
        let height = self.part(n, 0);
        let count = self.part(n, 1);
        let start = self.part(n, 2);
        let end = self.part(n, 3);
        RowPageIndexNodeHeader {
            height,
            count,
            start_row_id: RowID(start),
            end_row_id: RowID(end),
        }
    }

    // The words of the first k pairs of node n.
    pub fn entries(self, n: NodeNo, k: u64) -> &'a [u64]
        requires { (n.0 < self.layout.pool) × (k ≤ self.layout.capacity) }
        ensures { result.now ≡ pair_words (shape_of self.entry.layout) self.entry.words.now n.0 0 k }
    {
        let at = self.layout.place(n, self.layout.row_place(0));
        let end = at + 2 * k as usize;
        &self.words[at..end]
    }

    // Row i of a node.
    pub fn row(self, n: NodeNo, i: u64) -> RowID
        requires { (n.0 < self.layout.pool) × (i < self.layout.capacity) }
        ensures { result.0 ≡ row (shape_of self.entry.layout) self.entry.words.now n.0 i }
    {
        RowID(self.part(n, self.layout.row_place(i)))
    }

    // The row of the entry after entry i of a node, if there is one.
    #[tactic(auto, unfolding(crate::specs::Layout::row_after))]
    pub fn row_after(self, n: NodeNo, i: u64) -> Option<RowID>
        requires { (n.0 < self.layout.pool) × (i < count (shape_of self.layout) self.words.now n.0) × (count (shape_of self.layout) self.words.now n.0 ≤ self.layout.capacity) }
        ensures { result ≡ row_after (shape_of self.entry.layout) self.entry.words.now n.0 i }
    {
        if i + 1 < self.header(n).count {
            return Some(self.row(n, i + 1));
        }
        None
    }

    // Child number i of a branch.
    pub fn child(self, n: NodeNo, i: u64) -> NodeNo
        requires { (n.0 < self.layout.pool) × (i < self.layout.capacity) }
        ensures { result.0 ≡ child (shape_of self.entry.layout) self.entry.words.now n.0 i }
    {
        NodeNo(self.part(n, self.layout.child_place(i)))
    }

    // Page id i of a leaf.
    pub fn page(self, n: NodeNo, i: u64) -> PageID
        requires { (n.0 < self.layout.pool) × (i < self.layout.capacity) }
        ensures { result.0 ≡ child (shape_of self.entry.layout) self.entry.words.now n.0 i }
    {
        PageID(self.part(n, self.layout.child_place(i)))
    }
}

// The words are a store of this layout.
#[derive(Drop)]
pub struct StoreMut<'a> {
    pub layout: Layout,
    pub words: &'a mut [u64],
    ghost fits: { Fits layout words.now },
}

impl StoreMut<'_> {
    // For reading.
    pub fn read(&self) -> Store<'_>
        ensures layout { result.layout ≡ self.now.layout }
        ensures words { result.words.now ≡ self.now.words.now }
    {
        Store {
            layout: self.layout,
            words: &*self.words,
        }
    }
}
