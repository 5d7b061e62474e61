// A walk over a tree in reading order, which is stored to in place.

ghost use Rattle.std.specs.Prelude.{◌≡◌, ◌<◌, eqb};
ghost use Rattle.node_read.specs.Layout.{shape_of};
ghost use Rattle.tree_turn.specs.Walk.{Turned, Walking, rooted_walk};

use crate::turn;
use crate::turn::Entered;
use model::answer::UnsoundNode;
use model::id::{NodeNo, RowID};
use model::path::Path;
use node_read::store::Store;

// The path to where the walk is, and for each node on it what is next after the node and the first of its child numbers out of
// range.
#[derive(Clone, Copy)]
pub struct TreeWalk {
    pub path: Path,
    pub nexts: [Option<RowID>; 32],
    pub firsts: [u64; 32],
}

impl TreeWalk {
    // At a node just entered. Not placed into its callers, and a row where nothing is read yet: for 32 times `None` a compiler calls
    // `memset`, which a host need not have.
    #[inline(never)]
    pub fn rooted(node: NodeNo, first: u64) -> TreeWalk
        ensures { result ≡ rooted_walk node.0 first }
    {
        let mut nexts = [Some(RowID(0)); 32];
        nexts[0] = None;
        TreeWalk {
            path: Path::rooted(node),
            nexts,
            firsts: [first; 32],
        }
    }

    // Whether the walk has left its first node.
    pub fn is_over(&self) -> bool
        ensures { result ≡ eqb self.now.path.depth 0 }
    {
        self.path.depth == 0
    }

    // The next turn: the last node is left where it is done, else its next child is tested and entered. Nothing is given where
    // the node was left.
    #[inline(always)]
    #[tactic(auto, using(crate::proofs::Turns::walk_turn))]
    pub fn turn(&mut self, s: Store<'_>) -> Result<Option<Entered>, UnsoundNode>
        requires walking { Walking (shape_of s.layout) s.layout.pool s.words.now self.old }
        requires not_over { 0 < self.old.path.depth }
        ensures { Turned (shape_of s.entry.layout) s.entry.layout.pool s.entry.words.now self.old result self.new }
    {
        let depth = self.path.depth;
        let at = depth - 1;
        let top = self.path.last();
        if turn::is_done(s, top) {
            self.path.leave();
            return Ok(None);
        }
        let down = turn::tested(s, top, self.firsts[at], self.nexts[at])?;
        self.path.enter(down.child);
        self.nexts[depth] = down.next;
        self.firsts[depth] = down.first;
        Ok(Some(down))
    }
}
