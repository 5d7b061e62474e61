// Nodes are freed as a walk leaves them: children before parents, left to right.

#![tactic(auto)]

ghost use Rattle.std.specs.Prelude.{◌≡◌, ◌+◌, ◌-◌, ◌≤◌, ◌<◌, take};
ghost use Rattle.model.specs.Words.{free_all};
ghost use Rattle.model.specs.Reading.{root_nodes};
ghost use Rattle.tree_free.specs.CanFree.{CanFree};
ghost use Rattle.node_read.specs.Layout.{shape_of};
ghost use Rattle.node_read.specs.Store.{SameLoan};

use model::id::NodeNo;
use model::path::Path;
use node_chain;
use node_read::store::StoreMut;
use tree_turn::turn;

// Frees the first k nodes, in postorder, of the tree from root.
#[tactic(auto, using(crate::proofs::Freeing::of_free_first))]
#[inline(always)]
pub fn free_first(s: &mut StoreMut<'_>, root: NodeNo, k: u64)
    requires { CanFree (shape_of s.old.layout) s.old.layout.pool s.old.words.now root.0 k }
    ensures words { s.new.words.now ≡ free_all (shape_of s.old.layout) s.old.words.now (take k (root_nodes (shape_of s.old.layout) s.old.words.now root.0)) }
    ensures kept { SameLoan s.old s.new }
{
    let mut path = Path::rooted(root);
    let mut freed: u64 = 0;
    // no `for`: a turn that goes down frees no node
    while freed < k {
        let top = path.last();
        match turn::untested(s.read(), top) {
            None => {
                node_chain::free_node(s, top.node);
                freed += 1;
                path.leave();
            }
            Some(child) => path.enter(child),
        }
    }
}
