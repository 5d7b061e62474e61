// The empty form of release.

#![tactic(auto)]

ghost use Rattle.std.specs.Prelude.{◌≡◌, ◌+◌, ◌-◌, ◌<◌};
ghost use Rattle.model.specs.Words.{lent};
ghost use Rattle.model.specs.Release.{destroy_empty};
ghost use Rattle.model.specs.Refusals.{destroyed};

use model::answer::{Refusal, Released};
use model::id::{NodeNo, RowID};
use node_chain;
use node_read::header;
use node_read::store::{Store, StoreMut};
use node_root;
use node_write::write;

// Releases an empty store.
#[tactic(auto, using(crate::proofs::Emptying::emptying))]
pub fn destroy_empty(s: &mut [u64]) -> Result<Released, Refusal>
    ensures answer { destroyed result ≡ (destroy_empty lent s.old).answer }
    ensures words { s.new ≡ (destroy_empty lent s.old).words }
{
    let h = header::open(&s[..])?;
    let layout = h.layout;
    let root = h.root;
    let read = Store { layout, words: &*s };
    // an empty root is sound: the test of a sound one is made for the refusal alone
    if !node_root::is_empty_root(read, root) {
        if !node_root::is_sound_root(read, root) {
            return Err(Refusal::Unsound(root));
        }
        return Err(Refusal::RowBelowPivot(RowID(0)));
    }
    if layout.pool < h.free_count + 1 {
        return Err(Refusal::Unsound(NodeNo::HEADER));
    }
    node_chain::free_node(&mut StoreMut { layout, words: s }, root);
    write::set_word(s, 2, layout.pool);
    Ok(Released { nodes: 1, pages: 0 })
}
