// A new store in lent words.

#![tactic(auto)]

ghost use Rattle.std.specs.Prelude.{◌≡◌, ◌-◌, ◌≤◌, length};
ghost use Rattle.std.proofs.lemmas.List.Edits.{sets};
ghost use Rattle.model.specs.Words.{lent};
ghost use Rattle.model.specs.Refusals.{created};
ghost use Rattle.model.specs.Create.{chained, create, new_header};
ghost use Rattle.node_read.specs.Layout.{shape_of};
ghost use Rattle.node_read.specs.Store.{SameLoan};

use model::answer::Refusal;
use model::id::{NodeNo, RowID};
use model::node::RowPageIndexNodeHeader;
use node_read::layout::Layout;
use node_read::store::StoreMut;
use node_write::write;

// Words 0 to 7: node 0 is the root, and the chain begins at node 1.
fn write_header(s: &mut [u64], capacity: u64, nodes: u64)
    requires { (8 ≤ length s.old) × (1 ≤ nodes) }
    ensures { s.new ≡ sets s.old 0 (new_header capacity nodes) }
{
    s[..8].copy_from_slice(&[capacity, nodes, 0, 1, nodes - 1, 0, 0, 0]);
}

// Nodes 1 and on are free, each before the next number.
#[tactic(auto, unfolding(model::specs::Create::chained), using(node_write::proofs::Turns::stop))]
fn link_nodes(s: &mut StoreMut<'_>)
    ensures words { s.new.words.now ≡ chained (shape_of s.old.layout) s.old.words.now 1 (s.old.layout.pool - 1) }
    ensures kept { SameLoan s.old s.new }
{
    for n in 1..s.layout.pool {
        write::put(s, NodeNo(n), 0, RowPageIndexNodeHeader::FREE_MARK);
        write::put(s, NodeNo(n), 1, n + 1);
    }
}

// An empty store of so many nodes, each for capacity entries; its rows begin at start.
#[tactic(auto, unfolding(model::specs::Create::create, model::specs::Create::new_store), using(crate::proofs::Stores::new_steps))]
pub fn new(s: &mut [u64], capacity: u64, nodes: u64, start: RowID) -> Result<(), Refusal>
    ensures answer { created result ≡ (create lent s.old capacity nodes start.0).answer }
    ensures words { s.new ≡ (create lent s.old capacity nodes start.0).words }
{
    let layout = Layout {
        capacity,
        pool: nodes,
    };
    if !layout.fits(&s[..]) {
        return Err(Refusal::BadParameters);
    }
    if RowID::LIMIT < start {
        return Err(Refusal::RowLimit);
    }
    write_header(s, capacity, nodes);
    let mut store = StoreMut { layout, words: s };
    write::empty_node(&mut store, NodeNo(0), start);
    link_nodes(&mut store);
    Ok(())
}
