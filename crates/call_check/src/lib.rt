// The full check: it accepts exactly the well-formed stores.

#![tactic(auto)]

ghost use Rattle.std.specs.Prelude.{◌≡◌, ◌+◌, ◌-◌, ◌≤◌, ◌<◌};
ghost use Rattle.model.specs.Words.{lent};
ghost use Rattle.model.specs.FullCheck.{chain_ends, full_check};
ghost use Rattle.model.specs.Refusals.{checked_answer};
ghost use Rattle.node_read.specs.Layout.{shape_of};
ghost use Rattle.call_check.specs.Ending.{ending};

use model::answer::{Refusal, WellFormed};
use model::id::NodeNo;
use node_read::header;
use node_read::header::StoreHeader;
use node_read::store::Store;
use tree_survey;
use tree_tally::Counts;

// Whether k free nodes from head on lead to the end of the chain.
#[tactic(auto, using(crate::proofs::Following::following))]
fn follow_chain(s: Store<'_>, head: NodeNo, k: u64) -> bool
    ensures { result ≡ chain_ends (shape_of s.entry.layout) s.entry.layout.pool s.entry.words.now head.0 k }
{
    let mut n = head;
    for _ in 0..k {
        if !s.layout.has_node(n) {
            return false;
        }
        let h = s.header(n);
        if !h.is_free() {
            return false;
        }
        n = NodeNo(h.count);
    }
    n == NodeNo(s.layout.pool)
}

// After a sound tree with these counts: whether the chain was one, and all nodes are held.
#[tactic(auto, using(crate::proofs::Following::ends))]
fn check_counts(h: StoreHeader, counts: Counts, chain: bool) -> Result<WellFormed, Refusal>
    requires { h.free_count ≤ h.layout.pool }
    ensures { checked_answer result ≡ ending h counts chain }
{
    if !chain {
        return Err(Refusal::Unsound(NodeNo::HEADER));
    }
    if counts.nodes != h.layout.pool - h.free_count {
        return Err(Refusal::Unsound(NodeNo::HEADER));
    }
    Ok(WellFormed {
        entries: counts.entries,
        nodes: counts.nodes,
        free: h.free_count,
    })
}

// Whether the store is well-formed, with its counts; or the first fault. The chain is followed first, though it is told last:
// it waits for one load after the other, and after the long call of the survey the compiler kept the words' address where such
// loads took nearly twice as long.
#[tactic(auto, using(crate::proofs::Passes::passing))]
pub fn full_check(s: &[u64]) -> Result<WellFormed, Refusal>
    ensures { checked_answer result ≡ full_check lent s.now }
{
    let h = header::open(s)?;
    let layout = h.layout;
    let store = Store { layout, words: s };
    let chain = follow_chain(store, h.free_head, h.free_count);
    let surveys = tree_survey::survey_both(store, h.root);
    let counts = surveys.nodes?;
    surveys.ends?;
    check_counts(h, counts, chain)
}
