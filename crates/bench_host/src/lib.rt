// What the benchmarks of the node test, the walk and the leaf walk call: functions that any words may be handed to, which
// crates/bench_host_c offers to C. No part of the index; the other calls are measured through crates/host.

#![tactic(auto)]

ghost use Rattle.std.specs.Prelude.{◌≡◌};
ghost use Rattle.model.specs.LeafWalk.{seek};
ghost use Rattle.model.specs.Refusals.{next_leaf};
ghost use Rattle.next_words.specs.Written.{next_words_of};
ghost use Rattle.node_test.specs.Test.{limit_of};
ghost use Rattle.bench_host.specs.Numbers.{end_number, limit_to, open_number, survey_of, test_of};

use model::answer::{Leaf, Refusal};
use model::cursor::RowPageIndexMemCursor;
use model::id::{NodeNo, RowID};
use next_words;
use node_read::header;
use node_read::store::Store;
use node_test;
use tree_survey;

// Refused: the header is damaged, the store is closed, a node number is out of range, or the tree is unsound.
const REFUSED: u64 = u64::MAX;

const UNSOUND: u64 = u64::MAX - 1;

// The header test alone: the number of nodes.
pub fn bench_open(words: &[u64]) -> u64
    ensures { result ≡ open_number words.now }
{
    header::open(words).map_or(REFUSED, |h| h.layout.pool)
}

// A number as a limit.
fn limit(bounded: u64, next: u64) -> Option<RowID>
    ensures { limit_of result ≡ limit_to bounded next }
{
    (bounded != 0).then_some(RowID(next))
}

// The header test, and the node test of one node: the first of its child numbers out of range, or its count.
pub fn bench_test_node(
    words: &[u64],
    node: u64,
    height: u64,
    row: u64,
    bounded: u64,
    next: u64,
) -> u64
    ensures { result ≡ test_of words.now node height row (limit_to bounded next) }
{
    let Ok(h) = header::open(words) else {
        return REFUSED;
    };
    let layout = h.layout;
    if !layout.has_node(NodeNo(node)) {
        return REFUSED;
    }
    let beyond = limit(bounded, next);
    let store = Store { layout, words };
    node_test::test_node(store, NodeNo(node), height, RowID(row), beyond).unwrap_or(UNSOUND)
}

// The header test, and a reading of the whole tree: its nodes.
pub fn bench_survey(words: &[u64], ends: u64) -> u64
    ensures { result ≡ survey_of words.now ends }
{
    let Ok(h) = header::open(words) else {
        return REFUSED;
    };
    let layout = h.layout;
    let store = Store { layout, words };
    tree_survey::survey_tree(store, ends != 0, h.root).map_or(REFUSED, |k| k.nodes)
}

// The end of the leaf that a step gave.
#[tactic(auto, using(crate::proofs::Refused::no_end))]
fn end_of(answer: Result<Option<Leaf>, Refusal>) -> u64
    ensures { result ≡ end_number (next_leaf answer) }
{
    match answer {
        Ok(Some(leaf)) => leaf.end_row_id.0,
        Ok(None) => REFUSED,
        Err(_) => REFUSED,
    }
}

// One step of a leaf walk from a row, the records as words: the leaf's end.
pub fn bench_next(words: &[u64], row: u64, list: &mut [u64]) -> u64
    ensures number { result ≡ end_number (next_words_of words.now (seek row) list.old).answer }
    ensures list { list.new ≡ (next_words_of words.now (seek row) list.old).words }
{
    let cursor = RowPageIndexMemCursor {
        row_id: RowID(row),
        done: false,
    };
    let step = next_words::next_words(words, cursor, list);
    end_of(step.answer)
}
