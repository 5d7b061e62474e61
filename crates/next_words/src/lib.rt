// The leaf walk for callers that hold the cursor by value and lend plain words.

#![tactic(auto)]

ghost use Rattle.std.specs.Prelude.{◌≡◌, ◌*◌, ◌≤◌, length};
ghost use Rattle.model.specs.Words.{fill};
ghost use Rattle.model.specs.LeafWalk as W;
ghost use Rattle.model.specs.Refusals.{next_leaf};
ghost use Rattle.next_records.specs.Listing.{Readable, records_of};
ghost use Rattle.next_words.specs.Written.{WordSteps, record_words};

use model::answer::{Leaf, Refusal};
use model::cursor::RowPageIndexMemCursor;
use next_records::LeafEntries;
use next_step;
use node_read::store::Store;

// The answer, and the cursor afterwards.
#[derive(Clone, Copy)]
pub struct WordStep {
    pub answer: Result<Option<Leaf>, Refusal>,
    pub cursor: RowPageIndexMemCursor,
}

// Whether a step gave a leaf.
#[tactic(auto, unfolding(model::specs::LeafWalk::gives_leaf))]
pub fn gives_leaf(a: Result<Option<Leaf>, Refusal>) -> bool
    ensures { result ≡ W.gives_leaf (next_leaf a) }
{
    match a {
        Ok(Some(_)) => true,
        Ok(None) => false,
        Err(_) => false,
    }
}

// Words go to the front of a list, and the rest of it stays.
fn copy_front(from: &[u64], out: &mut [u64])
    requires { length from.now ≤ length out.old }
    ensures { out.new ≡ fill out.old 0 from.now }
{
    // no `copy_from_slice`: it becomes `memmove`, which a host need not have
    for i in 0..from.len() {
        out[i] = from[i];
    }
}

// Row and page of each entry in turn: the words of the leaf's pairs as they stand.
fn copy_words(s: &[u64], out: &mut [u64], e: LeafEntries)
    requires { Readable s.now e × (2 * e.count ≤ length out.old) }
    ensures { out.new ≡ fill out.old 0 (record_words (records_of s.now e)) }
{
    if e.count == 0 {
        return;
    }
    let layout = e.layout;
    let store = Store { layout, words: s };
    copy_front(store.entries(e.leaf, e.count as u64), out);
}

// `next` with a list of words in place of the list of records: two words to a record.
pub fn next_words(s: &[u64], cursor: RowPageIndexMemCursor, out: &mut [u64]) -> WordStep
    ensures { WordSteps s.now cursor out.old out.new result }
{
    match next_step::step(s, cursor, out.len() / 2) {
        Ok(Some(step)) => {
            copy_words(s, out, step.entries);
            WordStep {
                answer: Ok(Some(step.leaf)),
                cursor: step.cursor,
            }
        }
        Ok(None) => WordStep {
            answer: Ok(None),
            cursor,
        },
        Err(r) => WordStep {
            answer: Err(r),
            cursor,
        },
    }
}
