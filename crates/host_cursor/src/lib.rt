// A host's cursor of two words.

#![tactic(auto)]

ghost use Rattle.std.specs.Prelude.{◌≡◌};
ghost use Rattle.model.specs.Refusals.{next_leaf};
ghost use Rattle.host_cursor.specs.Cursors.{cursor_after, cursor_in};

use answer_words;
use model::answer::{Leaf, Refusal};
use model::cursor::RowPageIndexMemCursor;
use model::id::RowID;
use next_words;

// The cursor of two words: its row, and 0 where it is not done. Words that are not there are those of a cursor never sought.
pub fn cursor_in(cursor: &[u64]) -> RowPageIndexMemCursor
    ensures { result ≡ cursor_in cursor.now }
{
    let row = cursor.get(0).copied().unwrap_or(0);
    let done = cursor.get(1).copied().unwrap_or(1) != 0;
    RowPageIndexMemCursor {
        row_id: RowID(row),
        done,
    }
}

// The cursor's words where a leaf was given; else they stay.
#[tactic(auto, unfolding(model::specs::Words::fill))]
pub fn cursor_out(
    cursor: &mut [u64],
    c: RowPageIndexMemCursor,
    given: Result<Option<Leaf>, Refusal>,
)
    ensures { cursor.new ≡ cursor_after cursor.old c (next_leaf given) }
{
    if !next_words::gives_leaf(given) {
        return;
    }
    answer_words::put(cursor, 0, c.row_id.0);
    answer_words::put(cursor, 1, u64::from(c.done));
}
