// The calls for a host that holds its own store: functions on lent words, which crates/host_c offers to C. Each writes its
// answer into a lent array of seven words, as far as they fit, and returns the refusal's number, or 0. docs/HOST.md tells how
// to call them.

#![tactic(auto)]

ghost use Rattle.std.specs.Prelude.{◌≡◌};
ghost use Rattle.answer_numbers.specs.Numbers.{answer_words};
ghost use Rattle.answer_words.specs.Told.{Tells};
ghost use Rattle.host.specs.Served.{append, check, create, destroy, destroy_empty, find, next, on_cursor, on_pages, on_walk, on_words, prune, seek, served};

use answer_numbers::Numbers;
use answer_words;
use call_release_empty;
use host_cursor;
use model::id::{PageID, RowID};
use next_words;

// A new store of so many nodes for capacity entries each, whose rows begin at start.
pub fn row_page_index_create(
    words: &mut [u64],
    capacity: u64,
    nodes: u64,
    start: u64,
    answer: &mut [u64],
) -> u64
    ensures words { words.new ≡ (served (on_words words.old) (create capacity nodes start)).arrays.words }
    ensures answer { Tells answer.old (answer_words (served (on_words words.old) (create capacity nodes start)).answer) answer.new result }
{
    let n = Numbers::from(call_create::new(words, capacity, nodes, RowID(start)));
    answer_words::tell(answer, n)
}

// Values: start, end, nodes taken.
pub fn row_page_index_append(words: &mut [u64], count: u64, page: u64, answer: &mut [u64]) -> u64
    ensures words { words.new ≡ (served (on_words words.old) (append count page)).arrays.words }
    ensures answer { Tells answer.old (answer_words (served (on_words words.old) (append count page)).answer) answer.new result }
{
    let n = Numbers::from(call_append::insert_row_page(words, count, PageID(page)));
    answer_words::tell(answer, n)
}

// One value, the page; or none.
pub fn row_page_index_find(words: &[u64], row: u64, answer: &mut [u64]) -> u64
    ensures answer { Tells answer.old (answer_words (served (on_words words.now) (find row)).answer) answer.new result }
{
    let n = Numbers::from(call_find::try_find_row(words, RowID(row)));
    answer_words::tell(answer, n)
}

// Values: entries removed, nodes freed, levels collapsed.
pub fn row_page_index_prune(
    words: &mut [u64],
    start: u64,
    end: u64,
    ids: &[u64],
    answer: &mut [u64],
) -> u64
    ensures words { words.new ≡ (served (on_words words.old) (prune start end ids.now)).arrays.words }
    ensures answer { Tells answer.old (answer_words (served (on_words words.old) (prune start end ids.now)).answer) answer.new result }
{
    let n = Numbers::from(call_prune::prune_checkpoint_prefix(
        words,
        RowID(start),
        RowID(end),
        ids,
    ));
    answer_words::tell(answer, n)
}

// Values: nodes freed, pages. The page ids go into pages.
pub fn row_page_index_destroy(
    words: &mut [u64],
    pivot: u64,
    pages: &mut [u64],
    answer: &mut [u64],
) -> u64
    ensures words { words.new ≡ (served (on_pages words.old pages.old) (destroy pivot)).arrays.words }
    ensures list { pages.new ≡ (served (on_pages words.old pages.old) (destroy pivot)).arrays.pages }
    ensures answer { Tells answer.old (answer_words (served (on_pages words.old pages.old) (destroy pivot)).answer) answer.new result }
{
    let n = Numbers::from(call_release::destroy(words, RowID(pivot), pages));
    answer_words::tell(answer, n)
}

// Values: nodes freed, pages; of an empty store.
pub fn row_page_index_destroy_empty(words: &mut [u64], answer: &mut [u64]) -> u64
    ensures words { words.new ≡ (served (on_words words.old) destroy_empty).arrays.words }
    ensures answer { Tells answer.old (answer_words (served (on_words words.old) destroy_empty).answer) answer.new result }
{
    let n = Numbers::from(call_release_empty::destroy_empty(words));
    answer_words::tell(answer, n)
}

// Values: entries, tree nodes, free nodes.
pub fn row_page_index_check(words: &[u64], answer: &mut [u64]) -> u64
    ensures answer { Tells answer.old (answer_words (served (on_words words.now) check).answer) answer.new result }
{
    let n = Numbers::from(call_check::full_check(words));
    answer_words::tell(answer, n)
}

// Keeps a row.
#[tactic(auto, unfolding(model::specs::Words::fill))]
pub fn row_page_index_seek(cursor: &mut [u64], row: u64)
    ensures { cursor.new ≡ (served (on_cursor cursor.old) (seek row)).arrays.cursor }
{
    answer_words::put(cursor, 0, row);
    answer_words::put(cursor, 1, 0);
}

// Values: start, end and count of the leaf; or none. Row and page of each entry go into records.
pub fn row_page_index_next(
    words: &[u64],
    cursor: &mut [u64],
    records: &mut [u64],
    answer: &mut [u64],
) -> u64
    ensures cursor { cursor.new ≡ (served (on_walk words.now cursor.old records.old) next).arrays.cursor }
    ensures records { records.new ≡ (served (on_walk words.now cursor.old records.old) next).arrays.records }
    ensures answer { Tells answer.old (answer_words (served (on_walk words.now cursor.old records.old) next).answer) answer.new result }
{
    let step = next_words::next_words(words, host_cursor::cursor_in(&cursor[..]), records);
    let after = step.cursor;
    let given = step.answer;
    host_cursor::cursor_out(cursor, after, given);
    let n = Numbers::from(given);
    answer_words::tell(answer, n)
}
