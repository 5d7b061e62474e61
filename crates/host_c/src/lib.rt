// The calls of crates/host as C functions under the same names, for a host that is written in C or calls as C does. Each hands
// its arguments on and promises the same, word for word. An array is a pointer and a length; docs/HOST.md tells how to call them.

#![tactic(auto)]

ghost use Rattle.std.specs.Prelude.{◌≡◌};
ghost use Rattle.answer_numbers.specs.Numbers.{answer_words};
ghost use Rattle.answer_words.specs.Told.{Tells};
ghost use Rattle.host.specs.Served.{append, check, create, destroy, destroy_empty, find, next, on_cursor, on_pages, on_walk, on_words, prune, seek, served};

// A new store of so many nodes for capacity entries each, whose rows begin at start.
#[unsafe(no_mangle)]
pub extern "C" fn row_page_index_create(
    words: &mut [u64],
    capacity: u64,
    nodes: u64,
    start: u64,
    answer: &mut [u64],
) -> u64
    ensures words { words.new ≡ (served (on_words words.old) (create capacity nodes start)).arrays.words }
    ensures answer { Tells answer.old (answer_words (served (on_words words.old) (create capacity nodes start)).answer) answer.new result }
{
    host::row_page_index_create(words, capacity, nodes, start, answer)
}

// Values: start, end, nodes taken.
#[unsafe(no_mangle)]
pub extern "C" fn row_page_index_append(
    words: &mut [u64],
    count: u64,
    page: u64,
    answer: &mut [u64],
) -> u64
    ensures words { words.new ≡ (served (on_words words.old) (append count page)).arrays.words }
    ensures answer { Tells answer.old (answer_words (served (on_words words.old) (append count page)).answer) answer.new result }
{
    host::row_page_index_append(words, count, page, answer)
}

// One value, the page; or none.
#[unsafe(no_mangle)]
pub extern "C" fn row_page_index_find(words: &[u64], row: u64, answer: &mut [u64]) -> u64
    ensures answer { Tells answer.old (answer_words (served (on_words words.now) (find row)).answer) answer.new result }
{
    host::row_page_index_find(words, row, answer)
}

// Values: entries removed, nodes freed, levels collapsed.
#[unsafe(no_mangle)]
pub extern "C" fn row_page_index_prune(
    words: &mut [u64],
    start: u64,
    end: u64,
    ids: &[u64],
    answer: &mut [u64],
) -> u64
    ensures words { words.new ≡ (served (on_words words.old) (prune start end ids.now)).arrays.words }
    ensures answer { Tells answer.old (answer_words (served (on_words words.old) (prune start end ids.now)).answer) answer.new result }
{
    host::row_page_index_prune(words, start, end, ids, answer)
}

// Values: nodes freed, pages. The page ids go into pages.
#[unsafe(no_mangle)]
pub extern "C" fn row_page_index_destroy(
    words: &mut [u64],
    pivot: u64,
    pages: &mut [u64],
    answer: &mut [u64],
) -> u64
    ensures words { words.new ≡ (served (on_pages words.old pages.old) (destroy pivot)).arrays.words }
    ensures list { pages.new ≡ (served (on_pages words.old pages.old) (destroy pivot)).arrays.pages }
    ensures answer { Tells answer.old (answer_words (served (on_pages words.old pages.old) (destroy pivot)).answer) answer.new result }
{
    host::row_page_index_destroy(words, pivot, pages, answer)
}

// Values: nodes freed, pages; of an empty store.
#[unsafe(no_mangle)]
pub extern "C" fn row_page_index_destroy_empty(words: &mut [u64], answer: &mut [u64]) -> u64
    ensures words { words.new ≡ (served (on_words words.old) destroy_empty).arrays.words }
    ensures answer { Tells answer.old (answer_words (served (on_words words.old) destroy_empty).answer) answer.new result }
{
    host::row_page_index_destroy_empty(words, answer)
}

// Values: entries, tree nodes, free nodes.
#[unsafe(no_mangle)]
pub extern "C" fn row_page_index_check(words: &[u64], answer: &mut [u64]) -> u64
    ensures answer { Tells answer.old (answer_words (served (on_words words.now) check).answer) answer.new result }
{
    host::row_page_index_check(words, answer)
}

// Keeps a row.
#[unsafe(no_mangle)]
pub extern "C" fn row_page_index_seek(cursor: &mut [u64], row: u64)
    ensures { cursor.new ≡ (served (on_cursor cursor.old) (seek row)).arrays.cursor }
{
    host::row_page_index_seek(cursor, row);
}

// Values: start, end and count of the leaf; or none. Row and page of each entry go into records.
#[unsafe(no_mangle)]
pub extern "C" fn row_page_index_next(
    words: &[u64],
    cursor: &mut [u64],
    records: &mut [u64],
    answer: &mut [u64],
) -> u64
    ensures cursor { cursor.new ≡ (served (on_walk words.now cursor.old records.old) next).arrays.cursor }
    ensures records { records.new ≡ (served (on_walk words.now cursor.old records.old) next).arrays.records }
    ensures answer { Tells answer.old (answer_words (served (on_walk words.now cursor.old records.old) next).answer) answer.new result }
{
    host::row_page_index_next(words, cursor, records, answer)
}
