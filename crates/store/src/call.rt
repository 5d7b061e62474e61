// The calls on the words that are lent, each with its lines. A long line is written in parts of at most 1,024 bytes, each one write.

use model::answer::Leaf;
use model::cursor::RowPageIndexMemCursor;
use model::id::{PageID, RowID};
use model::node::PageEntry;
use std::{fmt, io};
use store_print::List;

pub fn append(rt: &impl Print, s: &mut [u64], count: u64, page: PageID) -> io::Result<()> {
    let answer = call_append::insert_row_page(s, count, page);
    store_print::print_answer(rt, b"append", b"append", answer)
}

pub fn find(rt: &impl Print, s: &[u64], row: RowID) -> io::Result<()> {
    store_print::print_answer(rt, b"page", b"none", call_find::try_find_row(s, row))
}

pub fn prune(
    rt: &impl Print,
    s: &mut [u64],
    start: RowID,
    end: RowID,
    pages: &[u64],
) -> io::Result<()> {
    let answer = call_prune::prune_checkpoint_prefix(s, start, end, pages);
    store_print::print_answer(rt, b"prune", b"prune", answer)
}

// With a list of at most so many page ids, which are written where it is done.
pub fn release(rt: &impl Print, s: &mut [u64], pivot: RowID, most: usize) -> io::Result<()> {
    let mut pages = [0u64; 32768];
    let len = most.min(pages.len());
    let answer = call_release::destroy(s, pivot, &mut pages[..len]);
    store_print::print_answer(rt, b"release", b"release", answer)?;
    if let Ok(released) = answer
        && let Some(given) = pages.get(..released.pages as usize)
    {
        print!(rt; "pages")?;
        for part in given.chunks(48) {
            print!(rt; "{}", List(part))?;
        }
        println!(rt; "")?;
    }
    Ok(())
}

pub fn release_empty(rt: &impl Print, s: &mut [u64]) -> io::Result<()> {
    let answer = call_release_empty::destroy_empty(s);
    store_print::print_answer(rt, b"release", b"release", answer)
}

// The rows and pages of records.
#[derive(Clone, Copy)]
struct Entries<'a>(&'a [PageEntry]);

impl fmt::Display for Entries<'_> {
    fn fmt<W: fmt::Write>(&self, f: &mut fmt::Formatter<W>) -> fmt::Result {
        for entry in self.0 {
            write!(f, " {} {}", entry.row_id.0, entry.page_id.0)?;
        }
        Ok(())
    }
}

// A step of the leaf walk with a list of at most so many records, and its line. The entries of the leaf go into the list.
fn step(
    rt: &impl Print,
    s: &[u64],
    cursor: &mut RowPageIndexMemCursor,
    records: &mut [PageEntry],
    most: usize,
) -> io::Result<Option<Leaf>> {
    let len = most.min(records.len());
    let answer = call_next::next(cursor, s, &mut records[..len]);
    store_print::print_answer(rt, b"leaf", b"end", answer)?;
    Ok(answer.unwrap_or(None))
}

// A step, and the entries of its leaf.
pub fn next(
    rt: &impl Print,
    s: &[u64],
    cursor: &mut RowPageIndexMemCursor,
    most: usize,
) -> io::Result<()> {
    let mut records = [PageEntry::new(RowID(0), PageID(0)); 4094];
    if let Some(leaf) = step(rt, s, cursor, &mut records, most)?
        && let Some(entries) = records.get(..leaf.count as usize)
    {
        print!(rt; "entries")?;
        for part in entries.chunks(24) {
            print!(rt; "{}", Entries(part))?;
        }
        println!(rt; "")?;
    }
    Ok(())
}

// Steps from a row on until there is no leaf, or the most that a pool can hold.
pub fn walk(rt: &impl Print, s: &[u64], row: RowID, most: usize) -> io::Result<()> {
    let mut records = [PageEntry::new(RowID(0), PageID(0)); 4094];
    let mut cursor = RowPageIndexMemCursor::new();
    call_next::seek(&mut cursor, row);
    for _ in 0..65535 {
        if step(rt, s, &mut cursor, &mut records, most)?.is_none() {
            break;
        }
    }
    Ok(())
}
