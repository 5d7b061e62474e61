// A run of the program: its words, and what its calls are lent.

use crate::kind::Kind;
use crate::wrong::{Failure, Wrong};
use crate::{call, tool};
use model::cursor::RowPageIndexMemCursor;
use model::id::{PageID, RowID};
use std::io;

// The words of the program.
const WORDS: usize = 65536;

// The longest list of page ids.
const MAX_LIST: usize = 32768;

// What a line asks for.
#[derive(Clone, Copy)]
pub struct Asked<'a> {
    pub name: &'a [u8],
    pub kind: Kind,
    pub numbers: &'a [u64],
}

#[derive(Drop)]
pub struct Session {
    all: [u64; WORDS],
    // how many words a call is lent
    words: usize,
    // how many words a create is lent; none: what its capacity and nodes need
    create_words: Option<usize>,
    // the most records or page ids of a list
    list: usize,
    cursor: RowPageIndexMemCursor,
}

impl Session {
    pub fn new() -> Session {
        Session {
            all: [0; WORDS],
            words: 0,
            create_words: None,
            list: MAX_LIST,
            cursor: RowPageIndexMemCursor::new(),
        }
    }

    // The words that a call is lent.
    fn lent(&mut self) -> Result<&mut [u64], Wrong<'static>> {
        let len = self.words;
        self.all.get_mut(..len).ok_or(Wrong::TooManyWords)
    }

    // A create that is done decides how many words later calls are lent.
    fn create(
        &mut self,
        rt: &impl Print,
        capacity: u64,
        nodes: u64,
        start: RowID,
    ) -> Result<(), Failure<'static>> {
        let len = match self.create_words {
            Some(len) => len,
            None => script_create::create_length(WORDS, capacity, nodes),
        };
        let s = self.all.get_mut(..len).ok_or(Wrong::TooManyWords)?;
        let answer = call_create::new(s, capacity, nodes, start);
        if answer.is_ok() {
            self.words = len;
        }
        store_print::print_answer(rt, b"create", b"create", answer)?;
        Ok(())
    }

    // `words N` for all calls.
    fn lend_words(&mut self, rt: &impl Print, many: u64) -> Result<(), Failure<'static>> {
        if (WORDS as u64) < many {
            return Err(Failure::Wrong(Wrong::TooManyWords));
        }
        self.words = many as usize;
        self.create_words = Some(many as usize);
        println!(rt; "words {many}")?;
        Ok(())
    }

    // `list N` for `next`, `walk` and `release`.
    fn lend_list(&mut self, rt: &impl Print, many: u64) -> Result<(), Failure<'static>> {
        if (MAX_LIST as u64) < many {
            return Err(Failure::Wrong(Wrong::TooLongList));
        }
        self.list = many as usize;
        println!(rt; "list {many}")?;
        Ok(())
    }

    pub fn perform<'a>(&mut self, rt: &impl Print, asked: Asked<'a>) -> Result<(), Failure<'a>> {
        match (asked.kind, asked.numbers) {
            (Kind::Create, &[capacity, nodes, start]) => {
                self.create(rt, capacity, nodes, RowID(start))?;
            }
            (Kind::Append, &[count, page]) => call::append(rt, self.lent()?, count, PageID(page))?,
            (Kind::Find, &[row]) => call::find(rt, self.lent()?, RowID(row))?,
            (Kind::Prune, &[start, end, ref pages @ ..]) => {
                call::prune(rt, self.lent()?, RowID(start), RowID(end), pages)?;
            }
            (Kind::Release, &[pivot]) => {
                let most = self.list;
                call::release(rt, self.lent()?, RowID(pivot), most)?;
            }
            (Kind::ReleaseEmpty, &[]) => call::release_empty(rt, self.lent()?)?,
            (Kind::Check, &[]) => {
                store_print::print_checked(rt, call_check::full_check(self.lent()?))?;
            }
            (Kind::Seek, &[row]) => {
                call_next::seek(&mut self.cursor, RowID(row));
                println!(rt; "seek")?;
            }
            (Kind::Next, &[]) => {
                let s = self.all.get(..self.words).ok_or(Wrong::TooManyWords)?;
                call::next(rt, s, &mut self.cursor, self.list)?;
            }
            (Kind::Walk, &[row]) => {
                let most = self.list;
                call::walk(rt, self.lent()?, RowID(row), most)?;
            }
            (Kind::Cursor, &[]) => {
                let done = u64::from(self.cursor.done);
                println!(rt; "cursor {} {done}", self.cursor.row_id.0)?;
            }
            (Kind::Words, &[many]) => self.lend_words(rt, many)?,
            (Kind::Words, &[]) => {
                self.create_words = None;
                println!(rt; "words")?;
            }
            (Kind::List, &[many]) => self.lend_list(rt, many)?,
            (Kind::List, &[]) => {
                self.list = MAX_LIST;
                println!(rt; "list")?;
            }
            (Kind::Set, &[place, value]) => {
                tool::load(self.lent()?, place, &[value])?;
                println!(rt; "set")?;
            }
            (Kind::Put, &[node, place, value]) => {
                tool::put(self.lent()?, node, place, value)?;
                println!(rt; "put")?;
            }
            (Kind::Fill, &[value]) => {
                self.lent()?.fill(value);
                println!(rt; "fill")?;
            }
            (Kind::Load, &[place, ref words @ ..]) if !words.is_empty() => {
                tool::load(self.lent()?, place, words)?;
                println!(rt; "load")?;
            }
            (Kind::Dump, &[]) => {
                let s = self.lent()?;
                tool::dump(rt, s, 0, s.len() as u64)?;
            }
            (Kind::Dump, &[from, many]) => tool::dump(rt, self.lent()?, from, many)?,
            (Kind::Chain, &[]) => tool::print_chain(rt, self.lent()?)?,
            (Kind::Shape, &[]) => store_picture::shape(rt, self.lent()?)?,
            (Kind::Picture, &[]) => store_picture::picture(rt, self.lent()?)?,
            (kind, numbers) => {
                return Err(Failure::Wrong(Wrong::Count {
                    name: asked.name,
                    found: numbers.len(),
                    takes: kind.takes(),
                }));
            }
        }
        Ok(())
    }
}
