// The calls of a script on its memory, each with its lines.

#![tactic(auto)]

pub mod memory;

ghost use Rattle.std.specs.Prelude.{◌≡◌, false, [], is_ok};
ghost use Rattle.script_text.specs.Lines.{Put, line};
ghost use Rattle.answer_line.specs.Names.{bad_record_name};
ghost use Rattle.script_records.specs.Records as R;
ghost use Rattle.script_calls.specs.Calls.{perform};
ghost use Rattle.script_calls.specs.Steps.{Does, memory_of};

use memory::Memory;
use model::id::{PageID, RowID};
use script_text::Lines;

// What was read is no record.
#[derive(Clone, Copy)]
pub struct BadRecord;

pub fn append_step(m: &mut Memory<'_>, count: u64, page: u64, out: &mut Lines<'_>)
    ensures { Does (perform (memory_of m.old) (R.Append count page)) m.old out.old m.new out.new }
{
    let a = call_append::insert_row_page(&mut m.words[..m.used], count, PageID(page));
    answer_line::put_answer(out, b"append", b"append", a);
}

pub fn find_step(m: &Memory<'_>, row: u64, out: &mut Lines<'_>)
    ensures { Does (perform (memory_of m.now) (R.Find row)) m.now out.old m.now out.new }
{
    let a = call_find::try_find_row(&m.words[..m.used], RowID(row));
    answer_line::put_answer(out, b"page", b"none", a);
}

pub fn release_step(m: &mut Memory<'_>, pivot: u64, out: &mut Lines<'_>)
    ensures { Does (perform (memory_of m.old) (R.Release pivot)) m.old out.old m.new out.new }
{
    let mut pages = [0u64; 2048];
    let a = call_release::destroy(&mut m.words[..m.used], RowID(pivot), &mut pages);
    answer_line::put_answer(out, b"release", b"release", a);
}

pub fn bad_step(out: &mut Lines<'_>) -> Result<(), BadRecord>
    ensures puts { Put out.old (line bad_record_name []) out.new }
    ensures ends { is_ok result ≡ false }
{
    out.put_line(b"bad record", &[]);
    Err(BadRecord)
}
