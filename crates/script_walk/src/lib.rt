// A script's walk over the leaves.

#![tactic(auto)]

ghost use Rattle.std.specs.Prelude.{◌≡◌, ◌+◌, length};
ghost use Rattle.script_text.specs.Lines.{Put};
ghost use Rattle.script_records.specs.Records as R;
ghost use Rattle.script_calls.specs.Calls.{perform, walk_lines};
ghost use Rattle.script_calls.specs.Steps.{Does, memory_of};

use model::cursor::RowPageIndexMemCursor;
use model::id::RowID;
use script_calls::memory::Memory;
use script_text::Lines;

// The leaves from a cursor on, as long as a leaf is given.
fn walk_on(s: &[u64], cursor: RowPageIndexMemCursor, list: &mut [u64], out: &mut Lines<'_>)
    requires { length list.old ≡ 4096 }
    ensures { Put out.old (walk_lines s.now (length s.now + 1) cursor) out.new }
{
    let mut c = cursor;
    'leaves: loop {
        let step = next_words::next_words(s, c, list);
        answer_line::put_answer(out, b"leaf", b"end", step.answer);
        if !next_words::gives_leaf(step.answer) {
            return;
        }
        c = step.cursor;
    }
}

pub fn walk_step(m: &Memory<'_>, row: u64, out: &mut Lines<'_>)
    ensures { Does (perform (memory_of m.now) (R.Walk row)) m.now out.old m.now out.new }
{
    let mut list = [0u64; 4096];
    let cursor = next_step::sought(RowID(row));
    walk_on(&m.words[..m.used], cursor, &mut list, out);
}
