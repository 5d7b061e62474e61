// A script's prune.

#![tactic(auto)]

ghost use Rattle.std.specs.Prelude.{◌≤◌, drop, length};
ghost use Rattle.script_records.specs.Records as R;
ghost use Rattle.script_records.specs.Read.{body_words};
ghost use Rattle.script_calls.specs.Calls.{perform};
ghost use Rattle.script_calls.specs.Steps.{Does, memory_of};

use model::id::RowID;
use script_calls::memory::Memory;
use script_text::Lines;

// The page ids stand in the body.
pub fn prune_step(m: &mut Memory<'_>, start: u64, end: u64, body: &[u8], out: &mut Lines<'_>)
    requires { length body.now ≤ 4096 }
    ensures { Does (perform (memory_of m.old) (R.Prune start end (drop 2 (body_words body.now)))) m.old out.old m.new out.new }
{
    let mut ids = [0u64; 512];
    let k = script_records::copy_ids(body, &mut ids);
    let a = call_prune::prune_checkpoint_prefix(
        &mut m.words[..m.used],
        RowID(start),
        RowID(end),
        &ids[..k],
    );
    answer_line::put_answer(out, b"prune", b"prune", a);
}
