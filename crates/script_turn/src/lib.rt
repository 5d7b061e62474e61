// A turn of the script's program: a record, or the last line.

#![tactic(auto)]

ghost use Rattle.std.specs.Prelude.{◌≡◌, ◌+◌, ◌≤◌, is_some, length};
ghost use Rattle.std.specs.ControlFlow.{continue_value};
ghost use Rattle.script_calls.specs.Steps.{Does, memory_of};
ghost use Rattle.script_step.specs.Script.{turn};

use script_calls::BadRecord;
use script_calls::memory::Memory;
use script_text::Lines;
use std::ops::ControlFlow;

// A turn of a program that takes the records one by one: the next record's lines, or the last line where no bytes are left.
// They fit into 65,536 bytes: 4,096 words hold at most 511 nodes, and a line of a walk has at most 68 bytes (`short` in
// script_walk/proofs/Short).
#[tactic(auto, using(crate::proofs::Turning::ends, crate::proofs::Turning::goes))]
pub fn turn_step(m: &mut Memory<'_>, bytes: &[u8], out: &mut Lines<'_>) -> ControlFlow<()>
    requires { (5 ≤ length m.old.words.now) × (length m.old.words.now ≤ 4096) }
    ensures does { Does (turn (memory_of m.old) bytes.now) m.old out.old m.new out.new }
    ensures goes { is_some (continue_value result) ≡ (turn (memory_of m.old) bytes.now).goes }
    ensures few { out.new.at ≤ out.old.at + 65536 }
{
    if bytes.is_empty() {
        script_step::free_step(m, out);
        return ControlFlow::Break(());
    }
    match script_step::step(m, bytes, out) {
        Ok(()) => ControlFlow::Continue(()),
        Err(BadRecord) => ControlFlow::Break(()),
    }
}
