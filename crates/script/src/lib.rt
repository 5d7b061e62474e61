// The script: records in, a listing out.

#![tactic(auto)]

ghost use Rattle.std.specs.Prelude.{◌≡◌, true, ◌++◌, ◌+◌, ◌≤◌, drop, length, take};
ghost use Rattle.script_text.specs.Lines.{Put, capped};
ghost use Rattle.script_records.specs.Records.{body_length, whole};
ghost use Rattle.script_calls.specs.Steps.{memory_of};
ghost use Rattle.script_step.specs.Script.{listing, listing_from};

use script_calls::memory::Memory;
use script_text::Lines;

// The bytes of a whole record.
fn record_length(bytes: &[u8]) -> usize
    requires { whole bytes.now ≡ true }
    ensures { result ≡ 4 + body_length bytes.now }
{
    4 + script_records::read_u32(bytes, 0) as usize
}

// A whole script, in this memory.
fn run_on(m: &mut Memory<'_>, script: &[u8], out: &mut Lines<'_>)
    requires { 5 ≤ length m.old.words.now }
    ensures { Put out.old (listing_from (length script.now) (memory_of m.old) script.now) out.new }
{
    // no `for`: each record says how long it is
    let mut rest = script;
    while !rest.is_empty() {
        if script_step::step(m, rest, out).is_err() {
            return;
        }
        rest = &rest[record_length(rest)..];
    }
    script_step::free_step(m, out);
}

// The listing of a script: the bytes that fit are written, the rest stays, and the whole length is returned.
pub fn row_page_script(script: &[u8], out: &mut [u8]) -> usize
    ensures bytes { out.new ≡ take (length out.old) (listing script.now) ++ drop (length (listing script.now)) out.old }
    ensures length { result ≡ capped (length (listing script.now)) }
{
    let mut words = [0u64; 4096];
    let mut m = Memory {
        words: &mut words,
        used: 4096,
    };
    let mut lines = Lines { bytes: out, at: 0 };
    run_on(&mut m, script, &mut lines);
    lines.at
}
