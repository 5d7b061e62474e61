// One record of a script.

#![tactic(auto)]

ghost use Rattle.std.specs.Prelude.{◌≡◌, [], ◌∷◌, ◌≤◌, Some, length, is_ok};
ghost use Rattle.model.specs.Words.{free_count};
ghost use Rattle.script_text.specs.Lines.{Put, line};
ghost use Rattle.answer_line.specs.Names.{free_name};
ghost use Rattle.script_records.specs.Records.{first};
ghost use Rattle.script_records.specs.Read.{meant};
ghost use Rattle.script_calls.specs.Calls.{perform};
ghost use Rattle.script_calls.specs.Steps.{Does, memory_of};

use script_calls::BadRecord;
use script_calls::memory::Memory;
use script_records::Record;
use script_text::Lines;

// What a record asks for, with its body.
fn perform_record(m: &mut Memory<'_>, asked: Record, body: &[u8], out: &mut Lines<'_>)
    requires { length body.now ≤ 4096 }
    ensures { Does (perform (memory_of m.old) (meant body.now (Some asked))) m.old out.old m.new out.new }
{
    match asked {
        Record::Create(capacity, nodes, start) => {
            let used = script_create::create_step(&mut *m.words, capacity, nodes, start, out);
            if let Some(used) = used {
                m.used = used;
            }
        }
        Record::Append(count, page) => script_calls::append_step(m, count, page, out),
        Record::Find(row) => script_calls::find_step(m, row, out),
        Record::Prune(start, end) => script_prune::prune_step(m, start, end, body, out),
        Record::Walk(row) => script_walk::walk_step(m, row, out),
        Record::Release(pivot) => script_calls::release_step(m, pivot, out),
    }
}

// The record that bytes begin with: what it does to the memory, and its lines.
pub fn step(m: &mut Memory<'_>, bytes: &[u8], out: &mut Lines<'_>) -> Result<(), BadRecord>
    ensures does { Does (perform (memory_of m.old) (first bytes.now)) m.old out.old m.new out.new }
    ensures goes { is_ok result ≡ (perform (memory_of m.old) (first bytes.now)).goes }
{
    let Some(len) = script_records::read_head(bytes) else {
        return script_calls::bad_step(out);
    };
    let body = &bytes[4..4 + len];
    let Some(asked) = script_records::read_body(body) else {
        return script_calls::bad_step(out);
    };
    perform_record(m, asked, body, out);
    Ok(())
}

// The last line.
pub fn free_step(m: &Memory<'_>, out: &mut Lines<'_>)
    requires { 5 ≤ length m.now.words.now }
    ensures { Put out.old (line free_name (free_count m.now.words.now ∷ [])) out.new }
{
    out.put_line(b"free", &[m.words[4]]);
}
