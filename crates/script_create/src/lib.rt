// A script's create.

#![tactic(auto)]

ghost use Rattle.std.specs.Prelude.{◌≡◌, IfSome, ◌≤◌, length};
ghost use Rattle.script_calls.specs.Calls.{create_length};
ghost use Rattle.script_create.specs.Created.{Creates};

use model::id::RowID;
use node_read::layout::Layout;
use script_text::Lines;

// The words that a create gets, of so many.
pub fn create_length(all: usize, capacity: u64, nodes: u64) -> usize
    ensures is { result ≡ create_length all capacity nodes }
    ensures few { result ≤ all }
{
    let l = Layout {
        capacity,
        pool: nodes,
    };
    if !l.in_range() {
        return all;
    }
    let len = l.store_length() as usize;
    if all < len {
        return all;
    }
    len
}

// A create in these words: how many of them later calls get, where it is accepted.
pub fn create_step(
    words: &mut [u64],
    capacity: u64,
    nodes: u64,
    start: u64,
    out: &mut Lines<'_>,
) -> Option<usize>
    ensures does { Creates capacity nodes start words.old out.old words.new out.new result }
    ensures few { IfSome result (λ used. used ≤ length words.new) }
{
    let len = create_length(words.len(), capacity, nodes);
    let a = call_create::new(&mut words[..len], capacity, nodes, RowID(start));
    answer_line::put_answer(out, b"create", b"create", a);
    if a.is_err() {
        return None;
    }
    Some(len)
}
