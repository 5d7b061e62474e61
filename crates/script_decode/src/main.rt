// The records of a script back into lines of text, as script_encode reads them. A bad record ends the run: its number goes
// to standard error.

#![tactic(auto)]

use script_input::name::Name;
use std::fmt;
use std::io::Read;

// A record's call, by its kind's number as `Name` takes it, and all its words. `Record` has no page ids of a prune, and a match
// on it would only write every call's numbers in the order that the words have.
#[derive(Clone, Copy)]
struct Call<'a> {
    kind: u64,
    words: &'a [u8],
}

impl fmt::Display for Call<'_> {
    fn fmt<W: fmt::Write>(&self, f: &mut fmt::Formatter<W>) -> fmt::Result {
        write!(f, "{}", Name(self.kind))?;
        for word in self.words.chunks_exact(8) {
            write!(f, " {}", script_records::read_u64(word, 0))?;
        }
        Ok(())
    }
}

// The call of the record that these bytes are; none where it is bad.
fn read_call(bytes: &[u8]) -> Option<Call<'_>> {
    let len = script_records::read_head(bytes)?;
    let body = &bytes[4..4 + len];
    script_records::read_body(body)?;
    let (kind, words) = body.split_at_checked(2)?;
    let kind = script_records::read_u16(kind, 0);
    Some(Call { kind, words })
}

// A bad record: its number. No status says so, and standard error may be closed, so a line follows that script_encode refuses:
// what was written up to here is not the whole script.
fn write_bad(rt: &(impl Print + Eprint), number: u64) {
    let _ = eprintln!(rt; "record {number}: bad record");
    let _ = println!(rt; "bad record");
}

// A proved loop has to end, and nothing says that the input does: the records are counted up to a number that no run
// reaches. A line that cannot be written is left out, and the records after it are read: a bad one is still named.
fn decode(rt: &(impl Print + Eprint), input: &mut impl Read) {
    let mut buffer = [0u8; 4100];
    for number in 1..u64::MAX {
        let Some(bytes) = script_input::read_record(input, &mut buffer) else {
            break;
        };
        match read_call(bytes) {
            Some(call) => {
                let _ = println!(rt; "{call}");
            }
            None => return write_bad(rt, number),
        }
    }
}

fn main(rt: HostRuntime) {
    decode(&rt, &mut rt.stdin());
}
