// Records of a script: little-endian numbers in bytes, and what a record asks for.

#![tactic(auto)]

ghost use Rattle.std.specs.Prelude.{◌≡◌, ◌+◌, ◌*◌, ◌≤◌, ◌<◌, IfSome, drop, length, take};
ghost use Rattle.script_records.specs.Records.{asked, little};
ghost use Rattle.script_records.specs.Read.{Copied, Reads, head_of, meant};

// What a record asks for. The page ids of a prune stay in its body.
#[derive(Clone, Copy)]
pub enum Record {
    Create(u64, u64, u64),
    Append(u64, u64),
    Find(u64),
    Prune(u64, u64),
    Walk(u64),
    Release(u64),
}

// The number in two, four or eight bytes from a place on.
pub fn read_u16(b: &[u8], at: usize) -> u64
    requires { at + 2 ≤ length b.now }
    ensures { Reads b.now at 2 result }
{
    u16::from_le_bytes(b[at..at + 2].try_into().unwrap()) as u64
}

pub fn read_u32(b: &[u8], at: usize) -> u64
    requires { at + 4 ≤ length b.now }
    ensures { Reads b.now at 4 result }
{
    u32::from_le_bytes(b[at..at + 4].try_into().unwrap()) as u64
}

pub fn read_u64(b: &[u8], at: usize) -> u64
    requires { at + 8 ≤ length b.now }
    ensures { Reads b.now at 8 result }
{
    u64::from_le_bytes(b[at..at + 8].try_into().unwrap())
}

// Word i of a body.
fn read_word(body: &[u8], i: usize) -> u64
    requires { 2 + 8 * i + 8 ≤ length body.now }
    ensures { result ≡ little (take 8 (drop (2 + 8 * i) body.now)) }
{
    read_u64(body, 2 + 8 * i)
}

// What follows a record's length, where it is of a kind and has as many words as that takes.
// By a kind's number, as the bytes have it: an enum of kinds between number and `Record` would be no plainer.
#[tactic(auto, unfolding(crate::specs::Records::asked, crate::specs::Records::request_of), using(crate::proofs::Little::length_words, crate::proofs::Little::word_at))]
pub fn read_body(body: &[u8]) -> Option<Record>
    ensures { meant body.now result ≡ asked body.now }
{
    let len = body.len();
    if len < 2 {
        return None;
    }
    if (len - 2) % 8 != 0 {
        return None;
    }
    match (read_u16(body, 0), (len - 2) / 8) {
        (1, 3) => {
            let capacity = read_word(body, 0);
            let nodes = read_word(body, 1);
            let start = read_word(body, 2);
            Some(Record::Create(capacity, nodes, start))
        }
        (2, 2) => {
            let count = read_word(body, 0);
            let page = read_word(body, 1);
            Some(Record::Append(count, page))
        }
        (3, 1) => Some(Record::Find(read_word(body, 0))),
        (4, 2..) => {
            let start = read_word(body, 0);
            let end = read_word(body, 1);
            Some(Record::Prune(start, end))
        }
        (5, 1) => Some(Record::Walk(read_word(body, 0))),
        (6, 1) => Some(Record::Release(read_word(body, 0))),
        _ => None,
    }
}

// The length that bytes begin with, where they have the whole record.
#[tactic(auto, unfolding(crate::specs::Records::whole, crate::specs::Read::head_of))]
pub fn read_head(bytes: &[u8]) -> Option<usize>
    ensures is { result ≡ head_of bytes.now }
    ensures fits { IfSome result (λ n. (n ≤ 4096) × (4 + n ≤ length bytes.now)) }
{
    if bytes.len() < 4 {
        return None;
    }
    let n = read_u32(bytes, 0);
    if 4096 < n {
        return None;
    }
    let len = n as usize;
    if bytes.len() < 4 + len {
        return None;
    }
    Some(len)
}

// The words of a body after the first two go into a list; how many there are.
#[tactic(auto, using(crate::proofs::Ids::one_more, crate::proofs::Ids::all))]
pub fn copy_ids(body: &[u8], ids: &mut [u64]) -> usize
    requires { (length body.now ≤ 4096) × (512 ≤ length ids.old) }
    ensures { Copied body.now ids.new result }
{
    let n = body.len().saturating_sub(18) / 8;
    for i in 0..n {
        ids[i] = read_word(body, 2 + i);
    }
    n
}
