// The records in a block of bytes that was read ahead, which more bytes may follow.

#![tactic(auto)]

ghost use Rattle.std.specs.Prelude.{◌≡◌, ◌&&◌, true, false, ◌+◌, ◌-◌, ◌≤◌, leb, drop, length, take, IfOk, OnErr};
ghost use Rattle.script_calls.specs.Steps.{memory_of};
ghost use Rattle.script_block.specs.Blocks.{Lists, is_known, known_length, put_since};

use script_calls::BadRecord;
use script_calls::memory::Memory;
use script_text::Lines;

// The bytes of the first record, where these show what it is whatever follows them.
#[tactic(auto, unfolding(crate::specs::Blocks::known_length))]
pub fn known_length(bytes: &[u8]) -> Option<usize>
    ensures { result ≡ known_length bytes.now }
{
    if bytes.len() < 4 {
        return None;
    }
    let len = script_records::read_u32(bytes, 0);
    if 4096 < len {
        return Some(4);
    }
    let all = 4 + len as usize;
    if bytes.len() < all {
        return None;
    }
    Some(all)
}

// The records one after the other, while the next one is known and its lines, at most 65,536 bytes, have room: how many bytes
// they took.
pub fn run_block(m: &mut Memory<'_>, bytes: &[u8], out: &mut Lines<'_>) -> Result<usize, BadRecord>
    requires { (length m.old.words.now ≤ 4096) × (out.old.at ≤ length out.old.bytes.now) }
    ensures goes_on { IfOk result (λ taken. Lists (memory_of m.old) bytes.now (memory_of m.new) taken (put_since out.old out.new) true) }
    ensures ends { OnErr result (Lists (memory_of m.old) bytes.now (memory_of m.new) 0 (put_since out.old out.new) false) }
    ensures bounds { IfOk result (λ taken. taken ≤ length bytes.now) × (out.new.at ≤ length out.new.bytes.now) }
    ensures rests { IfOk result (λ taken. (is_known (drop taken bytes.now) && leb (out.new.at + 65536) (length out.new.bytes.now)) ≡ false) }
    ensures lent { (m.new.words.ghost_name ≡ m.old.words.ghost_name) × (out.new.bytes.ghost_name ≡ out.old.bytes.ghost_name) }
    ensures sizes { (length m.new.words.now ≡ length m.old.words.now) × (length out.new.bytes.now ≡ length out.old.bytes.now) }
{
    // no `for`: each record says how long it is
    let mut rest = bytes;
    while 65536 <= out.bytes.len() - out.at
        && let Some(len) = known_length(rest)
    {
        script_step::step(m, rest, out)?;
        rest = &rest[len..];
    }
    Ok(bytes.len() - rest.len())
}

// The bytes from a place to another moved to the front: how many.
pub fn move_front(bytes: &mut [u8], from: usize, to: usize) -> usize
    requires { (from ≤ to) × (to ≤ length bytes.old) }
    ensures { (result ≡ to - from) × (take result bytes.new ≡ take result (drop from bytes.old)) }
{
    bytes.copy_within(from..to, 0);
    to - from
}
