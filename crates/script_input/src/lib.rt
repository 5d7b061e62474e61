// What script_decode stands on: the records, one by one from a reader, and the names of the calls.

#![tactic(auto)]

pub mod name;

ghost use Rattle.std.specs.Prelude.{◌≡◌, ◌≤◌, ltb, length, IfSome};
ghost use Rattle.model.specs.Words.{pick};
ghost use Rattle.script_records.specs.Records.{body_length};

use std::io::Read;

// How many bytes of a record are read after its first four: as many as they say, and none where they say more than 4,096.
// Such a record is bad by its length alone.
pub fn announced(bytes: &[u8]) -> usize
    requires { 4 ≤ length bytes.now }
    ensures is { result ≡ pick (ltb 4096 (body_length bytes.now)) 0 (body_length bytes.now) }
    ensures few { result ≤ 4096 }
{
    let len = script_records::read_u32(bytes, 0);
    if 4096 < len {
        return 0;
    }
    len as usize
}

// Bytes up to the end of the buffer or of the input: how many. A read that fails counts as the end, and those before it stay,
// which read_exact would not say.
pub fn read_full(input: &mut impl Read, buffer: &mut [u8]) -> usize
    ensures { result ≤ length buffer.new }
{
    let all = buffer.len();
    // no `for`: each read says how much it gave
    let mut rest = buffer;
    while !rest.is_empty() {
        let count = input.read(rest).unwrap_or(0);
        if count == 0 {
            break;
        }
        rest = &mut rest[count..];
    }
    all - rest.len()
}

// The bytes of the next record, or those that came of it where the input ends in it; none at the end of the input.
pub fn read_record<'a, R: Read>(input: &mut R, buffer: &'a mut [u8]) -> Option<&'a [u8]>
    requires { 4100 ≤ length buffer.old }
    ensures { IfSome result (λ bytes. length bytes.now ≤ 4100) }
{
    let got = read_full(input, &mut buffer[..4]);
    if got == 0 {
        return None;
    }
    if got < 4 {
        return Some(&buffer[..got]);
    }
    let end = 4 + announced(buffer);
    let more = read_full(input, &mut buffer[4..end]);
    Some(&buffer[..4 + more])
}
