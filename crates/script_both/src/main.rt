// The two ways to run a script, compared: the C function on all the bytes, and in blocks as script_run does. Standard input
// has the scripts, each after its length in four bytes, the lowest first. Each is tried on every prefix, so that every record
// is cut at every byte; then whole, with every length of the C function's output, up to that of the listing and past it.

#![tactic(auto)]

pub mod single;

ghost use Rattle.std.specs.Prelude.{◌≡◌, ◌+◌, ◌≤◌, IfSome, length};

use lossy_print::Lossy;
use std::io;

// What the bytes hold before a call; no listing has this byte.
const MARK: u8 = 255;

// What was put of a listing of this length.
fn put_of(out: &[u8], len: usize) -> &[u8]
    ensures { length result.now ≤ length out.now }
{
    &out[..len.min(out.len())]
}

// How many prefixes end with `bad record`, and on how many the two listings differ.
#[derive(Clone, Copy)]
struct Tally {
    bad: u64,
    different: u64,
}

// Of one prefix.
#[derive(Clone, Copy)]
struct Compared {
    is_bad: bool,
    is_different: bool,
}

// Where the two listings of a script go.
#[derive(Drop)]
struct Outputs<'a> {
    whole: &'a mut [u8],
    blocks: &'a mut [u8],
    ghost short: { length blocks.now ≤ 65536 },
}

impl Outputs<'_> {
    fn compare(&mut self, script: &[u8]) -> Compared {
        let n = script::row_page_script(script, self.whole);
        let m = single::list(script, self.blocks);
        let a = put_of(self.whole, n);
        let b = put_of(self.blocks, m);
        Compared {
            is_bad: a.ends_with(b"bad record\n"),
            is_different: n != m || a != b,
        }
    }

    // A loop: a chain would compare each prefix twice, once for each count.
    fn compare_prefixes(&mut self, script: &[u8]) -> Tally
        requires { length script.now ≤ 65536 }
    {
        let mut bad: u64 = 0;
        let mut different: u64 = 0;
        for k in 0..=script.len() {
            let compared = self.compare(&script[..k]);
            bad += u64::from(compared.is_bad);
            different += u64::from(compared.is_different);
        }
        Tally { bad, different }
    }

    fn report(&mut self, rt: &impl Print, script: &[u8]) -> io::Result<()>
        requires { length script.now ≤ 65536 }
    {
        let tally = self.compare_prefixes(script);
        println!(rt; "prefixes {}", script.len() + 1)?;
        println!(rt; "bad record {}", tally.bad)?;
        println!(rt; "different {}", tally.different)?;
        let whole = single::list(script, self.blocks);
        let listed = Listed {
            script,
            listing: put_of(self.blocks, whole),
            whole,
        };
        listed.report(rt)
    }
}

// A script's listing, and its length, which is more where not all bytes had room.
#[derive(Clone, Copy)]
struct Listed<'a> {
    script: &'a [u8],
    listing: &'a [u8],
    whole: usize,
}

impl Listed<'_> {
    // An output of this length, the first bytes of out, all of which hold the mark: the bytes that fit are the listing's,
    // those after them are as they were, and the whole length is returned.
    fn is_right(self, out: &mut [u8], len: usize) -> bool
        requires { len ≤ length out.old }
    {
        let n = script::row_page_script(self.script, &mut out[..len]);
        let k = self.listing.len().min(len);
        n == self.whole
            && out[..k] == self.listing[..k]
            && out[k..].iter().all(|&byte| byte == MARK)
    }

    fn is_right_at(self, len: usize) -> bool
        requires { len ≤ 65536 }
    {
        let mut out = [MARK; 65536];
        self.is_right(&mut out, len)
    }

    // How many lengths from one to below another are wrong.
    fn count_wrong(self, from: usize, to: usize) -> usize
        requires { to ≤ 65537 }
    {
        (from..to).filter(|&len| !self.is_right_at(len)).count()
    }

    fn report(self, rt: &impl Print) -> io::Result<()>
        requires { length self.listing.now ≤ 65536 }
    {
        let n = self.listing.len();
        println!(rt; "lengths {}", n + 1)?;
        println!(rt; "wrong {}", self.count_wrong(0, n + 1))?;
        rt.write_all(self.listing)?;
        let more = (65536 - n).min(40);
        println!(rt; "longer {more}")?;
        println!(rt; "wrong {}", self.count_wrong(n + 1, n + 1 + more))
    }
}

// The script that the bytes begin with, after its length, and what follows it.
fn split_script(bytes: &[u8]) -> Option<(&[u8], &[u8])>
    ensures { IfSome result (λ parts. length parts.0.now + length parts.1.now + 4 ≡ length bytes.now) }
{
    if bytes.len() < 4 {
        return None;
    }
    let len = script_records::read_u32(bytes, 0) as usize;
    bytes[4..].split_at_checked(len)
}

// Each script of the input, and how many bytes are left after the last.
fn report_all(rt: &impl Print, input: &[u8], outputs: &mut Outputs<'_>) -> io::Result<()>
    requires { length input.now ≤ 65536 }
{
    let mut rest = input;
    while let Some((script, after)) = split_script(rest) {
        outputs.report(rt, script)?;
        rest = after;
    }
    println!(rt; "left {}", rest.len())
}

// What cannot be written is left out, and all after it is tried.
fn main(rt: HostRuntime) {
    let mut input = [0u8; 65536];
    let mut whole = [0u8; 65536];
    let mut blocks = [0u8; 65536];
    let n = script_input::read_full(&mut rt.stdin(), &mut input);
    let mut outputs = Outputs {
        whole: &mut whole,
        blocks: &mut blocks,
    };
    let _ = report_all(&Lossy(&rt), &input[..n], &mut outputs);
}
