// A script as script_run takes it from standard input: in blocks of records, with what is left at the end of the input.

ghost use Rattle.std.specs.Prelude.{◌≡◌, ◌≤◌, IfOk, length};

use script_calls::BadRecord;
use script_calls::memory::Memory;
use script_text::Lines;

// The memory of a script, the lines of a block, and the listing.
#[derive(Drop)]
struct Run<'a> {
    m: Memory<'a>,
    lines: &'a mut [u8],
    out: Lines<'a>,
    ghost long: { 65536 ≤ length lines.now },
    ghost fits: { (5 ≤ length m.words.now) × (length m.words.now ≤ 4096) },
}

impl Run<'_> {
    // How many bytes the records of a block took.
    fn list_block(&mut self, bytes: &[u8]) -> Result<usize, BadRecord>
        ensures { IfOk result (λ taken. taken ≤ length bytes.now) }
    {
        let mut block = Lines {
            bytes: &mut self.lines[..],
            at: 0,
        };
        let ran = script_block::run_block(&mut self.m, bytes, &mut block);
        let len = block.at;
        self.out.put_bytes(&self.lines[..len]);
        ran
    }

    // The blocks up to one that takes nothing: what is left.
    fn list_blocks<'s>(&mut self, script: &'s [u8]) -> Result<&'s [u8], BadRecord> {
        // no `for`: each block says how much it takes
        let mut rest = script;
        while !rest.is_empty() {
            let taken = self.list_block(rest)?;
            if taken == 0 {
                break;
            }
            rest = &rest[taken..];
        }
        Ok(rest)
    }

    fn list(&mut self, script: &[u8]) {
        let Ok(rest) = self.list_blocks(script) else {
            return;
        };
        let mut last = Lines {
            bytes: &mut self.lines[..],
            at: 0,
        };
        let _ = script_turn::turn_step(&mut self.m, rest, &mut last);
        let len = last.at;
        self.out.put_bytes(&self.lines[..len]);
    }
}

// The length of the listing.
pub fn list(script: &[u8], out: &mut [u8]) -> usize {
    let mut words = [0u64; 4096];
    let mut lines = [0u8; 131072];
    let m = Memory {
        words: &mut words,
        used: 4096,
    };
    let mut run = Run {
        m,
        lines: &mut lines,
        out: Lines { bytes: out, at: 0 },
    };
    run.list(script);
    run.out.at
}
