// The script program: records from standard input, their listing to standard output. The input is read ahead and the lines
// are written in blocks; those of a record are written before more input is waited for.

#![tactic(auto)]

ghost use Rattle.std.specs.Prelude.{◌≤◌, length};

use script_calls::BadRecord;
use script_calls::memory::Memory;
use script_text::Lines;
use std::io;
use std::io::{Read, Write};
use std::time::Clock;

// The script has ended: with its input, at a bad record, or since its lines cannot be written.
#[derive(Clone, Copy)]
struct End;

impl From<BadRecord> for End {
    fn from(_: BadRecord) -> End {
        End
    }
}

impl From<io::Error> for End {
    fn from(_: io::Error) -> End {
        End
    }
}

// A run of the program. The bytes that were read and not taken are those from `at` up to `end`; lines stand in `out` until
// they are written.
#[derive(Drop)]
struct Run<'a, 'm, C, R, W> {
    clock: &'a C,
    input: &'a mut R,
    output: &'a mut W,
    m: Memory<'m>,
    bytes: &'a mut [u8],
    at: usize,
    end: usize,
    out: &'a mut [u8],
    ghost in_words: { (5 ≤ length m.words.now) × (length m.words.now ≤ 4096) },
    ghost in_bytes: { (at ≤ end) × (end ≤ length bytes.now) × (1 ≤ length bytes.now) },
    ghost in_out: { 65536 ≤ length out.now },
}

impl<C: Clock, R: Read, W: Write> Run<'_, '_, C, R, W> {
    // The records that are known in the bytes that were read, their lines written: how many bytes they took.
    fn run_known(&mut self) -> Result<usize, End> {
        let mut lines = Lines {
            bytes: &mut self.out[..],
            at: 0,
        };
        let ran = script_block::run_block(&mut self.m, &self.bytes[self.at..self.end], &mut lines);
        let len = lines.at;
        script_io::write_whole(self.clock, self.output, &self.out[..len])?;
        let taken = ran?;
        self.at += taken;
        Ok(taken)
    }

    // More bytes after those that are left. An input that fails is one that is cut in its next record.
    fn read_more(&mut self) -> Result<(), End> {
        let left = script_block::move_front(self.bytes, self.at, self.end);
        self.at = 0;
        self.end = left;
        match script_io::read_some(self.clock, self.input, &mut self.bytes[left..]) {
            Ok(0) => Err(End),
            Ok(count) => {
                self.end = left + count;
                Ok(())
            }
            Err(_) => {
                self.end = left.max(1);
                Err(End)
            }
        }
    }

    // The last line: `free`, or `bad record` where bytes of a record are left.
    fn finish(&mut self) {
        let mut lines = Lines {
            bytes: &mut self.out[..],
            at: 0,
        };
        let _ = script_turn::turn_step(&mut self.m, &self.bytes[self.at..self.end], &mut lines);
        let len = lines.at;
        let _ = script_io::write_whole(self.clock, self.output, &self.out[..len]);
    }

    // The known records of the bytes that were read; where there is none, more bytes.
    fn turn(&mut self) -> Result<(), End> {
        if 0 < self.run_known()? {
            return Ok(());
        }
        let more = self.read_more();
        if more.is_err() {
            self.finish();
        }
        more
    }

    // A proved loop has to end, and nothing says that the input does: the turns are counted up to a number that no run
    // reaches.
    fn run(&mut self) {
        for _ in 0..u64::MAX {
            if self.turn().is_err() {
                return;
            }
        }
    }
}

fn main(rt: HostRuntime) {
    let mut words = [0u64; 4096];
    let mut bytes = [0u8; 65536];
    let mut out = [0u8; 131072];
    let mut input = rt.stdin();
    let mut output = rt.stdout();
    let m = Memory {
        words: &mut words,
        used: 4096,
    };
    let mut run = Run {
        clock: &rt,
        input: &mut input,
        output: &mut output,
        m,
        bytes: &mut bytes,
        at: 0,
        end: 0,
        out: &mut out,
    };
    run.run();
}
