// Lines of text into the records of a script: `create 2 16 0`, `append 10 1`, `find 20`, `prune 0 20 1 2`, `walk 0`,
// `release 0`. What follows a `#` is a comment; lines with nothing before it are left out. A wrong line ends the run: its
// number, and what is wrong with it, goes to standard error.

#![tactic(auto)]

ghost use Rattle.std.specs.Prelude.{◌≤◌, length, IsTrue, IfSome};
ghost use Rattle.script_encode.specs.declared.TheConstants.{MAX_NUMBERS};

use std::io::{BufRead, BufReader};
use std::{fmt, io};
use store_text::line::{Shown, TooLong, Words};
use store_text::number::NumberError;
use store_text::{line, number};

// The most numbers that a record has.
const MAX_NUMBERS: usize = 511;

#[derive(Clone, Copy, Debug, PartialEq, Eq)]
enum Call {
    Create = 1,
    Append = 2,
    Find = 3,
    Prune = 4,
    Walk = 5,
    Release = 6,
}

impl Call {
    fn from_name(name: &[u8]) -> Option<Call> {
        match name {
            b"create" => Some(Call::Create),
            b"append" => Some(Call::Append),
            b"find" => Some(Call::Find),
            b"prune" => Some(Call::Prune),
            b"walk" => Some(Call::Walk),
            b"release" => Some(Call::Release),
            _ => None,
        }
    }

    // How many numbers it takes; none of a prune, which takes two, and then page ids.
    fn count(self) -> Option<usize>
        ensures { IfSome result (λ count. count ≤ 3) }
    {
        match self {
            Call::Create => Some(3),
            Call::Append => Some(2),
            Call::Prune => None,
            Call::Find | Call::Walk | Call::Release => Some(1),
        }
    }

    // Whether it takes so many numbers.
    fn takes(self, count: usize) -> bool
        ensures { IsTrue result → count ≤ MAX_NUMBERS }
    {
        match self.count() {
            Some(all) => count == all,
            None => 2 <= count && count <= MAX_NUMBERS,
        }
    }
}

impl fmt::Display for Call {
    fn fmt<W: fmt::Write>(&self, f: &mut fmt::Formatter<W>) -> fmt::Result {
        f.write_str(match *self {
            Call::Create => "create",
            Call::Append => "append",
            Call::Find => "find",
            Call::Prune => "prune",
            Call::Walk => "walk",
            Call::Release => "release",
        })
    }
}

// What is wrong with a line.
#[derive(Clone, Copy, Debug, PartialEq, Eq)]
enum Fault<'a> {
    LineTooLong,
    NoCall(&'a [u8]),
    Number(NumberError<'a>),
    // a call with so many numbers, which takes more or fewer
    Count(Call, usize),
}

impl From<TooLong> for Fault<'_> {
    fn from(_: TooLong) -> Self {
        Fault::LineTooLong
    }
}

impl<'a> From<NumberError<'a>> for Fault<'a> {
    fn from(error: NumberError<'a>) -> Fault<'a> {
        Fault::Number(error)
    }
}

impl fmt::Display for Fault<'_> {
    fn fmt<W: fmt::Write>(&self, f: &mut fmt::Formatter<W>) -> fmt::Result {
        match *self {
            Fault::LineTooLong => write!(f, "longer than 65,535 bytes"),
            Fault::NoCall(name) => write!(f, "no call is named \"{}\"", Shown(name)),
            Fault::Number(NumberError::TooLarge(word)) => write!(
                f,
                "\"{}\" is 2^64 or more",
                Shown(word)
            ),
            Fault::Number(NumberError::NoNumber(word)) => write!(
                f,
                "\"{}\" is no number",
                Shown(word)
            ),
            Fault::Count(call, has) => match call.count() {
                Some(1) => write!(f, "{call} takes 1 number and has {has}"),
                Some(all) => write!(f, "{call} takes {all} numbers and has {has}"),
                None if MAX_NUMBERS < has => {
                    write!(f, "{call} takes at most 509 page ids and has {}", has - 2)
                }
                None => write!(
                    f,
                    "{call} takes 2 numbers, then at most 509 page ids, and has {has}"
                ),
            },
        }
    }
}

// The call of a line, and its numbers.
#[derive(Clone, Copy)]
struct Asked<'a> {
    call: Call,
    numbers: &'a [u64],
    ghost fits: { length numbers.now ≤ MAX_NUMBERS },
}

// What a line asks for; nothing where it has no word.
fn read_call<'a, 'b>(
    read: Result<&'a [u8], TooLong>,
    buffer: &'b mut [u64],
) -> Result<Option<Asked<'b>>, Fault<'a>> {
    let line = read?;
    let mut words = Words(line::before_comment(line));
    let Some(name) = words.next() else {
        return Ok(None);
    };
    let call = Call::from_name(name).ok_or(Fault::NoCall(name))?;
    let numbers = number::read_numbers(words, buffer)?;
    if !call.takes(numbers.len()) {
        // no call takes as many numbers as the buffer has room for: those past it are counted here
        return Err(Fault::Count(call, number::count_numbers(words)?));
    }
    Ok(Some(Asked { call, numbers }))
}

// Writes a record: its length and kind, then its words, the lowest byte of each first.
fn write_record(rt: &impl Print, asked: Asked<'_>) -> io::Result<()> {
    let mut record = [0u8; 6 + 8 * MAX_NUMBERS];
    let len = 6 + 8 * asked.numbers.len();
    let (head, words) = record.split_at_mut(6);
    head[..4].copy_from_slice(&(len as u32 - 4).to_le_bytes());
    head[4..].copy_from_slice(&(asked.call as u16).to_le_bytes());
    for (bytes, number) in words.chunks_exact_mut(8).zip(asked.numbers) {
        bytes.copy_from_slice(&number.to_le_bytes());
    }
    rt.write_all(&record[..len])
}

// A wrong line has one bad record: what was written up to here is no good script. Standard error may be closed, so the record
// follows also where the message cannot be written.
fn write_fault(rt: &(impl Print + Eprint), at: u64, fault: Fault<'_>) {
    let _ = eprintln!(rt; "line {at}: {fault}");
    let _ = rt.write_all(b"\x02\0\0\0\0\0");
}

// A proved loop has to end, and nothing says that the input does: the lines are counted up to a number that no run reaches.
// A record that cannot be written is left out, and the lines after it are read: a wrong one is still named.
fn encode(rt: &(impl Print + Eprint), reader: &mut impl BufRead) {
    let mut buffer = [0u8; 65535];
    let mut numbers = [0u64; MAX_NUMBERS + 1];
    for at in 1..u64::MAX {
        let Some(read) = line::read_line(reader, &mut buffer) else {
            break;
        };
        match read_call(read, &mut numbers) {
            Ok(Some(asked)) => {
                let _ = write_record(rt, asked);
            }
            Ok(None) => {}
            Err(fault) => return write_fault(rt, at, fault),
        }
    }
}

// Where there is no memory for a block, the lines are read without one.
fn main(rt: HostRuntime) {
    match BufReader::with_capacity(rt.alloc(), 4096, rt.stdin()) {
        Ok(mut reader) => encode(&rt, &mut reader),
        Err(_) => encode(&rt, &mut rt.reader()),
    }
}
