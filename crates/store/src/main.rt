// Lines of text from standard input, each a call on a store of the program's own or a look at it; their answers to standard
// output, a line each. `docs/STORE.md` lists them. A wrong line is named with its number and changes nothing.

#![tactic(auto)]

pub mod call;
pub mod kind;
pub mod session;
pub mod tool;
pub mod wrong;

use kind::Kind;
use lossy_print::Lossy;
use session::{Asked, Session};
use std::io::{BufRead, BufReader};
use store_text::line::{TooLong, Words};
use store_text::{line, number};
use wrong::{Failure, Wrong};

// What a line asks for; nothing where it has no word.
fn read_call<'a>(
    read: Result<&'a [u8], TooLong>,
    buffer: &'a mut [u64],
) -> Result<Option<Asked<'a>>, Wrong<'a>> {
    let line = read?;
    let mut words = Words(line::before_comment(line));
    let Some(name) = words.next() else {
        return Ok(None);
    };
    let kind = Kind::from_name(name).ok_or(Wrong::NoSuchName(name))?;
    let numbers = number::read_numbers(words, buffer)?;
    Ok(Some(Asked {
        name,
        kind,
        numbers,
    }))
}

// What a line asks for is done.
fn take_line<'a>(
    rt: &impl Print,
    session: &mut Session,
    read: Result<&'a [u8], TooLong>,
    numbers: &'a mut [u64],
) -> Result<(), Failure<'a>> {
    match read_call(read, numbers)? {
        Some(asked) => session.perform(rt, asked),
        None => Ok(()),
    }
}

// A proved loop has to end, and nothing says that the input does: the lines are counted up to a number that no run reaches.
fn run(rt: &impl Print, reader: &mut impl BufRead) {
    let mut session = Session::new();
    let mut buffer = [0u8; 65535];
    let mut numbers = [0u64; 32768];
    for at in 1..u64::MAX {
        let Some(read) = line::read_line(reader, &mut buffer) else {
            break;
        };
        match take_line(rt, &mut session, read, &mut numbers) {
            Ok(()) | Err(Failure::Output(_)) => {}
            Err(Failure::Wrong(wrong)) => {
                let _ = println!(rt; "line {at}: {wrong}");
            }
        }
    }
}

// Where there is no memory for a block, the lines are read without one. What cannot be written is left out, and all after it is
// tried.
fn main(rt: HostRuntime) {
    match BufReader::with_capacity(rt.alloc(), 65536, rt.stdin()) {
        Ok(mut reader) => run(&Lossy(&rt), &mut reader),
        Err(_) => run(&Lossy(&rt), &mut rt.reader()),
    }
}
