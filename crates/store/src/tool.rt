// What is done to the words of a store without a call.

use crate::wrong::{Failure, Wrong};
use model::answer::Refusal;
use node_read::header;
use std::io;
use store_picture::chain::Chain;
use store_picture::words;
use store_print::List;

// The words from a place on become these.
pub fn load(s: &mut [u64], place: u64, words: &[u64]) -> Result<(), Wrong<'static>> {
    words::load(s, place as usize, words).ok_or(Wrong::NoSuchWord)
}

// Word j of node n becomes x.
pub fn put(s: &mut [u64], n: u64, j: u64, x: u64) -> Result<(), Wrong<'static>> {
    words::put(s, n, j, x).ok_or(Wrong::NoSuchNode)
}

// The words from a place on, so many, eight to a line: each line loads them again.
pub fn dump(rt: &impl Print, s: &[u64], from: u64, many: u64) -> Result<(), Failure<'static>> {
    let end = match from.checked_add(many) {
        Some(end) if end <= s.len() as u64 => end as usize,
        _ => return Err(Failure::Wrong(Wrong::NoSuchWord)),
    };
    let from = from as usize;
    for (at, words) in (from..end).step_by(8).zip(s[from..end].chunks(8)) {
        println!(rt; "load {at}{}", List(words))?;
    }
    Ok(())
}

// The chain's line, of a closed store too; or the refusal for its header.
pub fn print_chain(rt: &impl Print, s: &[u64]) -> io::Result<()> {
    match header::open(s) {
        Ok(_) | Err(Refusal::Closed) => {}
        Err(refusal) => return store_print::print_refusal(rt, refusal),
    }
    print!(rt; "chain")?;
    let mut chain = Chain::new(s);
    for n in chain.by_ref() {
        print!(rt; " {n}")?;
    }
    println!(rt; " {}", chain.after)
}
