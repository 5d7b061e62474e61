// A store drawn for people, on any words: its tree, its free nodes, and the first thing that is wrong with it.

#![tactic(auto)]

pub mod chain;
pub mod fault;
pub mod header;
pub mod walk;
pub mod words;

use chain::Chain;
use fault::Fault;
use model::answer::Refusal;
use model::id::NodeNo;
use std::{fmt, io};
use store_print::{List, Row};
use walk::Node;

// Two spaces for each node above.
#[derive(Clone, Copy)]
struct Indent(usize);

impl fmt::Display for Indent {
    fn fmt<W: fmt::Write>(&self, f: &mut fmt::Formatter<W>) -> fmt::Result {
        for _ in 0..self.0 {
            f.write_str("  ")?;
        }
        Ok(())
    }
}

// Number, height, rows and entries of a node, after its indent. The head is one write: a deep node has no more than others.
fn draw(rt: &impl Print, s: &[u64], node: Node) -> io::Result<()> {
    let n = node.number;
    let height = words::part(s, n, 0);
    print!(rt;
        "{}#{n} height {height} rows {}..{}",
        Indent(node.level),
        Row(words::part(s, n, 2)),
        Row(words::part(s, n, 3))
    )?;
    for i in 0..words::entries(s, n) {
        let row = Row(words::row(s, n, i));
        let child = words::child(s, n, i);
        if height == 0 {
            print!(rt; "  {row}:page {child}")?;
        } else {
            print!(rt; "  {row}:#{child}")?;
        }
    }
    println!(rt; "")
}

// Number, height, count, start and end of the nodes of an open store; or the refusal for its header.
pub fn shape(rt: &impl Print, s: &[u64]) -> io::Result<()> {
    if let Err(refusal) = node_read::header::open(s) {
        return store_print::print_refusal(rt, refusal);
    }
    for node in walk::nodes(s) {
        let n = node.number;
        let parts = [0, 1, 2, 3].map(|j| words::part(s, n, j));
        println!(rt; "node {n}{}", List(&parts))?;
    }
    Ok(())
}

// What is wrong with a node; the root may be empty.
fn check_node(s: &[u64], n: u64) -> Result<(), Fault> {
    fault::check_empty_root(s, n)?;
    for node in walk::nodes(s) {
        if node.number == n {
            fault::check_node(s, node)?;
        }
    }
    Ok(())
}

// What is wrong with the node that the check answers, or with the header, the chain or the counts.
fn print_fault(rt: &impl Print, s: &[u64], unsound: NodeNo) -> io::Result<()> {
    if unsound == NodeNo::HEADER {
        return println!(rt; "wrong: {}", header::find_fault(s));
    }
    let n = unsound.0;
    print!(rt; "wrong: #{n}: ")?;
    if let Err(fault) = check_node(s, n) {
        print!(rt; "{fault}")?;
    }
    println!(rt; "")
}

// The free nodes in the order of the chain.
fn print_free(rt: &impl Print, s: &[u64]) -> io::Result<()> {
    print!(rt; "free {}:", words::word(s, 4))?;
    for n in Chain::new(s) {
        print!(rt; " #{n}")?;
    }
    println!(rt; "")
}

// What is drawn of a store between its header and the check's line.
fn draw_parts(rt: &impl Print, s: &[u64]) -> io::Result<()> {
    match node_read::header::open(s) {
        Ok(_) => {
            for node in walk::nodes(s) {
                draw(rt, s, node)?;
            }
        }
        Err(Refusal::Closed) => println!(rt; "closed")?,
        Err(_) => return Ok(()),
    }
    print_free(rt, s)
}

pub fn picture(rt: &impl Print, s: &[u64]) -> io::Result<()> {
    println!(rt;
        "store of {} words, capacity {}, nodes {}, root #{}",
        s.len(),
        words::word(s, 0),
        words::word(s, 1),
        words::word(s, 2)
    )?;
    draw_parts(rt, s)?;
    let answer = call_check::full_check(s);
    if let Err(Refusal::Unsound(unsound)) = answer {
        print_fault(rt, s, unsound)?;
    }
    store_print::print_checked(rt, answer)
}
