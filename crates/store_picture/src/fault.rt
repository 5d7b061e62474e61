// What is wrong with a node, in the order of the node test; then its child numbers and a branch's end. Each function gives the
// first fault that it finds.

use crate::walk::Node;
use crate::words;
use model::id::RowID;
use std::fmt;
use store_print::Row;

// What is, and what is wanted, or what it must be above or below.
#[derive(Clone, Copy, Debug, PartialEq, Eq)]
pub enum Fault {
    Height { is: u64, wanted: u64 },
    Count { is: u64, capacity: u64 },
    Start { is: Row, wanted: Row },
    HighStart { is: Row },
    FirstRow { is: Row, wanted: Row },
    Row { is: Row, entry: u64 },
    LowEnd { is: Row, last_row: Row },
    HighEnd { is: Row },
    OtherEnd { is: Row, next: Row },
    Child { is: u64, nodes: u64 },
    BranchEnd { is: Row, next: Option<Row> },
}

const ROW_LIMIT: Row = Row(RowID::LIMIT.0);

impl fmt::Display for Fault {
    fn fmt<W: fmt::Write>(&self, f: &mut fmt::Formatter<W>) -> fmt::Result {
        match *self {
            Fault::Height { is, wanted } => write!(f, "its height is {is}, wanted {wanted}"),
            Fault::Count { is, capacity } => {
                write!(f, "its count is {is}, wanted 1 to {capacity}")
            }
            Fault::Start { is, wanted } => write!(f, "its start is {is}, wanted {wanted}"),
            Fault::HighStart { is } => write!(f, "its start is {is}, wanted at most {ROW_LIMIT}"),
            Fault::FirstRow { is, wanted } => write!(f, "its first row is {is}, wanted {wanted}"),
            Fault::Row { is, entry } => {
                write!(f, "row {is} is not above the row before it, entry {entry}")
            }
            Fault::LowEnd { is, last_row } => {
                write!(f, "its end is {is}, wanted above its last row {last_row}")
            }
            Fault::HighEnd { is } => write!(f, "its end is {is}, wanted at most {ROW_LIMIT}"),
            Fault::OtherEnd { is, next } => {
                write!(f, "its end is {is}, wanted the next row {next}")
            }
            Fault::Child { is, nodes } => write!(f, "its child number {is} is not below {nodes}"),
            Fault::BranchEnd { is, next: None } => write!(f, "its end is {is}, wanted NONE"),
            Fault::BranchEnd {
                is,
                next: Some(next),
            } => { write!(f, "its end is {is}, wanted NONE or the next row {next}") }
        }
    }
}

// A leaf's end, before the next row where there is one.
fn check_leaf_end(end: u64, next: Option<u64>) -> Result<(), Fault> {
    if RowID::LIMIT.0 < end {
        return Err(Fault::HighEnd { is: Row(end) });
    }
    match next {
        Some(next) if end != next => Err(Fault::OtherEnd {
            is: Row(end),
            next: Row(next),
        }),
        _ => Ok(()),
    }
}

// The end of a branch, or of an empty root: NONE, or the next row where there is one.
fn check_branch_end(end: u64, next: Option<u64>) -> Result<(), Fault> {
    if end == RowID::NONE.0 || next == Some(end) {
        return Ok(());
    }
    Err(Fault::BranchEnd {
        is: Row(end),
        next: next.map(Row),
    })
}

// Child numbers and end of a node whose rows rise up to this one.
fn check_end(s: &[u64], node: Node, count: u64, last_row: u64) -> Result<(), Fault> {
    let n = node.number;
    let end = words::part(s, n, 3);
    if end <= last_row {
        return Err(Fault::LowEnd {
            is: Row(end),
            last_row: Row(last_row),
        });
    }
    if words::part(s, n, 0) == 0 {
        return check_leaf_end(end, node.next);
    }
    let nodes = words::word(s, 1);
    for i in 0..count {
        let is = words::child(s, n, i);
        if nodes <= is {
            return Err(Fault::Child { is, nodes });
        }
    }
    check_branch_end(end, node.next)
}

// Rows, child numbers and end of a node whose count is in range.
fn check_entries(s: &[u64], node: Node, count: u64) -> Result<(), Fault> {
    let n = node.number;
    let mut last_row = words::row(s, n, 0);
    for entry in 1..count {
        let is = words::row(s, n, entry);
        if is <= last_row {
            return Err(Fault::Row { is: Row(is), entry });
        }
        last_row = is;
    }
    check_end(s, node, count, last_row)
}

pub fn check_node(s: &[u64], node: Node) -> Result<(), Fault> {
    let n = node.number;
    let is = words::part(s, n, 0);
    if is != node.height {
        return Err(Fault::Height {
            is,
            wanted: node.height,
        });
    }
    let count = words::part(s, n, 1);
    if count != words::entries(s, n) || count == 0 {
        return Err(Fault::Count {
            is: count,
            capacity: words::word(s, 0),
        });
    }
    let start = words::part(s, n, 2);
    if start != node.row {
        return Err(Fault::Start {
            is: Row(start),
            wanted: Row(node.row),
        });
    }
    let first = words::row(s, n, 0);
    if first != node.row {
        return Err(Fault::FirstRow {
            is: Row(first),
            wanted: Row(node.row),
        });
    }
    check_entries(s, node, count)
}

// A root that is an empty leaf has its own rule.
pub fn check_empty_root(s: &[u64], n: u64) -> Result<(), Fault> {
    if n != words::word(s, 2) || words::part(s, n, 0) != 0 || words::part(s, n, 1) != 0 {
        return Ok(());
    }
    let start = words::part(s, n, 2);
    if RowID::LIMIT.0 < start {
        return Err(Fault::HighStart { is: Row(start) });
    }
    check_branch_end(words::part(s, n, 3), None)
}
