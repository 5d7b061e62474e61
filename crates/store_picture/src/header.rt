// What is wrong with a store whose header, chain or counts the full check refuses.

use crate::chain::Chain;
use crate::words;
use model::node::RowPageIndexNodeHeader;
use node_read::layout::Layout;
use std::fmt;

// What is, and what is wanted.
#[derive(Clone, Copy, Debug, PartialEq, Eq)]
pub enum HeaderFault {
    NoHeader { lent: u64 },
    Capacity { is: u64 },
    Nodes { is: u64 },
    Length { lent: u64, wanted: u64 },
    Root { is: u64, nodes: u64 },
    FirstFree { is: u64, nodes: u64 },
    FreeCount { is: u64, nodes: u64 },
    ShortChain { count: u64, free_count: u64 },
    LongChain { after: u64, nodes: u64 },
    NotFree { node: u64 },
    Sum,
}

impl fmt::Display for HeaderFault {
    fn fmt<W: fmt::Write>(&self, f: &mut fmt::Formatter<W>) -> fmt::Result {
        match *self {
            HeaderFault::NoHeader { lent } => write!(f, "{lent} words are lent, a header has 8"),
            HeaderFault::Capacity { is } => write!(
                f,
                "a capacity of 2 to 4,094 is wanted, not {is}"
            ),
            HeaderFault::Nodes { is } => write!(f, "1 to 65,535 nodes are wanted, not {is}"),
            HeaderFault::Length { lent, wanted } => {
                write!(f, "{lent} words are lent, such a store has {wanted}")
            }
            HeaderFault::Root { is, nodes } => {
                write!(f, "the root's number is {is}, wanted at most {nodes}")
            }
            HeaderFault::FirstFree { is, nodes } => {
                write!(f, "the first free number is {is}, wanted at most {nodes}")
            }
            HeaderFault::FreeCount { is, nodes } => {
                write!(f, "the free count is {is}, wanted at most {nodes}")
            }
            HeaderFault::ShortChain { count, free_count } => {
                write!(
                    f,
                    "the chain has {count} nodes, the free count is {free_count}"
                )
            }
            HeaderFault::LongChain { after, nodes } => {
                write!(f, "after the last free node stands {after}, wanted {nodes}")
            }
            HeaderFault::NotFree { node } => write!(
                f,
                "node {node} is in the chain and is not free"
            ),
            HeaderFault::Sum => write!(f, "tree and free nodes do not add up to all nodes"),
        }
    }
}

// A chain that does not end with P after the free count's nodes; or a tree and a chain that do not hold all nodes.
fn chain_fault(s: &[u64], nodes: u64, free_count: u64) -> HeaderFault {
    let mut chain = Chain::new(s);
    for node in chain.by_ref() {
        if words::part(s, node, 0) != RowPageIndexNodeHeader::FREE_MARK {
            return HeaderFault::NotFree { node };
        }
    }
    let Chain { count, after, .. } = chain;
    if count < free_count {
        return HeaderFault::ShortChain { count, free_count };
    }
    if after != nodes {
        return HeaderFault::LongChain { after, nodes };
    }
    HeaderFault::Sum
}

// Capacity, nodes and length; words 2 to 4; and then the chain.
pub fn find_fault(s: &[u64]) -> HeaderFault {
    let lent = s.len() as u64;
    let [capacity, nodes, root, first_free, free_count, _, _, _, ..] = *s else {
        return HeaderFault::NoHeader { lent };
    };
    if capacity < Layout::MIN_CAPACITY || Layout::MAX_CAPACITY < capacity {
        return HeaderFault::Capacity { is: capacity };
    }
    if nodes < Layout::MIN_POOL || Layout::MAX_POOL < nodes {
        return HeaderFault::Nodes { is: nodes };
    }
    let layout = Layout {
        capacity,
        pool: nodes,
    };
    let wanted = layout.store_length();
    if lent != wanted {
        return HeaderFault::Length { lent, wanted };
    }
    if nodes < root {
        return HeaderFault::Root { is: root, nodes };
    }
    if nodes < first_free {
        return HeaderFault::FirstFree {
            is: first_free,
            nodes,
        };
    }
    if nodes < free_count {
        return HeaderFault::FreeCount {
            is: free_count,
            nodes,
        };
    }
    chain_fault(s, nodes, free_count)
}
