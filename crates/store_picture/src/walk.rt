// The tree of any words.

ghost use Rattle.std.specs.Prelude.{◌≤◌, ◌<◌};
ghost use Rattle.std.specs.Iterator.{at_most};

use crate::words;
use arrayvec::ArrayVec;
use model::node::RowPageIndexNodeHeader;
use std::iter;

// A node: its level below the root, the height that it should have, the row of the entry that leads to it, and the row of the next
// entry on the path to it, where there is one.
#[derive(Clone, Copy, Default)]
pub struct Node {
    pub number: u64,
    pub level: usize,
    pub height: u64,
    pub row: u64,
    pub next: Option<u64>,
}

// A node on a path, and the next of its entries to follow.
#[derive(Clone, Copy, Default)]
struct Place {
    node: Node,
    index: u64,
}

// The nodes below the root in reading order, at most P with the root, at most 32 deep, with at most C entries each. A node takes
// a turn for each of its entries and one more, so all of them take fewer than the store has words.
#[derive(Drop)]
pub struct Below<'a> {
    words: &'a [u64],
    // of the root
    height: u64,
    path: ArrayVec<Place, 32>,
    visited: u64,
    turns: u64,
    ghost is_low: { height ≤ 31 },
}

impl<'a> Below<'a> {
    fn new(words: &'a [u64], root: Node) -> Below<'a>
        requires { root.height ≤ 31 }
    {
        let mut path = ArrayVec::new();
        path.push(Place {
            node: root,
            index: 0,
        });
        Below {
            words,
            height: root.height,
            path,
            visited: 1,
            turns: 65536,
        }
    }
}

impl Iterator for Below<'_> {
    type Item = Node;

    ghost remaining = { λ below. at_most below.turns };

    fn next(&mut self) -> Option<Node> {
        let s = self.words;
        let pool = words::word(s, 1);
        // no `for`: the turns left outlast the call
        while 0 < self.turns {
            self.turns -= 1;
            let level = self.path.len();
            let place = self.path.last_mut()?;
            let top = *place;
            let n = top.node.number;
            if self.height < level as u64 || words::entries(s, n) <= top.index {
                self.path.pop();
                continue;
            }
            place.index += 1;
            let child = words::child(s, n, top.index);
            if pool <= child {
                continue;
            }
            if pool <= self.visited {
                return None;
            }
            self.visited += 1;
            let node = Node {
                number: child,
                level,
                height: self.height - level as u64,
                row: words::row(s, n, top.index),
                next: next_row(s, top),
            };
            // the path is never full: level is at most 31
            self.path.try_push(Place { node, index: 0 }).ok()?;
            return Some(node);
        }
        None
    }
}

// The row of the next entry on the path through the entry of a place.
fn next_row(s: &[u64], top: Place) -> Option<u64>
    requires { top.index < 4094 }
{
    let after = top.index + 1;
    if after < words::entries(s, top.node.number) {
        return Some(words::row(s, top.node.number, after));
    }
    top.node.next
}

// All nodes in reading order. A root is taken to be at most 31 high.
pub fn nodes(s: &[u64]) -> iter::Chain<iter::Once<Node>, Below<'_>> {
    let number = words::word(s, 2);
    let root = Node {
        number,
        level: 0,
        height: words::part(s, number, 0).min(RowPageIndexNodeHeader::MAX_HEIGHT),
        row: words::part(s, number, 2),
        next: None,
    };
    iter::once(root).chain(Below::new(s, root))
}
