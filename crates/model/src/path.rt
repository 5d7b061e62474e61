// The path from the root to a node.

ghost use Rattle.std.specs.Prelude.{◌≡◌, [], ◌+◌, ◌<◌, ◌≤◌};
ghost use Rattle.model.specs.Paths.{entered, entered_path, last_of, popped, rooted, trail, turned};

use crate::id::NodeNo;

// A node, and the next of its entries to follow.
#[derive(Clone, Copy)]
pub struct Position {
    pub node: NodeNo,
    pub index: u64,
}

impl Position {
    // A node just entered.
    pub fn entered(node: NodeNo) -> Position
        ensures { result ≡ entered node.0 }
    {
        Position { node, index: 0 }
    }

    // Moved on to the next entry.
    pub fn turned(mut self) -> Position
        requires { self.index < 4294967295 }
        ensures { result ≡ turned self }
    {
        self.index += 1;
        self
    }
}

// One position for each level, from the root down: heights are at most 31.
#[derive(Clone, Copy)]
pub struct Path {
    pub positions: [Position; 32],
    pub depth: usize,
}

impl Path {
    // At a node just entered.
    pub fn rooted(node: NodeNo) -> Path
        ensures { result ≡ rooted node.0 }
    {
        Path {
            positions: [Position { node, index: 0 }; 32],
            depth: 1,
        }
    }

    pub fn new() -> Path
        ensures { (trail result ≡ []) × (result.depth ≡ 0) }
    {
        Path {
            positions: [Position {
                node: NodeNo(0),
                index: 0,
            }; 32],
            depth: 0,
        }
    }

    // The last position.
    pub fn last(&self) -> Position
        requires { (0 < self.now.depth) × (self.now.depth ≤ 32) }
        ensures { result ≡ last_of self.now }
    {
        self.positions[self.depth - 1]
    }

    // The last position moves on to its next entry, and a child is entered below it.
    pub fn enter(&mut self, child: NodeNo)
        requires depth { (0 < self.old.depth) × (self.old.depth < 32) }
        requires index { (last_of self.old).index < 4294967295 }
        ensures { self.new ≡ entered_path self.old child.0 }
    {
        let at = self.depth - 1;
        self.positions[at] = self.positions[at].turned();
        self.positions[self.depth] = Position::entered(child);
        self.depth += 1;
    }

    // The last position is left.
    pub fn leave(&mut self)
        requires { 0 < self.old.depth }
        ensures { self.new ≡ popped self.old }
    {
        self.depth -= 1;
    }
}
