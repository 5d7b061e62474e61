// The free chain of any words.

ghost use Rattle.std.specs.Prelude.{◌-◌};
ghost use Rattle.std.specs.Iterator.{at_most};

use crate::words;
use node_read::layout::Layout;

// The nodes of the chain in its order: as many as the free count says, up to the first number that is not below P.
#[derive(Clone, Copy)]
pub struct Chain<'a> {
    words: &'a [u64],
    // the nodes that were given
    pub count: u64,
    // the number after them
    pub after: u64,
}

impl<'a> Chain<'a> {
    pub fn new(words: &'a [u64]) -> Chain<'a> {
        Chain {
            words,
            count: 0,
            after: words::word(words, 3),
        }
    }
}

impl Iterator for Chain<'_> {
    type Item = u64;

    ghost remaining = { λ chain. at_most (65535 - chain.count) };

    fn next(&mut self) -> Option<u64> {
        if Layout::MAX_POOL <= self.count || words::word(self.words, 4) <= self.count {
            return None;
        }
        if words::word(self.words, 1) <= self.after {
            return None;
        }
        let n = self.after;
        self.after = words::part(self.words, n, 1);
        self.count += 1;
        Some(n)
    }
}
