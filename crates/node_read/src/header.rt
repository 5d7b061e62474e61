// The header of a store, read and tested.

ghost use Rattle.std.specs.Prelude.{◌≡◌};
ghost use Rattle.model.specs.Refusals.{header_ok};
ghost use Rattle.node_read.specs.Layout.{opened};

use crate::layout::Layout;
use model::answer::Refusal;
use model::id::NodeNo;

// Words 0 to 4.
#[derive(Clone, Copy)]
pub struct StoreHeader {
    pub layout: Layout,
    pub root: NodeNo,
    pub free_head: NodeNo,
    pub free_count: u64,
}

// Whether capacity, pool and length fit, and the other words are at most the pool.
#[tactic(auto, unfolding(model::specs::Refusals::header_ok))]
fn header_ok(s: &[u64]) -> bool
    ensures { result ≡ header_ok s.now }
{
    if s.len() < 8 {
        return false;
    }
    let pool = s[1];
    let l = Layout {
        capacity: s[0],
        pool,
    };
    if !l.fits(s) {
        return false;
    }
    if pool < s[2] {
        return false;
    }
    if pool < s[3] {
        return false;
    }
    s[4] <= pool
}

// The header of an open store; or refusal 2, then 3.
#[tactic(auto, using(crate::proofs::Opened::opening))]
pub fn open(s: &[u64]) -> Result<StoreHeader, Refusal>
    ensures { result ≡ opened s.now }
{
    if !header_ok(s) {
        return Err(Refusal::Unsound(NodeNo::HEADER));
    }
    let capacity = s[0];
    let pool = s[1];
    let root = s[2];
    if root == pool {
        return Err(Refusal::Closed);
    }
    Ok(StoreHeader {
        layout: Layout { capacity, pool },
        root: NodeNo(root),
        free_head: NodeNo(s[3]),
        free_count: s[4],
    })
}
