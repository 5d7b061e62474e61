// The entries of a leaf against the page ids of a prefix.

#![tactic(auto)]

ghost use Rattle.std.specs.Prelude.{◌≡◌, [], ◌+◌, ◌-◌, ◌≤◌, ◌<◌};
ghost use Rattle.model.specs.Words.{count};
ghost use Rattle.model.specs.Prune.{entry_end, on, ran_out};
ghost use Rattle.node_read.specs.Layout.{shape_of};
ghost use Rattle.prune_leaf.specs.Progress.{EndsAt, named_of, node_scan, progress_of};

use model::answer::Refusal;
use model::id::{NodeNo, PageID, RowID};
use node_read::store::Store;

// How many ids are named so far, and where the last entry of them ends.
#[derive(Clone, Copy)]
pub struct Progress {
    pub place: usize,
    pub reached: RowID,
}

// The end of entry i of leaf n.
#[tactic(auto, unfolding(model::specs::Prune::entry_end, node_read::specs::Layout::row_after))]
fn entry_end(s: Store<'_>, n: NodeNo, i: u64) -> RowID
    requires n_lt_pool { (n.0 < s.layout.pool) × (i < count (shape_of s.layout) s.words.now n.0) × (count (shape_of s.layout) s.words.now n.0 ≤ s.layout.capacity) }
    ensures { result.0 ≡ entry_end (shape_of s.entry.layout) s.entry.words.now n.0 i }
{
    let end = s.header(n).end_row_id;
    s.row_after(n, i).unwrap_or(end)
}

// The entries of node n, where it is a leaf, against the ids from a place on; or why the list is refused.
pub fn scan_node(
    s: Store<'_>,
    n: NodeNo,
    end: RowID,
    ids: &[u64],
    from: Progress,
) -> Result<Progress, Refusal>
    requires n_lt_pool { (n.0 < s.layout.pool) × (count (shape_of s.layout) s.words.now n.0 ≤ s.layout.capacity) }
    ensures { progress_of ids.now result ≡ node_scan s.entry.layout s.entry.words.now end.0 n.0 ids.now from.place from.reached.0 }
{
    let h = s.header(n);
    if !h.is_leaf() {
        return Ok(from);
    }
    let mut place = from.place;
    let mut reached = from.reached;
    for i in 0..h.count {
        if ids.len() <= place {
            return Ok(Progress { place, reached });
        }
        if s.page(n, i) != PageID(ids[place]) {
            return Err(Refusal::PageDiffers(place as u64));
        }
        let next = entry_end(s, n, i);
        if end < next {
            return Err(Refusal::EndDiffers(place as u64));
        }
        place += 1;
        reached = next;
    }
    Ok(Progress { place, reached })
}

// How many entries a list that is used names, all of them ending with the prefix; or why it is refused.
#[tactic(auto, unfolding(crate::specs::Progress::EndsAt, model::specs::Prune::ran_out))]
pub fn finish(end: RowID, p: Progress) -> Result<u64, Refusal>
    ensures answer { named_of end.0 result ≡ ran_out end.0 (on [] p.place p.reached.0) }
    ensures ends { EndsAt end.0 p.reached.0 result }
{
    if p.reached != end {
        return Err(Refusal::EndDiffers(p.place as u64));
    }
    Ok(p.place as u64)
}
