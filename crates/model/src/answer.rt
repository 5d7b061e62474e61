// What each call answers: a value, or why it was refused. specs/Refusals.antt gives each case its number and values.

use crate::id::{NodeNo, PageID, RowID};

// Why a call was refused. Nothing that was lent has changed.
#[derive(Clone, Copy, PartialEq, Eq)]
pub enum Refusal {
    // 1: capacity, number of nodes or length of a new store
    BadParameters,
    // 2: an unsound node; NodeNo::HEADER for the header, the chain or the free count
    Unsound(NodeNo),
    // 3
    Closed,
    // 4: a start or an end above 2^62, or no rows
    RowLimit,
    // 5: nodes needed
    NoRoom(u64),
    // 6: a root split at height 31
    HeightLimit,
    // 7: no page ids, or start not below end
    NoPrefix,
    // 8: the root's start
    StartDiffers(RowID),
    // 9: the place in the list
    PageDiffers(u64),
    // 10: the place in the list
    EndDiffers(u64),
    // 11: entries held
    ListTooLong(u64),
    // 12: the first row below the pivot
    RowBelowPivot(RowID),
    // 13: the length wanted
    ListTooShort(u64),
}

// The first unsound node that was read: why a part of a call that only reads nodes fails.
#[derive(Clone, Copy, PartialEq, Eq)]
pub struct UnsoundNode(pub NodeNo);

impl From<UnsoundNode> for Refusal {
    ghost use Rattle.std.specs.Prelude.{◌≡◌};
    ghost use Rattle.model.specs.declared.answer.Refusal.TheVariants.{Unsound};

    ghost from_gives = { λ u r. r ≡ Unsound u.0 };

    fn from(u: UnsoundNode) -> Refusal {
        Refusal::Unsound(u.0)
    }
}

// Of `insert_row_page`: the rows of an appended page, and the nodes that it took.
#[derive(Clone, Copy, PartialEq, Eq)]
pub struct RowPageIndexInsert {
    pub start_row_id: RowID,
    pub end_row_id: RowID,
    pub taken_nodes: u64,
}

// Of `prune_checkpoint_prefix`.
#[derive(Clone, Copy, PartialEq, Eq)]
pub struct RowPagePrefixPrune {
    pub removed_entries: u64,
    pub reclaimed_nodes: u64,
    pub collapsed_levels: u64,
}

// Of the cursor's `next`: a leaf.
#[derive(Clone, Copy, PartialEq, Eq)]
pub struct Leaf {
    pub start_row_id: RowID,
    pub end_row_id: RowID,
    pub count: u64,
}

// Of `destroy` and `destroy_empty`.
#[derive(Clone, Copy, PartialEq, Eq)]
pub struct Released {
    pub nodes: u64,
    pub pages: u64,
}

// Of the full check.
#[derive(Clone, Copy, PartialEq, Eq)]
pub struct WellFormed {
    pub entries: u64,
    pub nodes: u64,
    pub free: u64,
}
