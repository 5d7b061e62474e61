// The header of a node, and an entry.

ghost use Rattle.std.specs.Prelude.{◌≡◌, eqb, leb};
ghost use Rattle.model.specs.Words.{NONE, free_mark, max_height, row_limit};
ghost use Rattle.model.specs.LeafWalk.{page_entry};

use crate::id::{PageID, RowID};

// The four words before a node's pairs.
#[derive(Clone, Copy, PartialEq, Eq)]
pub struct RowPageIndexNodeHeader {
    pub height: u64,
    pub count: u64,
    pub start_row_id: RowID,
    pub end_row_id: RowID,
}

impl RowPageIndexNodeHeader {
    pub const MAX_HEIGHT: u64 = 31;

    pub const FREE_MARK: u64 = 0xffff_ffff;

    pub fn is_leaf(self) -> bool
        ensures { result ≡ eqb self.height 0 }
    {
        self.height == 0
    }

    pub fn is_full(self, capacity: u64) -> bool
        ensures { result ≡ leb capacity self.count }
    {
        capacity <= self.count
    }

    pub fn is_empty(self) -> bool
        ensures { result ≡ eqb self.count 0 }
    {
        self.count == 0
    }

    pub fn is_free(self) -> bool
        ensures { result ≡ eqb self.height free_mark }
    {
        self.height == Self::FREE_MARK
    }

    pub fn ends_at_none(self) -> bool
        ensures { result ≡ eqb self.end_row_id.0 NONE }
    {
        self.end_row_id == RowID::NONE
    }

    pub fn is_in_height(self) -> bool
        ensures { result ≡ leb self.height max_height }
    {
        self.height <= Self::MAX_HEIGHT
    }

    pub fn starts_in_limit(self) -> bool
        ensures { result ≡ leb self.start_row_id.0 row_limit }
    {
        self.start_row_id <= RowID::LIMIT
    }
}

// An entry of a leaf: the first row of a page, and the page.
#[derive(Clone, Copy, PartialEq, Eq)]
pub struct PageEntry {
    pub row_id: RowID,
    pub page_id: PageID,
}

impl PageEntry {
    pub fn new(row_id: RowID, page_id: PageID) -> Self
        ensures { result ≡ page_entry row_id.0 page_id.0 }
    {
        PageEntry { row_id, page_id }
    }
}
