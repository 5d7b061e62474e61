// Numbers that must not be mixed up.

// A row of the table.
#[derive(Clone, Copy, PartialEq, Eq, PartialOrd, Ord)]
pub struct RowID(pub u64);

impl RowID {
    // The greatest row at which a store starts or ends.
    pub const LIMIT: RowID = RowID(1 << 62);

    // The end of a branch on the right edge.
    pub const NONE: RowID = RowID(u64::MAX);
}

// A page of rows.
#[derive(Clone, Copy, PartialEq, Eq, PartialOrd, Ord)]
pub struct PageID(pub u64);

// A node of the pool.
#[derive(Clone, Copy, PartialEq, Eq, PartialOrd, Ord)]
pub struct NodeNo(pub u64);

impl NodeNo {
    // Stands for the header, the chain or the free count in a refusal: no node has it.
    pub const HEADER: NodeNo = NodeNo(65535);
}
