// The cursor of a leaf walk.

ghost use Rattle.std.specs.Prelude.{◌≡◌};
ghost use Rattle.model.specs.LeafWalk.{unsought};

use crate::id::RowID;

// The row that the next leaf is reached for. A cursor that is done gives none until it is sought again.
#[derive(Clone, Copy, PartialEq, Eq)]
pub struct RowPageIndexMemCursor {
    pub row_id: RowID,
    pub done: bool,
}

impl RowPageIndexMemCursor {
    // Never sought.
    pub fn new() -> Self
        ensures { result ≡ unsought }
    {
        RowPageIndexMemCursor {
            row_id: RowID(0),
            done: true,
        }
    }
}
