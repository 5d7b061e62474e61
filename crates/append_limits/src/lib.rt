// The tests of an append after its path: 4, 6, 5.

#![tactic(auto)]

ghost use Rattle.std.specs.Prelude.{◌≡◌, ◌≤◌};
ghost use Rattle.model.specs.Words.{row_limit};
ghost use Rattle.append_limits.specs.Limits.{limits_told};

use model::answer::Refusal;
use model::id::RowID;
use model::node::RowPageIndexNodeHeader;

// count rows from start on, in a tree of this height that needs more nodes, with so many free.
#[tactic(auto, unfolding(crate::specs::Limits::limits_told))]
pub fn test_limits(
    start: RowID,
    count: u64,
    height: u64,
    needed: u64,
    free: u64,
) -> Result<(), Refusal>
    requires { start.0 ≤ row_limit }
    ensures { result ≡ limits_told count start.0 height needed free }
{
    if count == 0 {
        return Err(Refusal::RowLimit);
    }
    if RowID::LIMIT.0 - start.0 < count {
        return Err(Refusal::RowLimit);
    }
    if height < needed {
        if height == RowPageIndexNodeHeader::MAX_HEIGHT {
            return Err(Refusal::HeightLimit);
        }
    }
    if free < needed {
        return Err(Refusal::NoRoom(needed));
    }
    Ok(())
}
