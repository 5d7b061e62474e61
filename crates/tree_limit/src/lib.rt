// The end of a branch, by what is next on its path.

#![tactic(auto)]

ghost use Rattle.std.specs.Prelude.{◌≡◌, ◌-◌};
ghost use Rattle.model.specs.Reading.{end_fits};
ghost use Rattle.node_test.specs.Test.{limit_of};

use model::id::RowID;

// Whether a branch may end so: at NONE, or off the right edge where the next entry begins.
#[tactic(auto, unfolding(model::specs::Reading::end_fits))]
pub fn end_fits(height: u64, next: Option<RowID>, end: RowID) -> bool
    ensures { result ≡ end_fits height (limit_of next) end.0 }
{
    if height == 0 {
        return true;
    }
    if end == RowID::NONE {
        return true;
    }
    next.is_some_and(|row| end == row)
}
