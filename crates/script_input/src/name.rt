// The names of the calls in a script's text, by the kind of their records.

ghost use Rattle.std.specs.Prelude.{◌≡◌, ◌≤◌, length};
ghost use Rattle.script_input.specs.Names.{name_of};

use std::fmt;

// The name of a kind of records, by its number, as the record's bytes have it and `name_of` does.
#[derive(Clone, Copy, Debug, PartialEq, Eq)]
pub struct Name(pub u64);

impl fmt::Display for Name {
    ghost use Rattle.std.specs.Prelude.{Some};
    ghost use Rattle.script_input.specs.Names.{name_of};

    ghost output = { λ kind. Some (name_of kind.0) };

    fn fmt<W: fmt::Write>(&self, f: &mut fmt::Formatter<W>) -> fmt::Result {
        f.write_str(name_text(self.0))
    }
}

// Nothing for another kind.
#[tactic(auto, unfolding(crate::specs::Names::name_of))]
fn name_text(kind: u64) -> &'static str
    ensures is { result.now ≡ name_of kind }
    ensures few { length result.now ≤ 7 }
{
    match kind {
        1 => "create",
        2 => "append",
        3 => "find",
        4 => "prune",
        5 => "walk",
        6 => "release",
        _ => "",
    }
}
