// Answers as numbers: `Numbers::from` of what a call gives, or of a refusal.

#![tactic(auto)]

ghost use Rattle.std.specs.Prelude.{◌≡◌, ◌≤◌, refl, Result, Ok, Err};
ghost use Rattle.model.specs.Refusals as A;
ghost use Rattle.model.specs.declared.answer.Refusal.{Refusal};
ghost use Rattle.answer_numbers.specs.Numbers.{Encodes};

use model::answer::{Leaf, Refusal, Released, RowPageIndexInsert, RowPagePrefixPrune, WellFormed};
use model::id::PageID;

// A refusal's number and its detail.
#[derive(Clone, Copy)]
pub struct Numbered(pub u64, pub u64);

impl From<Refusal> for Numbered {
    ghost from_gives = { λ r n. A.refusal r ≡ A.refused n.0 n.1 };

    fn from(r: Refusal) -> Numbered {
        match r {
            Refusal::BadParameters => Numbered(1, 0),
            Refusal::Unsound(node) => Numbered(2, node.0),
            Refusal::Closed => Numbered(3, 0),
            Refusal::RowLimit => Numbered(4, 0),
            Refusal::NoRoom(needed) => Numbered(5, needed),
            Refusal::HeightLimit => Numbered(6, 0),
            Refusal::NoPrefix => Numbered(7, 0),
            Refusal::StartDiffers(start) => Numbered(8, start.0),
            Refusal::PageDiffers(place) => Numbered(9, place),
            Refusal::EndDiffers(place) => Numbered(10, place),
            Refusal::ListTooLong(held) => Numbered(11, held),
            Refusal::RowBelowPivot(row) => Numbered(12, row.0),
            Refusal::ListTooShort(wanted) => Numbered(13, wanted),
        }
    }
}

// Seven words of an answer: number 0 and so many values, or a refusal's number and its detail as the only value.
#[derive(Clone, Copy)]
pub struct Numbers {
    pub number: u64,
    pub count: u64,
    pub values: [u64; 5],
}

impl Numbers {
    // Of at most five values.
    pub fn of<const N: usize>(list: [u64; N]) -> Numbers
        requires { N ≤ 5 }
        ensures { Encodes result (A.result list.entry) }
    {
        let mut values = [0; 5];
        values[..N].copy_from_slice(&list);
        Numbers {
            number: 0,
            count: N as u64,
            values,
        }
    }
}

impl From<Refusal> for Numbers {
    ghost from_gives = { λ r n. Encodes n (A.refusal r) };

    fn from(r: Refusal) -> Numbers {
        let Numbered(number, detail) = Numbered::from(r);
        Numbers {
            number,
            count: 1,
            values: [detail, 0, 0, 0, 0],
        }
    }
}

// What calls give that are not refused.
pub trait Values {
    // the answer, as specs/Refusals.antt of model has it
    ghost told: { Result Self Refusal → A.Answer };

    fn numbers(self) -> Numbers
        ensures { Encodes result (told (Ok self)) };

    ghost refuses: { (r : Refusal) → told (Err r) ≡ A.refusal r };
}

impl<T: Values> From<Result<T, Refusal>> for Numbers {
    ghost from_gives = { λ a n. Encodes n (T.told a) };

    fn from(a: Result<T, Refusal>) -> Numbers {
        match a {
            Ok(given) => given.numbers(),
            Err(r) => Numbers::from(r),
        }
    }
}

impl Values for () {
    ghost told = { A.created };

    fn numbers(self) -> Numbers {
        Numbers::of([])
    }

    ghost refuses = { λ r. refl };
}

impl Values for Option<PageID> {
    ghost told = { A.location };

    fn numbers(self) -> Numbers {
        match self {
            Some(page) => Numbers::of([page.0]),
            None => Numbers::of([]),
        }
    }

    ghost refuses = { λ r. refl };
}

impl Values for RowPageIndexInsert {
    ghost told = { A.inserted };

    fn numbers(self) -> Numbers {
        Numbers::of([self.start_row_id.0, self.end_row_id.0, self.taken_nodes])
    }

    ghost refuses = { λ r. refl };
}

impl Values for RowPagePrefixPrune {
    ghost told = { A.pruned };

    fn numbers(self) -> Numbers {
        Numbers::of([
            self.removed_entries,
            self.reclaimed_nodes,
            self.collapsed_levels,
        ])
    }

    ghost refuses = { λ r. refl };
}

impl Values for Option<Leaf> {
    ghost told = { A.next_leaf };

    fn numbers(self) -> Numbers {
        match self {
            Some(leaf) => Numbers::of([leaf.start_row_id.0, leaf.end_row_id.0, leaf.count]),
            None => Numbers::of([]),
        }
    }

    ghost refuses = { λ r. refl };
}

impl Values for Released {
    ghost told = { A.destroyed };

    fn numbers(self) -> Numbers {
        Numbers::of([self.nodes, self.pages])
    }

    ghost refuses = { λ r. refl };
}

impl Values for WellFormed {
    ghost told = { A.checked_answer };

    fn numbers(self) -> Numbers {
        Numbers::of([self.entries, self.nodes, self.free])
    }

    ghost refuses = { λ r. refl };
}
