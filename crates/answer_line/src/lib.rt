// The line of an answer, put into lent bytes.

#![tactic(auto)]

ghost use Rattle.std.specs.Prelude.{take};
ghost use Rattle.answer_numbers.specs.Numbers.{answer_of, five_of};
ghost use Rattle.script_text.specs.Lines.{Put, line};
ghost use Rattle.answer_line.specs.Answers.{answer_line};

use answer_numbers::{Numbers, Values};
use model::answer::Refusal;
use script_text::Lines;

// A word and the values.
fn put_values(out: &mut Lines<'_>, word: &[u8], n: Numbers)
    ensures { Put out.old (line word.now (take n.count (five_of n))) out.new }
{
    let count = n.values.len().min(n.count as usize);
    out.put_line(word, &n.values[..count]);
}

// The line of the answer that these numbers tell.
#[tactic(auto, using(crate::proofs::Lines::of_refusal, crate::proofs::Lines::of_none, crate::proofs::Lines::of_values))]
pub fn put_told(out: &mut Lines<'_>, given: &[u8], none: &[u8], n: Numbers)
    ensures { Put out.old (answer_line given.now none.now (answer_of n)) out.new }
{
    if n.number != 0 {
        return out.put_line(b"no", &[n.number, n.values[0]]);
    }
    if n.count == 0 {
        return out.put_line(none, &[]);
    }
    put_values(out, given, n);
}

// The word `given` and the values, the word `none` where there are none, or a refusal's line.
pub fn put_answer<T: Values>(
    out: &mut Lines<'_>,
    given: &[u8],
    none: &[u8],
    answer: Result<T, Refusal>,
)
    ensures { Put out.old (answer_line given.now none.now (T.told answer)) out.new }
{
    put_told(out, given, none, Numbers::from(answer));
}
