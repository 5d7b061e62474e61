// The numbers of an answer as lent words.

#![tactic(auto)]

ghost use Rattle.std.specs.Prelude.{◌≡◌, set};
ghost use Rattle.answer_numbers.specs.Numbers.{words_of};
ghost use Rattle.answer_words.specs.Told.{Tells};

use answer_numbers::Numbers;

// Word i of a lent array, where there is one. Not by get_mut: after its borrow a proof knows no elements.
pub fn put(out: &mut [u64], i: usize, x: u64)
    ensures { out.new ≡ set out.old i x }
{
    if i < out.len() {
        out[i] = x;
    }
}

// The seven words, as far as they fit, and the number of the refusal, or 0.
pub fn tell(out: &mut [u64], n: Numbers) -> u64
    ensures { Tells out.old (words_of n) out.new result }
{
    let [first, second, third, fourth, fifth] = n.values;
    let words = [n.number, n.count, first, second, third, fourth, fifth];
    // no `copy_from_slice`: of a length that is not known it is a call of `memcpy`
    for i in 0..words.len() {
        put(out, i, words[i]);
    }
    n.number
}
