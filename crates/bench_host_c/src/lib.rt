// What the benchmarks call, as C functions: the functions of crates/bench_host under their own names, with the same promises.
// No part of the index.

#![tactic(auto)]

ghost use Rattle.std.specs.Prelude.{◌≡◌};
ghost use Rattle.model.specs.LeafWalk.{seek};
ghost use Rattle.next_words.specs.Written.{next_words_of};
ghost use Rattle.bench_host.specs.Numbers.{end_number, limit_to, open_number, survey_of, test_of};

// The header test alone: the number of nodes.
#[unsafe(no_mangle)]
pub extern "C" fn bench_open(words: &[u64]) -> u64
    ensures { result ≡ open_number words.now }
{
    bench_host::bench_open(words)
}

// The header test, and the node test of one node: the first of its child numbers out of range, or its count.
#[unsafe(no_mangle)]
pub extern "C" fn bench_test_node(
    words: &[u64],
    node: u64,
    height: u64,
    row: u64,
    bounded: u64,
    next: u64,
) -> u64
    ensures { result ≡ test_of words.now node height row (limit_to bounded next) }
{
    bench_host::bench_test_node(words, node, height, row, bounded, next)
}

// The header test, and a reading of the whole tree: its nodes.
#[unsafe(no_mangle)]
pub extern "C" fn bench_survey(words: &[u64], ends: u64) -> u64
    ensures { result ≡ survey_of words.now ends }
{
    bench_host::bench_survey(words, ends)
}

// One step of a leaf walk from a row, the records as words: the leaf's end.
#[unsafe(no_mangle)]
pub extern "C" fn bench_next(words: &[u64], row: u64, list: &mut [u64]) -> u64
    ensures number { result ≡ end_number (next_words_of words.now (seek row) list.old).answer }
    ensures list { list.new ≡ (next_words_of words.now (seek row) list.old).words }
{
    bench_host::bench_next(words, row, list)
}
