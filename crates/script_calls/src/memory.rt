// The memory of a script.

ghost use Rattle.std.specs.Prelude.{◌≤◌, length};

// All words, and how many of them a call other than create gets.
#[derive(Drop)]
pub struct Memory<'a> {
    pub words: &'a mut [u64],
    pub used: usize,
    ghost in_words: { used ≤ length words.now },
}
