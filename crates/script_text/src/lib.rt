// Lines of text in lent bytes.

#![tactic(auto)]

ghost use Rattle.std.specs.Prelude.{[], ◌∷◌, ◌^◌, ◌<◌, length};

// What fits is written, the rest of the bytes stay, and the place counts what did not fit too.
#[derive(Drop)]
pub struct Lines<'a> {
    pub bytes: &'a mut [u8],
    pub at: usize,
    ghost short: { length bytes.now < 2 ^ 64 },
}

impl Lines<'_> {
    ghost use Rattle.script_text.specs.Lines.{Put, Puts, decimal, line, numbers, newline, space};

    // One byte.
    #[tactic(auto, using(crate::proofs::Putting::one_in, crate::proofs::Putting::one_out))]
    pub fn put_byte(&mut self, byte: u8)
        ensures { Put self.old (byte ∷ []) self.new }
    {
        let at = self.at;
        self.at = at.saturating_add(1);
        if at < self.bytes.len() {
            self.bytes[at] = byte;
        }
    }

    #[tactic(auto, using(crate::proofs::Putting::none))]
    pub fn put_bytes(&mut self, bytes: &[u8])
        ensures { Put self.old bytes.now self.new }
    {
        for &byte in bytes {
            self.put_byte(byte);
        }
    }

    // The decimal digits of a number.
    pub fn put_decimal(&mut self, n: u64)
        ensures { Put self.old (decimal n) self.new }
    {
        let mut digits = [0u8; 20];
        let k = io::decimal(n, &mut digits);
        self.put_bytes(&digits[..k]);
    }

    // A number after a space.
    pub fn put_number(&mut self, n: u64)
        ensures { Put self.old (space ∷ decimal n) self.new }
    {
        self.put_byte(b' ');
        self.put_decimal(n);
    }

    // Each of these numbers after a space.
    #[tactic(auto, using(crate::proofs::Putting::none), unfolding(crate::specs::Lines::numbers))]
    pub fn put_numbers(&mut self, list: &[u64])
        ensures { Put self.old (numbers list.now) self.new }
    {
        for &n in list {
            self.put_number(n);
        }
    }

    // A line put at a place: the place after it. It goes by value and into no caller, so that this `Lines` and a caller's are
    // locals: behind a reference the place would be stored for each byte and read for the next.
    #[inline(never)]
    fn line_at(bytes: &mut [u8], at: usize, word: &[u8], list: &[u64]) -> usize
        ensures { Puts bytes.old at (line word.now list.now) bytes.new result }
    {
        let mut l = Lines { bytes, at };
        l.put_bytes(word);
        l.put_numbers(list);
        l.put_byte(b'\n');
        l.at
    }

    // A line of a word and these numbers.
    pub fn put_line(&mut self, word: &[u8], list: &[u64])
        ensures { Put self.old (line word.now list.now) self.new }
    {
        self.at = Self::line_at(self.bytes, self.at, word, list);
    }
}
