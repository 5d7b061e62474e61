// Lines of a reader, and their words.

ghost use Rattle.std.specs.Prelude.{◌≡◌, ◌≢◌, ◌≤◌, length, take, All, IfSome, IfOk};
ghost use Rattle.std.specs.Iterator.{at_most};

use std::fmt;
use std::io::BufRead;

// A line that has more bytes than there is room for.
#[derive(Clone, Copy, Debug, PartialEq, Eq)]
pub struct TooLong;

// The next line, without its end. None at the end of the input, and a read that fails is one too; what stands after the last line
// end is a line where it has bytes.
pub fn read_line<'a, R: BufRead>(
    reader: &mut R,
    buffer: &'a mut [u8],
) -> Option<Result<&'a [u8], TooLong>>
    ensures { IfSome result (λ read. IfOk read (λ line. length line.now ≤ length buffer.old)) }
{
    let mut len: usize = 0;
    for _ in 0..u64::MAX {
        let block = reader.fill_buf().unwrap_or(&[]);
        if block.is_empty() {
            if len == 0 {
                return None;
            }
            break;
        }
        let end = block.iter().position(|&byte| byte == b'\n');
        let part = &block[..end.unwrap_or(block.len())];
        put(buffer, len, part);
        len = len.saturating_add(part.len());
        let used = part.len() + usize::from(end.is_some());
        reader.consume(used);
        if end.is_some() {
            break;
        }
    }
    Some(buffer.get(..len).ok_or(TooLong))
}

// Bytes from a place on become these, where there is room for all of them.
fn put(buffer: &mut [u8], at: usize, bytes: &[u8]) {
    if let Some(rest) = buffer.get_mut(at..)
        && let Some(place) = rest.get_mut(..bytes.len())
    {
        place.copy_from_slice(bytes);
    }
}

// What stands before a comment.
pub fn before_comment(line: &[u8]) -> &[u8]
    ensures start { result.now ≡ take (length result.now) line.now }
    ensures no_mark { All (λ byte. byte ≢ 35) result.now }
{
    match line.iter().position(|&byte| byte == b'#') {
        Some(end) => &line[..end],
        None => line,
    }
}

fn is_space(byte: &u8) -> bool {
    matches!(*byte, b' ' | b'\t' | b'\r')
}

// The words of a line, which spaces divide.
#[derive(Clone, Copy, Debug)]
pub struct Words<'a>(pub &'a [u8]);

impl<'a> Iterator for Words<'a> {
    type Item = &'a [u8];

    ghost remaining = { λ s. at_most (length s.0.now) };

    fn next(&mut self) -> Option<&'a [u8]> {
        let from = self.0.iter().position(|byte| !is_space(byte))?;
        let rest = &self.0[from..];
        let to = rest.iter().position(is_space).unwrap_or(rest.len());
        self.0 = rest.get(to + 1..).unwrap_or(&[]);
        Some(&rest[..to])
    }
}

// A word in a message: its first 40 bytes, and two dots where it is longer. A byte that does not print is a `?`.
#[derive(Clone, Copy, Debug)]
pub struct Shown<'a>(pub &'a [u8]);

impl fmt::Display for Shown<'_> {
    fn fmt<W: fmt::Write>(&self, f: &mut fmt::Formatter<W>) -> fmt::Result {
        for &byte in self.0.iter().take(40) {
            let shown = if byte.is_ascii_graphic() { byte } else { b'?' };
            f.write_char(char::from(shown))?;
        }
        if 40 < self.0.len() {
            f.write_str("..")?;
        }
        Ok(())
    }
}
