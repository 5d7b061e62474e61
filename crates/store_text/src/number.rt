// The numbers of a line.

ghost use Rattle.std.specs.Prelude.{◌≤◌, length, IfOk};

use crate::line::Words;
use std::str;

// A word that is no number below 2^64.
#[derive(Clone, Copy, Debug, PartialEq, Eq)]
pub enum NumberError<'a> {
    NoNumber(&'a [u8]),
    TooLarge(&'a [u8]),
}

// The number that a word of digits gives. A word with another byte is no number, however large.
fn read_number(word: &[u8]) -> Result<u64, NumberError<'_>> {
    if !word.iter().all(u8::is_ascii_digit) {
        return Err(NumberError::NoNumber(word));
    }
    let digits = str::from_utf8(word).map_err(|_| NumberError::NoNumber(word))?;
    digits.parse().map_err(|_| NumberError::TooLarge(word))
}

// The words as numbers: as many as there is room for.
pub fn read_numbers<'a, 'b>(
    words: Words<'a>,
    buffer: &'b mut [u64],
) -> Result<&'b [u64], NumberError<'a>>
    ensures { IfOk result (λ numbers. length numbers.now ≤ length buffer.old) }
{
    let mut count: usize = 0;
    for word in words {
        let number = read_number(word)?;
        let Some(place) = buffer.get_mut(count) else {
            break;
        };
        *place = number;
        count += 1;
    }
    Ok(&buffer[..count])
}

// How many numbers the words are, with those that no buffer has room for.
pub fn count_numbers(words: Words<'_>) -> Result<usize, NumberError<'_>>
    ensures { IfOk result (λ count. count ≤ length words.entry.0.now) }
{
    let mut count: usize = 0;
    for word in words {
        read_number(word)?;
        count += 1;
    }
    Ok(count)
}
