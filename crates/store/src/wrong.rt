// What is wrong with a line, and why a line is not done.

use crate::kind::Takes;
use std::{fmt, io};
use store_text::line::{Shown, TooLong};
use store_text::number::NumberError;

// Those with a name or a word say which.
#[derive(Clone, Copy, Debug, PartialEq, Eq)]
pub enum Wrong<'a> {
    LineTooLong,
    NoSuchName(&'a [u8]),
    Number(NumberError<'a>),
    Count {
        name: &'a [u8],
        found: usize,
        takes: Takes,
    },
    NoSuchWord,
    NoSuchNode,
    TooManyWords,
    TooLongList,
}

impl fmt::Display for Wrong<'_> {
    fn fmt<W: fmt::Write>(&self, f: &mut fmt::Formatter<W>) -> fmt::Result {
        match *self {
            Wrong::LineTooLong => write!(f, "longer than 65,535 bytes"),
            Wrong::NoSuchName(name) => write!(f, "no call has this name: {}", Shown(name)),
            Wrong::Number(NumberError::NoNumber(word)) => write!(f, "no number: {}", Shown(word)),
            Wrong::Number(NumberError::TooLarge(word)) => {
                write!(f, "no number below 2^64: {}", Shown(word))
            }
            Wrong::Count { name, found, takes } => {
                match takes {
                    Takes::Exactly(n) if found < n => {
                        write!(f, "too few numbers ({found}, wanted {n}): ")?;
                    }
                    Takes::Exactly(n) => write!(f, "too many numbers ({found}, wanted {n}): ")?,
                    Takes::AtLeast(n) => {
                        write!(f, "too few numbers ({found}, wanted {n} or more): ")?;
                    }
                    Takes::NoneOr(n) => {
                        write!(f, "wrong count of numbers ({found}, wanted none or {n}): ")?;
                    }
                }
                write!(f, "{}", Shown(name))
            }
            Wrong::NoSuchWord => write!(f, "no such word is lent"),
            Wrong::NoSuchNode => write!(f, "no such word of a node is lent"),
            Wrong::TooManyWords => write!(f, "the program has 65,536 words"),
            Wrong::TooLongList => write!(f, "the program has lists of 32,768"),
        }
    }
}

impl From<TooLong> for Wrong<'_> {
    fn from(_: TooLong) -> Self {
        Wrong::LineTooLong
    }
}

impl<'a> From<NumberError<'a>> for Wrong<'a> {
    fn from(error: NumberError<'a>) -> Self {
        Wrong::Number(error)
    }
}

// Why a line is not done: it is wrong, or what it answers cannot be written.
#[derive(Debug, Drop)]
pub enum Failure<'a> {
    Wrong(Wrong<'a>),
    Output(io::Error),
}

impl<'a> From<Wrong<'a>> for Failure<'a> {
    fn from(wrong: Wrong<'a>) -> Self {
        Failure::Wrong(wrong)
    }
}

impl From<io::Error> for Failure<'_> {
    fn from(error: io::Error) -> Self {
        Failure::Output(error)
    }
}
