// Why a line is not understood, and how that is told.
use std::fmt;

#[derive(Clone, Copy, PartialEq, Eq, Debug)]
pub enum Mistake<'a> {
    NotText,
    UnknownCommand(&'a str),
    NoNumbers,
    TooManyNumbers,
    NotANumber(&'a str),
    TooLarge(TooLarge<'a>),
    // `limit` lacks its number or the word `weights`.
    NoWeights,
    // A word follows a command that stands alone.
    Unexpected(&'a str),
}

// A number, and the largest that may stand in its place.
#[derive(Clone, Copy, PartialEq, Eq, Debug)]
pub struct TooLarge<'a> {
    pub word: &'a str,
    pub most: u64,
}

impl fmt::Display for Mistake<'_> {
    fn fmt<W: fmt::Write>(&self, f: &mut fmt::Formatter<W>) -> fmt::Result {
        match self {
            Mistake::NotText => write!(f, "the line is not UTF-8 text"),
            Mistake::UnknownCommand(word) => write!(
                f,
                "there is no command {word:?}; there are site, reserve, limit, take, give, fits and used"
            ),
            Mistake::NoNumbers => write!(f, "one to four numbers are wanted"),
            Mistake::TooManyNumbers => write!(f, "there are more than four numbers"),
            Mistake::NotANumber(word) => write!(f, "{word:?} is not a decimal number"),
            Mistake::TooLarge(number) => write!(f, "{number}"),
            Mistake::NoWeights => write!(f, "write `limit NUMBER weights` and the weights"),
            Mistake::Unexpected(word) => write!(f, "{word:?} is not wanted here"),
        }
    }
}

impl fmt::Display for TooLarge<'_> {
    fn fmt<W: fmt::Write>(&self, f: &mut fmt::Formatter<W>) -> fmt::Result {
        write!(f, "{:?} is above {}", self.word, self.most)
    }
}
