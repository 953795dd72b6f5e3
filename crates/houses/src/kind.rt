// The measures that can be chosen.
ghost use Rattle.std.specs.Prelude.{Some, codes};
ghost use Rattle.houses.specs.Kinds.{kind_word, Names};

use std::error::Error;
use std::fmt;
use std::str::FromStr;

#[derive(Clone, Copy, PartialEq, Eq, Debug)]
pub enum Kind {
    Stateful,
    Plain,
}

// A word that names no measure.
#[derive(Clone, Copy, PartialEq, Eq, Debug)]
pub struct UnknownKind;

impl FromStr for Kind {
    type Err = UnknownKind;

    ghost from_str_gives = { Names };

    fn from_str(word: &str) -> Result<Kind, UnknownKind> {
        match word {
            "stateful" => Ok(Kind::Stateful),
            "plain" => Ok(Kind::Plain),
            _ => Err(UnknownKind),
        }
    }
}

impl fmt::Display for Kind {
    ghost output = { λ kind. Some (kind_word kind) };

    fn fmt<W: fmt::Write>(&self, f: &mut fmt::Formatter<W>) -> fmt::Result {
        f.write_str(match self {
            Kind::Stateful => "stateful",
            Kind::Plain => "plain",
        })
    }
}

impl fmt::Display for UnknownKind {
    ghost output = { λ _. Some (codes "no measure has this name") };

    fn fmt<W: fmt::Write>(&self, f: &mut fmt::Formatter<W>) -> fmt::Result {
        write!(f, "no measure has this name")
    }
}

impl Error for UnknownKind {}
