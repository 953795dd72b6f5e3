// What can be asked about a house, and what is answered.
ghost use Rattle.std.specs.Prelude.{◌≡◌, Some};
ghost use Rattle.houses.specs.declared.command.HouseRefusal.TheVariants as refusal;
ghost use Rattle.houses.specs.Refusals.{refusal_words};

use crate::kind::Kind;
use pools::amounts::Amounts;
use std::error::Error;
use std::fmt;
use timelines::span::Span;
use timelines::timeline::NotHeld;

#[derive(Clone, Copy, PartialEq, Eq, Debug)]
pub enum HouseCommand {
    // Follow a new house of the site, under this measure, one of so many; the former one is let go.
    Follow(Kind, u32),
    // From the tick on it holds these amounts.
    Hold(u64, Amounts),
    Show(Ticks),
    Curve(Span),
}

// The ticks of a span that are shown: the first, and every so many ticks after it.
#[derive(Clone, Copy, PartialEq, Eq, Debug)]
pub struct Ticks {
    pub span: Span,
    pub step: u64,
}

// What a command did.
#[derive(Clone, Copy, PartialEq, Eq, Debug)]
pub enum HouseAnswer {
    Followed,
    Held,
    // The answer to a question: the caller reads the house.
    Shown,
}

// Why a command did nothing.
#[derive(Clone, Copy, PartialEq, Eq, Debug)]
pub enum HouseRefusal {
    // There is no site yet.
    NoSite,
    // A house cannot be one of none.
    NoSeats,
    // No house is followed yet.
    NoHouse,
    // The change was not noted.
    NotHeld(NotHeld),
}

impl From<NotHeld> for HouseRefusal {
    ghost from_gives = { λ reason given. given ≡ refusal.NotHeld reason };

    fn from(reason: NotHeld) -> Self {
        Self::NotHeld(reason)
    }
}

impl fmt::Display for HouseRefusal {
    ghost output = { λ refusal. Some (refusal_words refusal) };

    fn fmt<W: fmt::Write>(&self, f: &mut fmt::Formatter<W>) -> fmt::Result {
        match self {
            HouseRefusal::NoSite => write!(f, "no site yet: begin with `site`"),
            HouseRefusal::NoSeats => write!(f, "turned down: a house is one of one or more"),
            HouseRefusal::NoHouse => write!(f, "no house yet: begin with `house`"),
            HouseRefusal::NotHeld(reason) => write!(f, "turned down: {reason}"),
        }
    }
}

impl Error for HouseRefusal {}

pub type HouseReply = Result<HouseAnswer, HouseRefusal>;
