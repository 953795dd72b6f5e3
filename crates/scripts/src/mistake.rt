// Why a line is not understood, and how that is told.
ghost use Rattle.std.specs.Prelude.{◌≡◌};
ghost use Rattle.scripts.specs.declared.mistake.Mistake.TheVariants.{Site};

use crate::house_words::MOST_ROWS;
use site_scripts::mistake::Mistake as SiteMistake;
use std::fmt;

#[derive(Clone, Copy, PartialEq, Eq, Debug)]
pub enum Mistake<'a> {
    Site(SiteMistake<'a>),
    // `house` lacks its measure or its seats, or has more than these.
    NoMeasureAndSeats,
    UnknownMeasure(&'a str),
    // `at` lacks its tick or the word `hold`.
    NoTickAndHold,
    // `show` has neither a tick nor `TICK to TICK by TICKS`.
    NoTicks,
    // `curve` has not `TICK to TICK`.
    NoSpan,
    // The last tick is before the first.
    Backward,
    // A step of no ticks.
    NoStep,
    // More ticks than are shown at once.
    TooManyRows,
}

impl<'a> From<SiteMistake<'a>> for Mistake<'a> {
    ghost from_gives = { λ of_site mistake. mistake ≡ Site of_site };

    fn from(of_site: SiteMistake<'a>) -> Mistake<'a> {
        Mistake::Site(of_site)
    }
}

impl fmt::Display for Mistake<'_> {
    fn fmt<W: fmt::Write>(&self, f: &mut fmt::Formatter<W>) -> fmt::Result {
        match self {
            Mistake::Site(SiteMistake::UnknownCommand(word)) => write!(
                f,
                "there is no command {word:?}; there are site, reserve, limit, take, give, fits, used, house, at, show and curve"
            ),
            Mistake::Site(mistake) => write!(f, "{mistake}"),
            Mistake::NoMeasureAndSeats => write!(
                f,
                "write `house stateful SEATS` or `house plain SEATS`"
            ),
            Mistake::UnknownMeasure(word) => write!(
                f,
                "there is no measure {word:?}; there are stateful and plain"
            ),
            Mistake::NoTickAndHold => write!(f, "write `at TICK hold` and what is held"),
            Mistake::NoTicks => write!(f, "write `show TICK` or `show TICK to TICK by TICKS`"),
            Mistake::NoSpan => write!(f, "write `curve TICK to TICK`"),
            Mistake::Backward => write!(f, "the last tick is before the first"),
            Mistake::NoStep => write!(f, "a step has one tick at least"),
            Mistake::TooManyRows => write!(f, "that is more than {MOST_ROWS} ticks to show"),
        }
    }
}
