// What can be asked at the desk, and what it answers.
ghost use Rattle.std.specs.Prelude.{◌≡◌};
ghost use Rattle.commands.specs.declared.command.Refusal.TheVariants.{Refused};
ghost use Rattle.commands.specs.Stacks.{refusal_of};

use crate::layer::{NewLayer, Obstacle};
use pools::amounts::Amounts;
use pools::fault::PoolFault;

#[derive(Clone, Copy, PartialEq, Eq, Debug)]
pub enum Command {
    // Lay out a new site with these capacities; the former one is let go.
    Site(Amounts),
    Lay(NewLayer),
    Take(Amounts),
    GiveBack(Amounts),
    Fits(Amounts),
    Used,
}

// What was done, or the answer to a question.
#[derive(Clone, Copy, PartialEq, Eq, Debug)]
pub enum Answer {
    SiteLaidOut,
    LayerLaid(NewLayer),
    Taken,
    GivenBack,
    // The caller reads the used total from the session.
    UsedTotal,
    // Whether the demand fits.
    Fits(bool),
}

// Why a command is turned down.
#[derive(Clone, Copy, PartialEq, Eq, Debug)]
pub enum Refusal {
    // There is no site yet.
    NoSite,
    // There is no place for one layer more.
    NoPlace,
    Refused(PoolFault),
}

pub type Reply = Result<Answer, Refusal>;

impl From<PoolFault> for Refusal {
    ghost from_gives = { λ fault refusal. refusal ≡ Refused fault };

    fn from(fault: PoolFault) -> Refusal {
        Refusal::Refused(fault)
    }
}

impl From<Obstacle> for Refusal {
    ghost from_gives = { λ obstacle refusal. refusal ≡ refusal_of obstacle };

    fn from(obstacle: Obstacle) -> Refusal {
        match obstacle {
            Obstacle::NoPlace => Refusal::NoPlace,
            Obstacle::Refused(fault) => fault.into(),
        }
    }
}
