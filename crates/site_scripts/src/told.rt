// What is told of a command.
ghost use Rattle.std.specs.Prelude.{◌≡◌, Some};
ghost use Rattle.commands.specs.Sessions.{known, free_places};
ghost use Rattle.site_scripts.specs.Lines.{known_after_line, TellsCommand};

use commands::command::{Answer, Command, Refusal, Reply};
use commands::layer::NewLayer;
use commands::session::{Session, Status};
use commands::stack::Stack;
use pools::amounts::SUPPLIES;
use pools::fault::PoolFault;
use std::fmt;

// A command with its reply, and how the site stands after it.
#[derive(Clone, Copy, PartialEq, Eq, Debug)]
pub struct Told {
    pub command: Command,
    pub reply: Reply,
    pub status: Status,
}

impl Told {
    // Has the command obeyed. (Both promises are of a call, as those of `carry` in each desk: no type holds them.)
    pub fn of<S: Stack + Drop>(session: &mut Session<S>, command: Command) -> Told
        ensures moves_by_its_command_alone { known S.Pool session.new ≡ known_after_line (free_places S.Stack.places session.old) (known S.Pool session.old) (Some command) }
        ensures tells_what_was_done { TellsCommand (free_places S.Stack.places session.old) (known S.Pool session.old) (known S.Pool session.new) command result }
    {
        let reply = session.obey(command);
        let status = session.status();
        Told {
            command,
            reply,
            status,
        }
    }
}

impl fmt::Display for Told {
    fn fmt<W: fmt::Write>(&self, f: &mut fmt::Formatter<W>) -> fmt::Result {
        let used = Four(self.status.used.each);
        let capacity = Four(self.status.capacity.each);
        match self.reply {
            Ok(Answer::SiteLaidOut) => write!(f, "site of {capacity}"),
            Ok(Answer::LayerLaid(NewLayer::Reserve(held))) => {
                write!(f, "reserve of {}", Four(held.each))
            }
            Ok(Answer::LayerLaid(NewLayer::LoadLimit(load))) => write!(
                f,
                "load limit of {} with weights {}",
                load.limit,
                Four(load.weights)
            ),
            Ok(Answer::Taken) => write!(f, "taken; in use {used}"),
            Ok(Answer::GivenBack) => write!(f, "given back; in use {used}"),
            Ok(Answer::UsedTotal) => write!(f, "in use {used} of {capacity}"),
            Ok(Answer::Fits(true)) => write!(f, "it fits"),
            Ok(Answer::Fits(false)) => write!(f, "it does not fit"),
            Err(Refusal::NoSite) => write!(f, "no site yet: begin with `site`"),
            Err(Refusal::NoPlace) => {
                write!(f, "no place for this layer: the desk lays at most four")
            }
            Err(Refusal::Refused(fault)) => write!(
                f,
                "refused with {}: {}",
                fault.number(),
                reason_of(fault, self.command)
            ),
        }
    }
}

// Why a command was refused, in words. (They hang on the command too, so they are no `Display` of the fault.)
fn reason_of(fault: PoolFault, command: Command) -> &'static str {
    match (fault, command) {
        (PoolFault::BadLayer, Command::Lay(NewLayer::Reserve(_))) => {
            "the reserve does not fit the site"
        }
        (PoolFault::BadLayer, _) => "a weight is above 1024 or the limit above 1099511627776",
        (PoolFault::MoreThanUsed, _) => "more is given back than is in use",
        (PoolFault::InUse, _) => "the site is in use; give everything back first",
        (PoolFault::DoesNotFit, _) => "the demand does not fit",
    }
}

// One number for each of the four supplies, with a space between.
#[derive(Clone, Copy, PartialEq, Eq, Debug)]
pub struct Four(pub [u32; SUPPLIES]);

impl fmt::Display for Four {
    fn fmt<W: fmt::Write>(&self, f: &mut fmt::Formatter<W>) -> fmt::Result {
        let [a, b, c, d] = self.0;
        write!(f, "{a} {b} {c} {d}")
    }
}
