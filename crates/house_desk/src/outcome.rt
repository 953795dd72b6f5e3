// What comes of a line of a script.
use houses::command::{HouseCommand, HouseReply};
use scripts::mistake::Mistake;
use site_scripts::told::Told as SiteTold;

// Nothing where the line has no command.
pub type Outcome<'a> = Result<Option<Told>, Mistake<'a>>;

#[derive(Clone, Copy, PartialEq, Eq, Debug)]
pub enum Told {
    Site(SiteTold),
    House(HouseTold),
}

// A command about a house with its reply.
#[derive(Clone, Copy, PartialEq, Eq, Debug)]
pub struct HouseTold {
    pub command: HouseCommand,
    pub reply: HouseReply,
}
