// The desk's state: at most one site.
ghost use Rattle.commands.specs.SiteStates.{UseIsPermitted};

use crate::stack::Stack;
use pools::amounts::Amounts;

mod methods;

#[derive(Drop)]
pub struct Session<S: Stack> {
    site: Option<S>,
    ghost use_is_permitted: { UseIsPermitted S.Pool site },
}

// What is in use at a site, and its capacity; nothing of either where there is no site.
#[derive(Clone, Copy, PartialEq, Eq, Debug)]
pub struct Status {
    pub used: Amounts,
    pub capacity: Amounts,
}
