// What each command does to the desk's state.
ghost use Rattle.std.specs.Prelude.{◌≡◌, true, None};
ghost use Rattle.std.specs.Option.{option_map};
ghost use Rattle.pools.specs.Totals.{total};
ghost use Rattle.commands.specs.SiteStates.{SiteState, PermittedUse};
ghost use Rattle.commands.specs.Sessions.{known, free_places, reply_to, known_after, leaves, PlacesAfter, used_now, capacity_now};

use crate::command::{Answer, Command, Refusal, Reply};
use crate::session::{Session, Status};
use crate::stack::Stack;
use pools::amounts::Amounts;

impl<S: Stack + Drop> Session<S> {
    pub fn new() -> Session<S>
        ensures starts_without_a_site { known S.Pool result ≡ None }
        ensures starts_with_permitted_use { PermittedUse (known S.Pool result) }
    {
        Session { site: None }
    }

    pub fn obey(&mut self, command: Command) -> Reply
        ensures replies_by_the_rules { result ≡ reply_to (free_places S.Stack.places self.old) (known S.Pool self.old) command }
        ensures moves_by_the_rules { known S.Pool self.new ≡ known_after (known S.Pool self.old) command result }
        ensures layers_take_places { PlacesAfter S.Stack.depth (free_places S.Stack.places self.old) (free_places S.Stack.places self.new) command result }
        ensures use_stays_permitted { PermittedUse (known S.Pool self.new) }
        ensures question_or_refusal_changes_nothing { leaves result ≡ true → self.new ≡ self.old }
    {
        match command {
            Command::Site(capacity) => {
                self.site = Some(S::bare(capacity));
                Ok(Answer::SiteLaidOut)
            }
            Command::Lay(layer) => {
                let site = self.site.take().ok_or(Refusal::NoSite)?;
                match site.lay(layer) {
                    Ok(laid) => {
                        self.site = Some(laid);
                        Ok(Answer::LayerLaid(layer))
                    }
                    // The site is put back as it was.
                    Err(refused) => {
                        self.site = Some(refused.stack);
                        Err(refused.obstacle.into())
                    }
                }
            }
            Command::Take(demand) => {
                let taken = self.site.as_mut().ok_or(Refusal::NoSite)?.take(demand);
                taken?;
                Ok(Answer::Taken)
            }
            Command::GiveBack(demand) => {
                self.site
                    .as_mut()
                    .ok_or(Refusal::NoSite)?
                    .give_back(demand)?;
                Ok(Answer::GivenBack)
            }
            Command::Fits(demand) => {
                let site = self.site.as_ref().ok_or(Refusal::NoSite)?;
                Ok(Answer::Fits(site.fits(demand)))
            }
            Command::Used => {
                self.site.as_ref().ok_or(Refusal::NoSite)?;
                Ok(Answer::UsedTotal)
            }
        }
    }

    pub fn status(&self) -> Status
        ensures used_total { total result.used ≡ used_now (known S.Pool self.now) }
        ensures capacity_of_terms { total result.capacity ≡ capacity_now (known S.Pool self.now) }
    {
        self.site.as_ref().map_or(
            Status {
                used: Amounts::ZERO,
                capacity: Amounts::ZERO,
            },
            |site| Status {
                used: site.used(),
                capacity: site.capacity(),
            },
        )
    }

    // The capacity of the site, if there is one.
    pub fn capacity(&self) -> Option<Amounts>
        ensures capacity_of_the_site_if_any { option_map total result ≡ option_map (λ (k : SiteState). k.terms.capacity) (known S.Pool self.now) }
    {
        self.site.as_ref().map(|site| site.capacity())
    }
}
