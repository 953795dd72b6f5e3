// A line of a script, carried out.
ghost use Rattle.std.specs.Prelude.{◌≡◌, None, Ok, IfErr};
ghost use Rattle.commands.specs.Sessions.{known, free_places};
ghost use Rattle.houses.specs.Watches.{watched};
ghost use Rattle.site_scripts.specs.Lines.{known_after_line};
ghost use Rattle.house_desk.specs.Lines.{site_command, HouseAfterLine, Tells};

use crate::outcome::{HouseTold, Outcome, Told};
use commands::command::Answer;
use commands::session::Session;
use commands::stack::Stack;
use houses::watch::Watch;
use scripts::mistake::Mistake;
use scripts::request::Request;
use site_scripts::told::Told as SiteTold;
use std::alloc::Global;

// A site, and a house of it that is followed.
#[derive(Drop)]
pub struct HouseDesk<S: Stack> {
    pub session: Session<S>,
    pub watch: Watch,
}

impl<S: Stack + Drop> HouseDesk<S> {
    pub fn carry<'a>(
        &mut self,
        heap: Global,
        line: Result<Option<Request>, Mistake<'a>>,
    ) -> Outcome<'a>
        ensures moves_by_its_command_alone { known S.Pool self.new.session ≡ known_after_line (free_places S.Stack.places self.old.session) (known S.Pool self.old.session) (site_command line.entry) }
        ensures mistake_or_house_leaves_the_site { site_command line.entry ≡ None → self.new.session ≡ self.old.session }
        ensures mistake_changes_nothing { IfErr line.entry (λ mistake. self.new ≡ self.old) }
        ensures blank_line_changes_nothing { line.entry ≡ Ok None → self.new ≡ self.old }
        ensures house_moves_by_its_command_alone { HouseAfterLine (known S.Pool self.old.session) (watched self.old.watch) (watched self.new.watch) line.entry result }
        ensures tells_what_was_done { Tells (free_places S.Stack.places self.old.session) (known S.Pool self.old.session) (known S.Pool self.new.session) (watched self.old.watch) line.entry result }
    {
        // (Not `map`, which did not prove in the other desk: the proof does not see what a closure did to the site.)
        let Some(request) = line? else {
            return Ok(None);
        };
        match request {
            Request::Site(command) => {
                let told = SiteTold::of(&mut self.session, command);
                // The house goes with the site that it was at.
                if let Ok(Answer::SiteLaidOut) = told.reply {
                    self.watch.let_go();
                }
                Ok(Some(Told::Site(told)))
            }
            Request::House(command) => {
                let reply = self.watch.obey(heap, self.session.capacity(), command);
                Ok(Some(Told::House(HouseTold { command, reply })))
            }
        }
    }
}
