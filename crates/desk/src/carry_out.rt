// A line of a script, carried out.
ghost use Rattle.std.specs.Prelude.{◌≡◌, None};
ghost use Rattle.commands.specs.Sessions.{known, free_places};
ghost use Rattle.site_scripts.specs.Lines.{known_after_line};
ghost use Rattle.desk.specs.Lines.{commanded, Tells};

use commands::command::Command;
use commands::session::Session;
use commands::stack::Stack;
use site_scripts::mistake::Mistake;
use site_scripts::told::Told;

// What comes of a line: nothing where it has no command.
pub type Outcome<'a> = Result<Option<Told>, Mistake<'a>>;

pub fn carry<'a, S: Stack + Drop>(
    session: &mut Session<S>,
    line: Result<Option<Command>, Mistake<'a>>,
) -> Outcome<'a>
    ensures moves_by_its_command_alone { known S.Pool session.new ≡ known_after_line (free_places S.Stack.places session.old) (known S.Pool session.old) (commanded line.entry) }
    ensures mistake_changes_nothing { commanded line.entry ≡ None → session.new ≡ session.old }
    ensures tells_what_was_done { Tells (free_places S.Stack.places session.old) (known S.Pool session.old) (known S.Pool session.new) line.entry result }
{
    // (Tried as `map`: the proof did not close, for what a closure did to the session.)
    let Some(command) = line? else {
        return Ok(None);
    };
    Ok(Some(Told::of(session, command)))
}
