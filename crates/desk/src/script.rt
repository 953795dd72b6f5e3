// One line of a script, read as a command.
ghost use Rattle.std.specs.Prelude.{IfOk};
ghost use Rattle.site_scripts.specs.Words.{Asks, Reads, SaysSite, name_of_site};

use commands::command::Command;
use site_scripts::mistake::Mistake;
use site_scripts::site_words::site_command;
use site_scripts::words::words_of;
use std::alloc::{AllocError, Global};

// The command of a line; none where it has no word before a `#`. (Reading of requests in scripts is alike: one for both
// would be public and take the reader of a name as a closure, of which no public function asks anything.)
pub fn read<'a>(
    heap: Global,
    line: &'a [u8],
) -> Result<Result<Option<Command>, Mistake<'a>>, AllocError> {
    Ok(words_of(heap, line)?.and_then(|words| parse(words.as_slice())))
}

fn parse<'a>(words: &[&'a str]) -> Result<Option<Command>, Mistake<'a>>
    ensures command_is_what_the_words_say { Reads name_of_site SaysSite words.now result }
{
    match words {
        [] => Ok(None),
        [name, rest @ ..] => Ok(Some(command(name, rest)?)),
    }
}

// The command with this name, from the words after it: at this desk, one about the site. (Apart, so that a must-fail
// edit can mistake one name alone.)
fn command<'a>(name: &'a str, rest: &[&'a str]) -> Result<Command, Mistake<'a>>
    ensures command_is_what_the_words_say { IfOk result (Asks name_of_site SaysSite name.now rest.now) }
{
    site_command(name, rest)
}
