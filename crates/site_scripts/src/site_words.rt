// Commands about the site.
ghost use Rattle.std.specs.Prelude.{◌≡◌, ℕ, List, length, IfOk, OnOk};
ghost use Rattle.std.specs.Borrow.{Bor};
ghost use Rattle.site_scripts.specs.Words.{SaysLoad, SaysSite, name_of_site, Asks};

use crate::mistake::Mistake;
use crate::numbers::{amounts, number, one_to_four};
use commands::command::Command;
use commands::layer::NewLayer;
use pools::load_request::LoadRequest;

// The command with this name, from the words after it.
pub fn site_command<'a>(name: &'a str, rest: &[&'a str]) -> Result<Command, Mistake<'a>>
    ensures command_is_what_the_words_say { IfOk result (Asks name_of_site SaysSite name.now rest.now) }
{
    match name {
        "site" => Ok(Command::Site(amounts(rest)?)),
        "reserve" => Ok(Command::Lay(NewLayer::Reserve(amounts(rest)?))),
        "limit" => Ok(Command::Lay(NewLayer::LoadLimit(load_request(rest)?))),
        "take" => Ok(Command::Take(amounts(rest)?)),
        "give" => Ok(Command::GiveBack(amounts(rest)?)),
        "fits" => Ok(Command::Fits(amounts(rest)?)),
        "used" => {
            nothing_more(rest)?;
            Ok(Command::Used)
        }
        _ => Err(Mistake::UnknownCommand(name)),
    }
}

fn nothing_more<'a>(words: &[&'a str]) -> Result<(), Mistake<'a>>
    ensures no_words_are_left { OnOk result (length words.now ≡ 0) }
{
    match words {
        [] => Ok(()),
        [more, ..] => Err(Mistake::Unexpected(more)),
    }
}

// The limit, the word `weights` and the weights.
fn load_request<'a>(words: &[&'a str]) -> Result<LoadRequest, Mistake<'a>>
    ensures load_is_what_the_words_say { IfOk result (λ l. ((d : Bor (List ℕ)) → SaysLoad d words.now l)) }
{
    match words {
        [limit, "weights", numbers @ ..] => Ok(LoadRequest {
            limit: number(limit)?,
            weights: one_to_four(numbers)?,
        }),
        _ => Err(Mistake::NoWeights),
    }
}
