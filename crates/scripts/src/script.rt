// One line of a script, read as a request.
ghost use Rattle.std.specs.Prelude.{IfOk};
ghost use Rattle.site_scripts.specs.Words.{Asks, Reads};
ghost use Rattle.scripts.specs.Words.{name_of, SaysRest};

use crate::house_words::{change, curve, follow, show};
use crate::mistake::Mistake;
use crate::request::Request;
use site_scripts::site_words::site_command;
use site_scripts::words::words_of;
use std::alloc::{AllocError, Global};

// The request of a line; none where it has no word before a `#`.
pub fn read<'a>(
    heap: Global,
    line: &'a [u8],
) -> Result<Result<Option<Request>, Mistake<'a>>, AllocError> {
    Ok(
        words_of(heap, line)?
            .map_err(Mistake::Site)
            .and_then(|words| parse(words.as_slice())),
    )
}

fn parse<'a>(words: &[&'a str]) -> Result<Option<Request>, Mistake<'a>>
    ensures request_is_what_the_words_say { Reads name_of SaysRest words.now result }
{
    match words {
        [] => Ok(None),
        [name, rest @ ..] => Ok(Some(request(name, rest)?)),
    }
}

// The request with this name, from the words after it.
fn request<'a>(name: &'a str, rest: &[&'a str]) -> Result<Request, Mistake<'a>>
    ensures request_is_what_the_words_say { IfOk result (Asks name_of SaysRest name.now rest.now) }
{
    match name {
        "house" => Ok(Request::House(follow(rest)?)),
        "at" => Ok(Request::House(change(rest)?)),
        "show" => Ok(Request::House(show(rest)?)),
        "curve" => Ok(Request::House(curve(rest)?)),
        _ => Ok(Request::Site(site_command(name, rest)?)),
    }
}
