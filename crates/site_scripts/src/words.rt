// The words of a line.
ghost use Rattle.std.specs.Prelude.{◌≡◌, IfOk, MatchResult};
ghost use Rattle.std.specs.Str.{IsUtf8};

use crate::mistake::Mistake;
use std::alloc::{AllocError, Global};

// The words before a `#`.
pub fn words_of<'a>(
    heap: Global,
    line: &'a [u8],
) -> Result<Result<Vec<&'a str>, Mistake<'a>>, AllocError>
    ensures mistaken_exactly_when_not_text { IfOk result (λ cut. MatchResult cut (λ words. IsUtf8 line.now) (λ mistake. (mistake ≡ Mistake.NotText) × ¬ (IsUtf8 line.now))) }
{
    // (Not `?`: of the two errors it carries the outer one.)
    let Ok(text) = std::str::from_utf8(line) else {
        return Ok(Err(Mistake::NotText));
    };
    let code = text.split_once('#').map_or(text, |(code, _)| code);
    Ok(Ok(code.split_whitespace().collect(heap)?))
}
