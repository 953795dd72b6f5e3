// Numbers in a script.
ghost use Rattle.std.specs.Prelude.{◌≡◌, ℕ, List, IfOk};
ghost use Rattle.std.specs.Borrow.{Bor};
ghost use Rattle.pools.specs.Totals.{total, of_array};
ghost use Rattle.site_scripts.specs.Numbers.{Writes, numbers};

use crate::mistake::{Mistake, TooLarge};
use pools::amounts::{Amounts, SUPPLIES};
use std::num::IntErrorKind;

pub fn amounts<'a>(words: &[&'a str]) -> Result<Amounts, Mistake<'a>>
    ensures numbers_in_order { IfOk result (λ a. ((d : Bor (List ℕ)) → total a ≡ numbers d words.now)) }
{
    let each = one_to_four(words)?;
    Ok(Amounts { each })
}

// One to four numbers, for supplies 0, 1 and so on; those left out are 0. A case for each count is plainer than a loop,
// which would test the count apart and need an invariant.
pub fn one_to_four<'a>(words: &[&'a str]) -> Result<[u32; SUPPLIES], Mistake<'a>>
    ensures numbers_in_order { IfOk result (λ each. ((d : Bor (List ℕ)) → of_array each ≡ numbers d words.now)) }
{
    match words {
        [] => Err(Mistake::NoNumbers),
        [a] => Ok([small_number(a)?, 0, 0, 0]),
        [a, b] => Ok([small_number(a)?, small_number(b)?, 0, 0]),
        [a, b, c] => Ok([small_number(a)?, small_number(b)?, small_number(c)?, 0]),
        [a, b, c, d] => Ok([
            small_number(a)?,
            small_number(b)?,
            small_number(c)?,
            small_number(d)?,
        ]),
        _ => Err(Mistake::TooManyNumbers),
    }
}

pub fn small_number<'a>(word: &'a str) -> Result<u32, Mistake<'a>>
    ensures has_the_value_of_its_digits { IfOk result (Writes word.now) }
{
    u32::try_from(number(word)?).map_err(|_| {
        Mistake::TooLarge(TooLarge {
            word,
            most: u32::MAX as u64,
        })
    })
}

// Decimal digits and nothing else.
pub fn number<'a>(word: &'a str) -> Result<u64, Mistake<'a>>
    ensures has_the_value_of_its_digits { IfOk result (Writes word.now) }
{
    // A number of the library may begin with a plus.
    if word.starts_with('+') {
        return Err(Mistake::NotANumber(word));
    }
    word.parse::<u64>().map_err(|error| match error.kind() {
        IntErrorKind::PosOverflow => Mistake::TooLarge(TooLarge {
            word,
            most: u64::MAX,
        }),
        _ => Mistake::NotANumber(word),
    })
}
