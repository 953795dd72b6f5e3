// What the desk prints.
ghost use Rattle.std.specs.Prelude.{IfOk};
ghost use Rattle.site_scripts.specs.Lines.{SaidOf};

use crate::house_page::house_text;
use crate::outcome::{Outcome, Told};
use houses::house::House;
use site_scripts::program::Said;
use std::alloc::{AllocError, Global};

// What is said of the line with this number, which may have several lines.
pub fn text_of(
    heap: Global,
    number: u64,
    outcome: Outcome<'_>,
    house: Option<&House>,
) -> Result<Said, AllocError>
    ensures error_for_a_mistake_and_nothing_for_a_blank_line { IfOk result (SaidOf outcome.entry) }
{
    Ok(match outcome {
        Ok(None) => Ok(None),
        Ok(Some(Told::Site(told))) => Ok(Some(format!(in heap; "{number}: {told}")?)),
        Ok(Some(Told::House(told))) => Ok(Some(house_text(heap, number, told, house)?)),
        Err(mistake) => Err(format!(in heap; "{number}: not understood: {mistake}")?),
    })
}
