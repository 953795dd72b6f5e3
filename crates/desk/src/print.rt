// What the desk prints.
ghost use Rattle.std.specs.Prelude.{IfOk};
ghost use Rattle.site_scripts.specs.Lines.{SaidOf};

use crate::carry_out::Outcome;
use site_scripts::program::Said;
use std::alloc::{AllocError, Global};

// What is said of the line with this number. (The second desk's has another type of outcome and an arm more: one for
// both would be no plainer.)
pub fn text_of(heap: Global, number: u64, outcome: Outcome<'_>) -> Result<Said, AllocError>
    ensures error_for_a_mistake_and_nothing_for_a_blank_line { IfOk result (SaidOf outcome.entry) }
{
    Ok(match outcome {
        Ok(None) => Ok(None),
        Ok(Some(told)) => Ok(Some(format!(in heap; "{number}: {told}")?)),
        Err(mistake) => Err(format!(in heap; "{number}: not understood: {mistake}")?),
    })
}
