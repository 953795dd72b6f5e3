// What a measure knows of a site.
ghost use Rattle.std.specs.Prelude.{◌≤◌};

use pools::amounts::Amounts;

mod standing;

// The capacities, how many supplies are in use, and the part that is due to each house.
#[derive(Clone, Copy, PartialEq, Eq, Debug)]
pub struct Site {
    capacity: Amounts,
    supplies: usize,
    part: u32,
    ghost at_most_four_supplies: { supplies ≤ 4 },
}
