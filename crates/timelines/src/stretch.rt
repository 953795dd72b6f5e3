// Parts of a timeline.
ghost use Rattle.std.specs.Prelude.{◌≡◌, ℕ, min, max};
ghost use Rattle.timelines.specs.Views.{Inside};

use crate::span::Span;
use measures::account::Account;
use pools::amounts::SUPPLIES;

// An account, and the tick from which on it is in force.
#[derive(Clone, Copy, PartialEq, Eq, Debug)]
pub struct Stretch {
    pub from: u64,
    pub account: Account,
}

// The account in force at some tick, and the last tick up to which it is known to stay in force.
#[derive(Clone, Copy, PartialEq, Eq, Debug)]
pub struct InForce {
    pub account: Account,
    pub until: u64,
}

// What is shown of a house in one supply.
#[derive(Clone, Copy, PartialEq, Eq, Debug)]
pub struct SupplyView {
    pub share: u32,
    pub excess: u32,
    pub commitment: u32,
}

// How a house stands at some tick: in each supply, and by its level.
#[derive(Clone, Copy, PartialEq, Eq, Debug)]
pub struct Snapshot {
    pub supplies: [SupplyView; SUPPLIES],
    pub level: u32,
}

// Bounds on a level.
#[derive(Clone, Copy, PartialEq, Eq, Debug)]
pub struct LevelRange {
    pub lowest: u32,
    pub highest: u32,
}

impl LevelRange {
    // The smallest range that has both within.
    pub(crate) fn join(self, other: LevelRange) -> LevelRange
        ensures has_both_within { ((n : ℕ) → Inside n self → Inside n result) × ((n : ℕ) → Inside n other → Inside n result) }
        ensures lowest_of_the_two { result.lowest ≡ min self.lowest other.lowest }
        ensures highest_of_the_two { result.highest ≡ max self.highest other.highest }
    {
        LevelRange {
            lowest: self.lowest.min(other.lowest),
            highest: self.highest.max(other.highest),
        }
    }
}

// Some ticks, and bounds on the level at each of them.
#[derive(Clone, Copy, PartialEq, Eq, Debug)]
pub struct Column {
    pub span: Span,
    pub range: LevelRange,
}
