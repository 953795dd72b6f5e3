// New past records, and what is read of one.
ghost use Rattle.std.specs.Prelude.{◌≡◌, ◌≤◌, slice_index};
ghost use Rattle.measures.specs.Records.{new_past};

use crate::past_record::PastRecord;
use pools::amounts::SUPPLIES;

impl PastRecord {
    // A record of nothing, at tick 0.
    pub fn new() -> PastRecord
        ensures starts_with_nothing_at_tick_zero { result ≡ new_past }
    {
        PastRecord {
            commitments: [0; SUPPLIES],
            stamp: 0,
        }
    }

    // The recorded commitment in a supply; 0 in one that there is none of.
    pub fn commitment(&self, supply: usize) -> u32
        ensures recorded_in_the_supply { result ≡ slice_index self.now.commitments supply }
        ensures at_most_the_whole { result ≤ 1048576 }
    {
        self.commitments.get(supply).copied().unwrap_or(0)
    }

    // The tick at which it was recorded.
    pub fn stamp(&self) -> u64
        ensures tick_of_the_record { result ≡ self.now.stamp }
    {
        self.stamp
    }
}
