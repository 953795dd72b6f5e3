// Commitments after a number of ticks.
ghost use Rattle.std.specs.Prelude.{◌≡◌};
ghost use Rattle.measures.specs.Commitments.{commitment_after};

use crate::decay::{FULL_WEIGHT, weight_after};

// The commitment `elapsed` ticks after `recorded`, where `excess` stood since then.
pub fn commitment_after(elapsed: u64, recorded: u32, excess: u32) -> u32
    ensures recorded_fades_into_the_excess { result ≡ commitment_after elapsed recorded excess }
{
    let weight = weight_after(elapsed) as u64;
    let rest = FULL_WEIGHT as u64 - weight;
    ((weight * recorded as u64 + rest * excess as u64) / FULL_WEIGHT as u64) as u32
}
