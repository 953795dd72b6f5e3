// What is kept of a house's past: its commitment in each supply, and the tick at which it stood so.
ghost use Rattle.std.specs.Prelude.{ℕ, ◌^◌, ◌≤◌, slice_index};

use pools::amounts::SUPPLIES;

mod methods;

#[derive(Clone, Copy, PartialEq, Eq, Debug)]
pub struct PastRecord {
    pub(crate) commitments: [u32; SUPPLIES],
    pub(crate) stamp: u64,
    ghost no_commitment_above_the_whole: { (s : ℕ) → slice_index commitments s ≤ 1048576 },
    ghost stamped_on_the_clock: { stamp ≤ 2 ^ 62 },
}
