// The rule of a load limit: weights and a limit, in range.
ghost use Rattle.std.specs.Prelude.{◌≡◌, true, nat_le};
ghost use Rattle.pools.specs.Totals.{of_array, total, is_within, load};
ghost use Rattle.pools.specs.Ranges.{max_weights};

use crate::amounts::{Amounts, SUPPLIES};

mod judged;

#[derive(Clone, Copy, PartialEq, Eq, Debug)]
pub struct LoadRule {
    weights: [u32; SUPPLIES],
    limit: u64,
    ghost weights_in_range: { is_within (of_array weights) max_weights ≡ true },
}

impl LoadRule {
    // Whether the load is at most the limit. Its four terms have at most 42 bits each, so that the sum cannot overflow.
    // (Tried as `zip`, `map` and `sum`: that the sum fits did not close.)
    pub fn allows(self, amounts: Amounts) -> bool
        ensures load_is_at_most_the_limit { result ≡ nat_le (load (of_array self.weights) (total amounts)) self.limit }
    {
        let load = self.weights[0] as u64 * amounts.each[0] as u64
            + self.weights[1] as u64 * amounts.each[1] as u64
            + self.weights[2] as u64 * amounts.each[2] as u64
            + self.weights[3] as u64 * amounts.each[3] as u64;
        load <= self.limit
    }
}
