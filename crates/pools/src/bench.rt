// The pool that permits every total within its capacities.
ghost use Rattle.std.specs.Prelude.{◌≡◌, true};
ghost use Rattle.pools.specs.Totals.{total, nothing, is_within, max_amounts};
ghost use Rattle.pools.specs.Terms.{bench_terms};
ghost use Rattle.pools.specs.TotalLaws.{test_within, within_test, within_trans, nothing_within};

use crate::amounts::Amounts;
use crate::fault::PoolFault;
use crate::pool::Pool;

#[derive(Drop)]
pub struct Bench {
    capacity: Amounts,
    used: Amounts,
    ghost capacity_has_32_bits: { is_within (total capacity) max_amounts ≡ true },
}

impl Bench {
    // A new bench: nothing is in use. (Each maker of a pool says so of what it makes: use comes later, so no type can.)
    pub fn new(capacity: Amounts) -> Bench
        ensures permits_within_its_capacities { ⟦<Bench as Pool>⟧.terms result ≡ bench_terms (total capacity) }
        ensures starts_unused { ⟦<Bench as Pool>⟧.used result ≡ nothing }
    {
        Bench {
            capacity,
            used: Amounts::ZERO,
        }
    }
}

impl Pool for Bench {
    ghost terms = { λ b. bench_terms (total b.capacity) };

    ghost used = { λ b. total b.used };

    ghost zero_is_permitted = { λ b. within_test (nothing_within (total b.capacity)) };

    ghost smaller_is_permitted = { λ b t u w h. within_test (within_trans w (test_within h)) };

    ghost permitted_is_within_capacity = { λ b t h. test_within h };

    ghost permitted_has_32_bits = { λ b t h. within_trans (test_within h) (test_within b.capacity_has_32_bits) };

    fn capacity(&self) -> Amounts {
        self.capacity
    }

    fn used(&self) -> Amounts {
        self.used
    }

    fn fits(&self, demand: Amounts) -> bool {
        self.used
            .checked_add(demand)
            .is_some_and(|total| total.is_within(self.capacity))
    }

    fn take(&mut self, demand: Amounts) -> Result<(), PoolFault> {
        let total = self
            .used
            .checked_add(demand)
            .filter(|total| total.is_within(self.capacity));
        self.used = total.ok_or(PoolFault::DoesNotFit)?;
        Ok(())
    }

    fn give_back(&mut self, demand: Amounts) -> Result<(), PoolFault> {
        let rest = self.used.checked_sub(demand);
        self.used = rest.ok_or(PoolFault::MoreThanUsed)?;
        Ok(())
    }
}
