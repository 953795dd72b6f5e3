// A layer that limits the load: weight times amount, added over the supplies.
ghost use Rattle.std.specs.Prelude.{◌≡◌, IfOk, IfErr};
ghost use Rattle.pools.specs.Totals.{of_array, nothing, is_within};
ghost use Rattle.pools.specs.Ranges.{in_range};
ghost use Rattle.pools.specs.Layers.{limit_terms, limit_meaning, layer_fault, fault_of};
ghost use Rattle.pools.specs.LayerLaws.{limit_zero, limit_downward, limit_bounded};

use crate::amounts::Amounts;
use crate::fault::PoolFault;
use crate::load_request::LoadRequest;
use crate::load_rule::LoadRule;
use crate::pool::Pool;
use crate::refused::RefusedLayer;

// The largest weight and the largest limit that a load limit may have.
pub const MAX_WEIGHT: u32 = 1_024;

pub const MAX_LIMIT: u64 = 1 << 40;

#[derive(Drop)]
pub struct LoadLimit<P: Pool> {
    below: P,
    rule: LoadRule,
}

impl<P: Pool> LoadLimit<P> {
    // Lays a load limit over a new pool. A refusal hands the pool back.
    pub fn over(below: P, asked: LoadRequest) -> Result<LoadLimit<P>, RefusedLayer<P>>
        ensures refused_if_out_of_range_or_the_pool_is_in_use { fault_of result ≡ layer_fault (in_range (of_array asked.weights) asked.limit) (is_within (P.Pool.used below) nothing) }
        ensures permits_up_to_the_limit { IfOk result (λ s. ⟦<LoadLimit<P> as Pool>⟧.terms s ≡ limit_terms (P.Pool.terms below) (of_array asked.weights) asked.limit) }
        ensures starts_unused { IfOk result (λ s. ⟦<LoadLimit<P> as Pool>⟧.used s ≡ nothing) }
        ensures refused_pool_comes_back { IfErr result (λ e. e.pool ≡ below) }
    {
        let judged = LoadRule::try_from(asked).and_then(|rule| below.check_unused().map(|()| rule));
        match judged {
            Ok(rule) => Ok(LoadLimit { below, rule }),
            Err(fault) => Err(RefusedLayer { fault, pool: below }),
        }
    }
}

impl<P: Pool> Pool for LoadLimit<P> {
    ghost terms = { λ s. limit_meaning P.Pool s };

    ghost used = { λ s. P.Pool.used s.below };

    ghost zero_is_permitted = { λ s. limit_zero (P.Pool.terms s.below).permitted (of_array s.rule.weights) s.rule.limit (P.Pool.zero_is_permitted s.below) };

    ghost smaller_is_permitted = { λ s. limit_downward _ _ _ (P.Pool.smaller_is_permitted s.below) };

    ghost permitted_is_within_capacity = { λ s. limit_bounded _ _ _ _ (P.Pool.permitted_is_within_capacity s.below) };

    ghost permitted_has_32_bits = { λ s. limit_bounded _ _ _ _ (P.Pool.permitted_has_32_bits s.below) };

    fn capacity(&self) -> Amounts {
        self.below.capacity()
    }

    fn used(&self) -> Amounts {
        self.below.used()
    }

    fn fits(&self, demand: Amounts) -> bool {
        self.below
            .used()
            .checked_add(demand)
            .is_some_and(|total| self.below.fits(demand) && self.rule.allows(total))
    }

    fn take(&mut self, demand: Amounts) -> Result<(), PoolFault> {
        if !self.fits(demand) {
            return Err(PoolFault::DoesNotFit);
        }
        self.below.take(demand)
    }

    fn give_back(&mut self, demand: Amounts) -> Result<(), PoolFault> {
        self.below.give_back(demand)
    }
}
