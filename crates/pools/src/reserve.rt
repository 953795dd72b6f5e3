// A layer that keeps an amount of each supply of the pool below free.
ghost use Rattle.std.specs.Prelude.{◌≡◌, IfOk, IfErr, refl};
ghost use Rattle.pools.specs.Totals.{total, nothing, is_within};
ghost use Rattle.pools.specs.Terms.{admits};
ghost use Rattle.pools.specs.Layers.{reserve_terms, reserve_meaning, layer_fault, fault_of};
ghost use Rattle.pools.specs.LayerLaws.{reserve_downward, reserve_bounded};

use crate::amounts::Amounts;
use crate::fault::PoolFault;
use crate::pool::Pool;
use crate::refused::RefusedLayer;

#[derive(Drop)]
pub struct Reserve<P: Pool> {
    below: P,
    held: Amounts,
}

impl<P: Pool> Reserve<P> {
    // Lays a reserve over a new pool. A refusal hands the pool back.
    pub fn over(below: P, held: Amounts) -> Result<Reserve<P>, RefusedLayer<P>>
        ensures refused_if_it_does_not_fit_or_the_pool_is_in_use { fault_of result ≡ layer_fault (admits (P.Pool.terms below) (P.Pool.used below) (total held)) (is_within (P.Pool.used below) nothing) }
        ensures permits_what_fits_with_the_reserve { IfOk result (λ s. ⟦<Reserve<P> as Pool>⟧.terms s ≡ reserve_terms (P.Pool.terms below) (total held)) }
        ensures starts_unused { IfOk result (λ s. ⟦<Reserve<P> as Pool>⟧.used s ≡ nothing) }
        ensures refused_pool_comes_back { IfErr result (λ e. e.pool ≡ below) }
    {
        if !below.fits(held) {
            return Err(RefusedLayer {
                fault: PoolFault::BadLayer,
                pool: below,
            });
        }
        match below.check_unused() {
            Ok(()) => Ok(Reserve { below, held }),
            Err(fault) => Err(RefusedLayer { fault, pool: below }),
        }
    }
}

// (A load limit hands the same four calls on. They stay apart: what each kind of layer may get wrong in them is shown by
// must-fail edits that speak of that kind alone.)
impl<P: Pool> Pool for Reserve<P> {
    ghost terms = { λ s. reserve_meaning P.Pool s };

    ghost used = { λ s. P.Pool.used s.below };

    ghost zero_is_permitted = { λ s. refl };

    ghost smaller_is_permitted = { λ s. reserve_downward _ _ (P.Pool.smaller_is_permitted s.below) };

    ghost permitted_is_within_capacity = { λ s. reserve_bounded _ _ _ (P.Pool.permitted_is_within_capacity s.below) };

    ghost permitted_has_32_bits = { λ s. reserve_bounded _ _ _ (P.Pool.permitted_has_32_bits s.below) };

    fn capacity(&self) -> Amounts {
        self.below.capacity()
    }

    fn used(&self) -> Amounts {
        self.below.used()
    }

    fn fits(&self, demand: Amounts) -> bool {
        // The zero total is permitted by every pool, also by a reserve that does not fit below; none is made, but the
        // laws are owed of every value.
        if demand.is_zero() && self.below.used().is_zero() {
            return true;
        }
        // (Tried as `is_some_and`: the proof, which needs the two cases apart, did not close.)
        match demand.checked_add(self.held) {
            Some(both) => self.below.fits(both),
            None => false,
        }
    }

    fn take(&mut self, demand: Amounts) -> Result<(), PoolFault> {
        if !self.fits(demand) {
            return Err(PoolFault::DoesNotFit);
        }
        self.below.take(demand)
    }

    fn give_back(&mut self, demand: Amounts) -> Result<(), PoolFault> {
        self.below.give_back(demand)
    }
}
