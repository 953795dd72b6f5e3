// A place for one layer over a stack, filled or not.
ghost use Rattle.std.specs.Prelude.{◌≡◌, ℕ, suc, IfOk, IfErr, refl};
ghost use Rattle.pools.specs.Totals.{of_array, nothing};
ghost use Rattle.commands.specs.declared.slot.Slot.TheVariants.{Free, Reserve, LoadLimit};
ghost use Rattle.commands.specs.Stacks.{laid, pool_obstacle, obstacle_of};
ghost use Rattle.commands.specs.Slots.{slot_terms, slot_used, slot_places};
ghost use Rattle.pools.specs.LayerLaws.{limit_zero, reserve_downward, limit_downward, reserve_bounded, limit_bounded};

use crate::layer::{NewLayer, NotLaid, Obstacle};
use crate::stack::Stack;
use pools::amounts::Amounts;
use pools::fault::PoolFault;
use pools::load_limit::LoadLimit;
use pools::pool::Pool;
use pools::reserve::Reserve;

// The cases hold three types, and a `dyn` may not be handed out: so each call is a match over the three.
#[derive(Drop)]
pub enum Slot<P: Pool> {
    Free(P),
    Reserve(Reserve<P>),
    LoadLimit(LoadLimit<P>),
}

impl<P: Pool> Pool for Slot<P> {
    ghost terms = { λ s. slot_terms P.Pool s };

    ghost used = { λ s. slot_used P.Pool s };

    ghost zero_is_permitted = { elim [
      | Free p ↦ P.Pool.zero_is_permitted p
      | Reserve s ↦ refl
      | LoadLimit s ↦ limit_zero (P.Pool.terms s.below).permitted (of_array s.rule.weights) s.rule.limit (P.Pool.zero_is_permitted s.below)
    ] };

    ghost smaller_is_permitted = { elim [
      | Free p ↦ P.Pool.smaller_is_permitted p
      | Reserve s ↦ reserve_downward _ _ (P.Pool.smaller_is_permitted s.below)
      | LoadLimit s ↦ limit_downward _ _ _ (P.Pool.smaller_is_permitted s.below)
    ] };

    ghost permitted_is_within_capacity = { elim [
      | Free p ↦ P.Pool.permitted_is_within_capacity p
      | Reserve s ↦ reserve_bounded _ _ _ (P.Pool.permitted_is_within_capacity s.below)
      | LoadLimit s ↦ limit_bounded _ _ _ _ (P.Pool.permitted_is_within_capacity s.below)
    ] };

    ghost permitted_has_32_bits = { elim [
      | Free p ↦ P.Pool.permitted_has_32_bits p
      | Reserve s ↦ reserve_bounded _ _ _ (P.Pool.permitted_has_32_bits s.below)
      | LoadLimit s ↦ limit_bounded _ _ _ _ (P.Pool.permitted_has_32_bits s.below)
    ] };

    fn capacity(&self) -> Amounts {
        match self {
            Slot::Free(pool) => pool.capacity(),
            Slot::Reserve(pool) => pool.capacity(),
            Slot::LoadLimit(pool) => pool.capacity(),
        }
    }

    fn used(&self) -> Amounts {
        match self {
            Slot::Free(pool) => pool.used(),
            Slot::Reserve(pool) => pool.used(),
            Slot::LoadLimit(pool) => pool.used(),
        }
    }

    fn fits(&self, demand: Amounts) -> bool {
        match self {
            Slot::Free(pool) => pool.fits(demand),
            Slot::Reserve(pool) => pool.fits(demand),
            Slot::LoadLimit(pool) => pool.fits(demand),
        }
    }

    fn take(&mut self, demand: Amounts) -> Result<(), PoolFault> {
        match self {
            Slot::Free(pool) => pool.take(demand),
            Slot::Reserve(pool) => pool.take(demand),
            Slot::LoadLimit(pool) => pool.take(demand),
        }
    }

    fn give_back(&mut self, demand: Amounts) -> Result<(), PoolFault> {
        match self {
            Slot::Free(pool) => pool.give_back(demand),
            Slot::Reserve(pool) => pool.give_back(demand),
            Slot::LoadLimit(pool) => pool.give_back(demand),
        }
    }
}

// Lays a layer over a pool.
fn cover<P: Pool>(pool: P, layer: NewLayer) -> Result<Slot<P>, NotLaid<P>>
    ensures refused_by_the_pool { obstacle_of result ≡ pool_obstacle (P.Pool.terms pool) (P.Pool.used pool) layer }
    ensures has_the_terms_of_the_layer { IfOk result (λ s. slot_terms P.Pool s ≡ laid (P.Pool.terms pool) layer) }
    ensures starts_unused { IfOk result (λ s. slot_used P.Pool s ≡ nothing) }
    ensures fills_the_place { IfOk result (λ s. ((places : P → ℕ) → slot_places places s ≡ 0)) }
    ensures refused_pool_comes_back { IfErr result (λ e. e.stack ≡ pool) }
{
    match layer {
        NewLayer::Reserve(held) => Ok(Slot::Reserve(Reserve::over(pool, held)?)),
        NewLayer::LoadLimit(asked) => Ok(Slot::LoadLimit(LoadLimit::over(pool, asked)?)),
    }
}

impl<S> NotLaid<S> {
    // The same refusal, with what `f` makes of the stack.
    fn map<T, F: FnOnce(S) -> T>(self, f: F) -> NotLaid<T>
        requires takes_the_stack { F.pre f self.stack }
        ensures same_obstacle { result.obstacle ≡ self.obstacle }
        ensures made_of_the_stack { F.post f self.stack result.stack }
    {
        NotLaid {
            obstacle: self.obstacle,
            stack: f(self.stack),
        }
    }
}

impl<P: Stack> Stack for Slot<P> {
    ghost places = { λ s. slot_places P.Stack.places s };

    ghost depth = { suc P.Stack.depth };

    fn bare(capacity: Amounts) -> Slot<P> {
        Slot::Free(P::bare(capacity))
    }

    // The innermost free place is filled first.
    fn lay(self, layer: NewLayer) -> Result<Slot<P>, NotLaid<Slot<P>>> {
        let Slot::Free(below) = self else {
            return Err(NotLaid {
                obstacle: Obstacle::NoPlace,
                stack: self,
            });
        };
        // (A chain of `map`, `or_else` and `map_err` took up to half as long again: each step moves the whole stack.)
        match below.lay(layer) {
            Ok(laid) => Ok(Slot::Free(laid)),
            Err(
                NotLaid {
                    obstacle: Obstacle::NoPlace,
                    stack,
                },
            ) => cover(stack, layer).map_err(|refused| refused.map(Slot::Free)),
            Err(refused) => Err(refused.map(Slot::Free)),
        }
    }
}
