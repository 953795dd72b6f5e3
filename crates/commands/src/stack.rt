// A pool whose layers are chosen as the program runs.
ghost use Rattle.std.specs.Prelude.{◌≡◌, ℕ, ◌-◌, IfOk, IfErr};
ghost use Rattle.pools.specs.Totals.{total, nothing};
ghost use Rattle.pools.specs.Terms.{bench_terms};
ghost use Rattle.commands.specs.Stacks.{laid, lay_obstacle, obstacle_of};

use crate::layer::{NewLayer, NotLaid, Obstacle};
use pools::amounts::Amounts;
use pools::bench::Bench;
use pools::pool::Pool;

pub trait Stack: Pool + Sized {
    // How many layers can still be laid.
    ghost places: { Self → ℕ };

    // The places of a stack without layers.
    ghost depth: { ℕ };

    fn bare(capacity: Amounts) -> Self
        ensures permits_within_its_capacities { Self.Pool.terms result ≡ bench_terms (total capacity) }
        ensures starts_unused { Self.Pool.used result ≡ nothing }
        ensures has_every_place { places result ≡ depth };

    // Lays one layer more. A refusal hands the stack back.
    fn lay(self, layer: NewLayer) -> Result<Self, NotLaid<Self>>
        ensures refused_without_a_place_or_by_the_pool { obstacle_of result ≡ lay_obstacle (places self) (Self.Pool.terms self) (Self.Pool.used self) layer }
        ensures has_the_terms_of_the_layer { IfOk result (λ s. Self.Pool.terms s ≡ laid (Self.Pool.terms self) layer) }
        ensures starts_unused { IfOk result (λ s. Self.Pool.used s ≡ nothing) }
        ensures takes_one_place { IfOk result (λ s. places s ≡ places self - 1) }
        ensures refused_stack_comes_back { IfErr result (λ e. e.stack ≡ self) };
}

impl Stack for Bench {
    ghost places = { λ _. 0 };

    ghost depth = { 0 };

    fn bare(capacity: Amounts) -> Bench {
        Bench::new(capacity)
    }

    fn lay(self, _layer: NewLayer) -> Result<Bench, NotLaid<Bench>> {
        Err(NotLaid {
            obstacle: Obstacle::NoPlace,
            stack: self,
        })
    }
}
