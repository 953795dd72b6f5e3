// Holdings as sums of demands.
ghost use Rattle.std.specs.Prelude.{◌≡◌};
ghost use Rattle.std.specs.Option.{SomeIff};
ghost use Rattle.pools.specs.Totals.{total, plus, minus, Within};
ghost use Rattle.pools.specs.Rows.{AskedInEach};
ghost use Rattle.measures.specs.Holdings.{held, holding_of, max_held};

use crate::holding::Holding;
use pools::amounts::{Amounts, SUPPLIES};

// The holding of one task.
impl From<Amounts> for Holding {
    ghost from_gives = { λ demand h. h ≡ holding_of (total demand) };

    fn from(demand: Amounts) -> Holding {
        let each = demand.each.map(|amount| amount as u64);
        Holding { each }
    }
}

impl Holding {
    // With one task more, or none where some amount would pass 64 bits.
    pub fn checked_add(self, demand: Amounts) -> Option<Holding>
        ensures sum_if_64_bits { SomeIff result (Within (plus (held self) (total demand)) max_held) (holding_of (plus (held self) (total demand))) }
    {
        let each = zip_each(self.each, demand.each, |held, amount| {
            held.checked_add(amount as u64)
        })?;
        Some(Holding { each })
    }

    // With one task less, or none where some amount is smaller than the demand's.
    pub fn checked_sub(self, demand: Amounts) -> Option<Holding>
        ensures difference_if_enough { SomeIff result (Within (total demand) (held self)) (holding_of (minus (held self) (total demand))) }
    {
        let each = zip_each(self.each, demand.each, |held, amount| {
            held.checked_sub(amount as u64)
        })?;
        Some(Holding { each })
    }
}

// Puts what is held and the demand of each supply together; none where that gives none in some supply.
// (A twin of the one in pools, where `array::try_from_fn` was tried and did not prove: one for both would be public, and
// no public function may ask anything of a closure.)
fn zip_each<F: Fn(u64, u32) -> Option<u64>>(
    held: [u64; SUPPLIES],
    demand: [u32; SUPPLIES],
    of: F,
) -> Option<[u64; SUPPLIES]>
    requires asked_of_any_two { F.IsAlwaysCallable of }
    ensures asked_in_each_supply { AskedInEach (F.post of) held demand result }
{
    Some([
        of(held[0], demand[0])?,
        of(held[1], demand[1])?,
        of(held[2], demand[2])?,
        of(held[3], demand[3])?,
    ])
}
