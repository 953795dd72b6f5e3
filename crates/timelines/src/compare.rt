// Questions about accounts under any measure. The answers rest on the measure's laws alone. (Free functions: a struct
// of measure and account would be made for one call, and `agree` and `stays_below` look at two.)
ghost use Rattle.std.specs.Prelude.{◌≡◌, ℕ, ◌-◌, ◌^◌, ◌<◌, ◌≤◌, ◌==◌, nat_lt, true, is_some};
ghost use Rattle.std.specs.Option.{SomeIff};
ghost use Rattle.pools.specs.Totals.{total, plus, Within};
ghost use Rattle.measures.specs.declared.holding.Holding.{Holding};
ghost use Rattle.measures.specs.Clock.{Between};
ghost use Rattle.measures.specs.Holdings.{held, holding_of, max_held};
ghost use Rattle.measures.specs.Accounts.{with_holding, with_past};

use measures::account::Account;
use measures::dated_measure::DatedMeasure;
use measures::measure::{MAX_LEVEL, Measure};
use measures::past_record::PastRecord;
use pools::amounts::Amounts;

// How far the level is below the largest of any measure.
pub fn headroom<M: Measure>(measure: &M, account: &Account, tick: u64) -> u32
    ensures largest_level_less_the_level { result ≡ 8388608 - M.Measure.level measure.now account.now tick }
{
    MAX_LEVEL - measure.level(account, tick)
}

// How far the level rises with one task more, or none where the holding would pass 64 bits.
pub fn rise<M: Measure>(measure: &M, account: &Account, demand: Amounts, tick: u64) -> Option<u32>
    ensures level_with_the_task_less_the_level { SomeIff result (Within (plus (held account.now.holding) (total demand)) max_held) (M.Measure.level measure.now (with_holding account.now (holding_of (plus (held account.now.holding) (total demand)))) tick - M.Measure.level measure.now account.now tick) }
    ensures larger_holding_never_lowers_the_level { is_some result ≡ true → M.Measure.level measure.now account.now tick ≤ M.Measure.level measure.now (with_holding account.now (holding_of (plus (held account.now.holding) (total demand)))) tick }
{
    let holding = account.holding.checked_add(demand)?;
    let grown = Account {
        past: account.past,
        holding,
    };
    Some(measure.level(&grown, tick) - measure.level(account, tick))
}

// The account once its record is brought to the tick, as at a grant or a finish.
pub fn settled<M: Measure>(measure: &M, account: &Account, tick: u64) -> Account
    ensures record_is_brought { result ≡ with_past account.now (M.Measure.brought measure.now account.now tick) }
    ensures keeps_its_level { M.Measure.level measure.now result tick ≡ M.Measure.level measure.now account.now tick }
    ensures settling_again_changes_nothing { (h : Holding) → M.Measure.brought measure.now (with_holding result h) tick ≡ result.past }
{
    Account {
        past: measure.bring(account, tick),
        holding: account.holding,
    }
}

// Whether two measures over one site agree on an account: they always do.
pub fn agree<M: Measure>(one: &M, other: &M, account: &Account, tick: u64) -> bool
    ensures tells_whether_the_levels_are_equal { result ≡ (M.Measure.level one.now account.now tick == M.Measure.level other.now account.now tick) }
    ensures agree_over_one_site { M.Measure.site one.now ≡ M.Measure.site other.now → result ≡ true }
    ensures bring_alike_over_one_site { M.Measure.site one.now ≡ M.Measure.site other.now → M.Measure.brought one.now account.now tick ≡ M.Measure.brought other.now account.now tick }
{
    one.level(account, tick) == other.level(account, tick)
}

// The level at the end of the clock, and the record brought there. Any tick from 2^62 on gives the same.
pub fn at_the_end<M: Measure>(measure: &M, account: &Account) -> (u32, PastRecord)
    ensures level_at_the_last_tick { result.0 ≡ M.Measure.level measure.now account.now (2 ^ 62) }
    ensures record_at_the_last_tick { result.1 ≡ M.Measure.brought measure.now account.now (2 ^ 62) }
{
    (
        measure.level(account, u64::MAX),
        measure.bring(account, u64::MAX),
    )
}

// Whether one account stands below another at every tick between two.
pub fn stays_below<M: DatedMeasure>(
    measure: &M,
    below: &Account,
    above: &Account,
    one: u64,
    other: u64,
) -> bool
    ensures answers_by_the_bounds { result ≡ nat_lt (M.DatedMeasure.highest measure.now below.now one other) (M.DatedMeasure.lowest measure.now above.now one other) }
    ensures lower_at_every_tick_between { result ≡ true → (k : ℕ) → Between one other k → M.Measure.level measure.now below.now k < M.Measure.level measure.now above.now k }
{
    measure.highest(below, one, other) < measure.lowest(above, one, other)
}

// The lowest and the highest level from a tick to the end of the clock.
pub fn bounds_to_the_end<M: DatedMeasure>(measure: &M, account: &Account, tick: u64) -> (u32, u32)
    ensures lowest_to_the_last_tick { result.0 ≡ M.DatedMeasure.lowest measure.now account.now tick (2 ^ 62) }
    ensures highest_to_the_last_tick { result.1 ≡ M.DatedMeasure.highest measure.now account.now tick (2 ^ 62) }
{
    (
        measure.lowest(account, tick, u64::MAX),
        measure.highest(account, tick, u64::MAX),
    )
}
