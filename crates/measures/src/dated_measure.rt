// A measure that also tells bounds on the level over a stretch of ticks.
ghost use Rattle.std.specs.Prelude.{◌≡◌, ℕ, ◌≤◌};
ghost use Rattle.measures.specs.declared.account.Account.{Account};
ghost use Rattle.measures.specs.Clock.{on_clock, Between};

use crate::account::Account;
use crate::measure::Measure;

// The two ticks may come in either order, so they are no span.
pub trait DatedMeasure: Measure {
    ghost lowest: { Self → Account → ℕ → ℕ → ℕ };

    ghost highest: { Self → Account → ℕ → ℕ → ℕ };

    fn lowest(&self, account: &Account, one: u64, other: u64) -> u32
        ensures lowest_over_the_two_ticks { result ≡ lowest self.now account.now one other }
        ensures no_level_between_is_lower { (k : ℕ) → Between one other k → result ≤ Self.Measure.level self.now account.now k };

    fn highest(&self, account: &Account, one: u64, other: u64) -> u32
        ensures highest_over_the_two_ticks { result ≡ highest self.now account.now one other }
        ensures no_level_between_is_higher { (k : ℕ) → Between one other k → Self.Measure.level self.now account.now k ≤ result };

    ghost level_is_at_least_the_lowest: { (m : Self) (a : Account) (t u k : ℕ) → Between t u k → lowest m a t u ≤ Self.Measure.level m a k };

    ghost level_is_at_most_the_highest: { (m : Self) (a : Account) (t u k : ℕ) → Between t u k → Self.Measure.level m a k ≤ highest m a t u };

    ghost lowest_stays_after_the_last_tick: { (m : Self) (a : Account) (t u : ℕ) → lowest m a t u ≡ lowest m a (on_clock t) (on_clock u) };

    ghost highest_stays_after_the_last_tick: { (m : Self) (a : Account) (t u : ℕ) → highest m a t u ≡ highest m a (on_clock t) (on_clock u) };
}
