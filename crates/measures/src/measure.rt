// What a measure is: a level for an account at a tick, and the past record brought to a tick.
ghost use Rattle.std.specs.Prelude.{◌≡◌, ℕ, ◌≤◌};
ghost use Rattle.pools.specs.Totals.{Within};
ghost use Rattle.measures.specs.declared.account.Account.{Account};
ghost use Rattle.measures.specs.declared.holding.Holding.{Holding};
ghost use Rattle.measures.specs.declared.past_record.PastRecord.{PastRecord};
ghost use Rattle.measures.specs.declared.site.Site.{Site};
ghost use Rattle.measures.specs.Clock.{on_clock};
ghost use Rattle.measures.specs.Holdings.{held};
ghost use Rattle.measures.specs.Accounts.{with_holding, with_past};

use crate::account::Account;
use crate::past_record::PastRecord;
use crate::site::Site;

// (Account and tick stay two parameters below: one account is asked about at many ticks.)

// The largest level of any measure.
pub const MAX_LEVEL: u32 = 8_388_608;

// A house with a lower level is served first. A measure is made over a site and by nothing else, so whoever makes one
// knows what it measures.
pub trait Measure: Sized {
    ghost site: { Self → Site };

    ghost level: { Self → Account → ℕ → ℕ };

    ghost brought: { Self → Account → ℕ → PastRecord };

    fn over(terms: Site) -> Self
        ensures measures_the_given_site { site result ≡ terms };

    fn site(&self) -> Site
        ensures site_that_it_measures { result ≡ site self.now };

    fn level(&self, account: &Account, tick: u64) -> u32
        ensures level_at_the_tick { result ≡ level self.now account.now tick };

    // The past record as it is once it was brought to the tick under the account's holding.
    fn bring(&self, account: &Account, tick: u64) -> PastRecord
        ensures record_brought_to_the_tick { result ≡ brought self.now account.now tick };

    ghost level_is_at_most_8388608: { (m : Self) (a : Account) (t : ℕ) → level m a t ≤ 8388608 };

    ghost larger_holding_has_no_lower_level: { (m : Self) (a : Account) (h : Holding) (t : ℕ) → Within (held a.holding) (held h) → level m a t ≤ level m (with_holding a h) t };

    ghost bringing_leaves_the_level: { (m : Self) (a : Account) (t : ℕ) → level m (with_past a (brought m a t)) t ≡ level m a t };

    ghost bringing_twice_is_bringing_once: { (m : Self) (a : Account) (h : Holding) (t : ℕ) → brought m (with_holding (with_past a (brought m a t)) h) t ≡ brought m a t };

    ghost level_stays_after_the_last_tick: { (m : Self) (a : Account) (t : ℕ) → level m a t ≡ level m a (on_clock t) };

    ghost bringing_stays_after_the_last_tick: { (m : Self) (a : Account) (t : ℕ) → brought m a t ≡ brought m a (on_clock t) };

    ghost site_fixes_the_level: { (m n : Self) (a : Account) (t : ℕ) → site m ≡ site n → level m a t ≡ level n a t };

    ghost site_fixes_the_bringing: { (m n : Self) (a : Account) (t : ℕ) → site m ≡ site n → brought m a t ≡ brought n a t };
}
