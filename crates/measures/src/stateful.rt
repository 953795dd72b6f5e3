// The measure that remembers: the greatest of share plus commitment.
ghost use Rattle.measures.specs.Records.{brought_to};
ghost use Rattle.measures.specs.Levels.{stateful_level, stateful_lowest, stateful_highest};
ghost use Rattle.measures.specs.LevelLaws.{stateful_most, stateful_grows, stateful_brought, brought_once, stateful_clock, brought_clock, stateful_above, stateful_below, lowest_clock, highest_clock};
ghost use Rattle.std.proofs.Common.{ap};

use crate::account::Account;
use crate::dated_measure::DatedMeasure;
use crate::greatest;
use crate::measure::Measure;
use crate::past_record::PastRecord;
use crate::site::Site;

#[derive(Clone, Copy, PartialEq, Eq, Debug)]
pub struct Stateful {
    site: Site,
}

impl Measure for Stateful {
    ghost site = { λ m. m.site };

    ghost level = { λ m. stateful_level m.site };

    ghost brought = { λ m. brought_to m.site };

    ghost level_is_at_most_8388608 = { λ m. stateful_most m.site };

    ghost larger_holding_has_no_lower_level = { λ m. stateful_grows m.site };

    ghost bringing_leaves_the_level = { λ m. stateful_brought m.site };

    ghost bringing_twice_is_bringing_once = { λ m. brought_once m.site };

    ghost level_stays_after_the_last_tick = { λ m. stateful_clock m.site };

    ghost bringing_stays_after_the_last_tick = { λ m. brought_clock m.site };

    ghost site_fixes_the_level = { λ m n a t e. ap (λ g. stateful_level g a t) e };

    ghost site_fixes_the_bringing = { λ m n a t e. ap (λ g. brought_to g a t) e };

    fn over(terms: Site) -> Stateful {
        Stateful { site: terms }
    }

    fn site(&self) -> Site {
        self.site
    }

    fn level(&self, account: &Account, tick: u64) -> u32 {
        greatest(
            &self.site,
            |supply| self.site.standing(account, tick, supply),
        )
    }

    fn bring(&self, account: &Account, tick: u64) -> PastRecord {
        self.site.bring(account, tick)
    }
}

impl DatedMeasure for Stateful {
    ghost lowest = { λ m. stateful_lowest m.site };

    ghost highest = { λ m. stateful_highest m.site };

    ghost level_is_at_least_the_lowest = { λ m. stateful_above m.site };

    ghost level_is_at_most_the_highest = { λ m. stateful_below m.site };

    ghost lowest_stays_after_the_last_tick = { λ m. lowest_clock m.site };

    ghost highest_stays_after_the_last_tick = { λ m. highest_clock m.site };

    // (`highest` differs in the choice alone: as a closure of one function it would need a contract of its own, which is
    // no plainer.)
    fn lowest(&self, account: &Account, one: u64, other: u64) -> u32 {
        greatest(&self.site, |supply| {
            let commitment = self.site.commitment(account, one, supply);
            self.site.share(&account.holding, supply)
                + commitment.min(self.site.commitment(account, other, supply))
        })
    }

    fn highest(&self, account: &Account, one: u64, other: u64) -> u32 {
        greatest(&self.site, |supply| {
            let commitment = self.site.commitment(account, one, supply);
            self.site.share(&account.holding, supply)
                + commitment.max(self.site.commitment(account, other, supply))
        })
    }
}
