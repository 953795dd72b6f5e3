// The measure without a memory: the greatest share.
ghost use Rattle.measures.specs.Levels.{plain_level};
ghost use Rattle.measures.specs.LevelLaws.{plain_most, plain_grows};
ghost use Rattle.std.proofs.Common.{refl, ap};
ghost use Rattle.std.proofs.Math.Nat.{le_refl};

use crate::account::Account;
use crate::dated_measure::DatedMeasure;
use crate::greatest;
use crate::measure::Measure;
use crate::past_record::PastRecord;
use crate::site::Site;

#[derive(Clone, Copy, PartialEq, Eq, Debug)]
pub struct Plain {
    site: Site,
}

impl Measure for Plain {
    ghost site = { λ m. m.site };

    ghost level = { λ m a _. plain_level m.site a };

    ghost brought = { λ _ a _. a.past };

    ghost level_is_at_most_8388608 = { λ m a t. plain_most m.site a };

    ghost larger_holding_has_no_lower_level = { λ m a h t w. plain_grows m.site a h w };

    ghost bringing_leaves_the_level = { λ m a t. refl };

    ghost bringing_twice_is_bringing_once = { λ m a h t. refl };

    ghost level_stays_after_the_last_tick = { λ m a t. refl };

    ghost bringing_stays_after_the_last_tick = { λ m a t. refl };

    ghost site_fixes_the_level = { λ m n a t e. ap (λ g. plain_level g a) e };

    ghost site_fixes_the_bringing = { λ m n a t e. refl };

    fn over(terms: Site) -> Plain {
        Plain { site: terms }
    }

    // (The same getter as of the other measure: a trait cannot hold the field.)
    fn site(&self) -> Site {
        self.site
    }

    fn level(&self, account: &Account, _tick: u64) -> u32 {
        greatest(
            &self.site,
            |supply| self.site.share(&account.holding, supply),
        )
    }

    fn bring(&self, account: &Account, _tick: u64) -> PastRecord {
        account.past
    }
}

impl DatedMeasure for Plain {
    ghost lowest = { λ m a _ _. plain_level m.site a };

    ghost highest = { λ m a _ _. plain_level m.site a };

    ghost level_is_at_least_the_lowest = { λ m a t u k b. le_refl (plain_level m.site a) };

    ghost level_is_at_most_the_highest = { λ m a t u k b. le_refl (plain_level m.site a) };

    ghost lowest_stays_after_the_last_tick = { λ m a t u. refl };

    ghost highest_stays_after_the_last_tick = { λ m a t u. refl };

    fn lowest(&self, account: &Account, one: u64, _other: u64) -> u32 {
        self.level(account, one)
    }

    fn highest(&self, account: &Account, one: u64, _other: u64) -> u32 {
        self.level(account, one)
    }
}
