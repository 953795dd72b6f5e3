// How an account stands in each supply of a site.
ghost use Rattle.std.specs.Prelude.{◌≡◌, ℕ, ◌+◌, ◌≤◌, [], ◌∷◌, map, min, max, slice_index};
ghost use Rattle.std.specs.Option.{SomeIff, option_map};
ghost use Rattle.pools.specs.declared.amounts.Amounts.{Amounts};
ghost use Rattle.measures.specs.Clock.{on_clock};
ghost use Rattle.measures.specs.Sites.{made_of, share_in, part_due, excess_in, commitment_in};
ghost use Rattle.measures.specs.Records.{brought_to};
ghost use Rattle.measures.specs.Levels.{standing};

use crate::account::Account;
use crate::clock::on_clock;
use crate::commitment::commitment_after;
use crate::holding::Holding;
use crate::past_record::PastRecord;
use crate::share::{excess, share};
use crate::site::Site;
use pools::amounts::{Amounts, SUPPLIES};
use std::array;

impl Site {
    // A site that uses one to four supplies; none for any other number of them.
    pub fn new(capacity: Amounts, supplies: usize, part: u32) -> Option<Site>
        ensures made_exactly_with_one_to_four_supplies { SomeIff {T = Amounts × ℕ × ℕ} (option_map made_of result) ((1 ≤ supplies) × (supplies ≤ 4)) (capacity, supplies, part) }
    {
        if supplies < 1 || supplies > SUPPLIES {
            return None;
        }
        Some(Site {
            capacity,
            supplies,
            part,
        })
    }

    // How many supplies are in use: those numbered below this.
    pub fn supplies(&self) -> usize
        ensures supplies_in_use { result ≡ self.now.supplies }
        ensures at_most_four_supplies { result ≤ 4 }
    {
        self.supplies
    }

    // The part that is due to the house of an account: the same to each house, today. Nothing else reads it.
    pub fn part_due(&self, _account: &Account) -> u32
        ensures part_of_the_house { result ≡ part_due self.now _account.now }
    {
        self.part
    }

    // The share of a holding in a supply; 0 in one that is not in use.
    pub fn share(&self, holding: &Holding, supply: usize) -> u32
        ensures share_in_the_supply { result ≡ share_in self.now holding.now supply }
        ensures at_most_the_whole { result ≤ 1048576 }
    {
        if supply >= self.supplies {
            return 0;
        }
        share(holding.each[supply], self.capacity.each[supply])
    }

    // What the share has beyond the part that is due.
    pub fn excess(&self, account: &Account, supply: usize) -> u32
        ensures excess_in_the_supply { result ≡ excess_in self.now (part_due self.now account.now) account.now.holding supply }
    {
        excess(self.share(&account.holding, supply), self.part_due(account))
    }

    // The commitment at a tick, whatever the measure.
    pub fn commitment(&self, account: &Account, tick: u64, supply: usize) -> u32
        ensures commitment_at_the_tick { result ≡ commitment_in self.now (part_due self.now account.now) account.now tick supply }
        ensures at_most_the_whole { result ≤ 1048576 }
        ensures between_the_record_and_the_excess { (min (slice_index account.now.past.commitments supply) (excess_in self.now (part_due self.now account.now) account.now.holding supply) ≤ result) × (result ≤ max (slice_index account.now.past.commitments supply) (excess_in self.now (part_due self.now account.now) account.now.holding supply)) }
        ensures is_the_excess_after_1568_ticks { account.now.past.stamp + 1568 ≤ on_clock tick → result ≡ excess_in self.now (part_due self.now account.now) account.now.holding supply }
    {
        let elapsed = on_clock(tick).saturating_sub(account.past.stamp());
        let recorded = account.past.commitment(supply);
        commitment_after(elapsed, recorded, self.excess(account, supply))
    }

    // The record brought to a tick: the commitments there, stamped with it.
    pub fn bring(&self, account: &Account, tick: u64) -> PastRecord
        ensures commitments_at_the_tick_stamped_with_it { result ≡ brought_to self.now account.now tick }
    {
        PastRecord {
            commitments: self.commitments(account, tick),
            stamp: on_clock(tick),
        }
    }

    fn commitments(&self, account: &Account, tick: u64) -> [u32; SUPPLIES]
        ensures commitment_in_each_supply { result ≡ map (commitment_in self.now (part_due self.now account.now) account.now tick) (0 ∷ 1 ∷ 2 ∷ 3 ∷ []) }
    {
        array::from_fn(|supply| self.commitment(account, tick, supply))
    }

    // Share plus commitment at a tick.
    pub(crate) fn standing(&self, account: &Account, tick: u64, supply: usize) -> u32
        ensures share_plus_commitment { result ≡ standing self.now account.now tick supply }
    {
        self.share(&account.holding, supply) + self.commitment(account, tick, supply)
    }
}
