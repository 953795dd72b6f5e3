// A house that starts with nothing at tick 0, and whose holding changes at given ticks.
ghost use Rattle.std.specs.Prelude.{◌≡◌, ℕ, ◌<◌, ◌≤◌, [], ◌∷◌, ◌++◌, length, Some, is_ok, if◌then◌else◌};
ghost use Rattle.std.specs.List.{AllWithin};
ghost use Rattle.std.specs.List.Sorted.{IsNonDecreasingBy};
ghost use Rattle.timelines.specs.declared.stretch.Stretch.{Stretch};
ghost use Rattle.timelines.specs.declared.timeline.NotHeld.TheVariants.{NoMemory};
ghost use Rattle.measures.specs.Clock.{on_clock, Between};
ghost use Rattle.timelines.specs.Courses.{new_account, account_at, last_change, IsCut};
ghost use Rattle.timelines.specs.Changes.{change_at, Judged, not_held_words};
ghost use Rattle.timelines.specs.Views.{Shows, Inside, NoWider};

use crate::span::Span;
use crate::stretch::{InForce, LevelRange, Snapshot, Stretch, SupplyView};
use measures::account::Account;
use measures::clock::on_clock;
use measures::dated_measure::DatedMeasure;
use measures::holding::Holding;
use measures::measure::Measure;
use measures::past_record::PastRecord;
use pools::amounts::Amounts;
use std::alloc::{AllocFailed, Global};
use std::error::Error;
use std::{array, fmt};

#[derive(Drop)]
pub struct Timeline<M: Measure> {
    measure: M,
    stretches: Vec<Stretch>,
    ghost ticks_never_fall: { IsNonDecreasingBy (λ (s : Stretch). s.from) stretches.items },
}

// The account of a house that holds nothing and has no past.
pub fn new_account() -> Account
    ensures nothing_held_and_no_past { result ≡ new_account }
{
    Account {
        past: PastRecord::new(),
        holding: Holding::from(Amounts::ZERO),
    }
}

// Why a change was not noted.
#[derive(Clone, Copy, PartialEq, Eq, Debug)]
pub enum NotHeld {
    // It is earlier than the last change, at this tick.
    Earlier(u64),
    NoMemory,
}

impl fmt::Display for NotHeld {
    ghost output = { λ reason. Some (not_held_words reason) };

    fn fmt<W: fmt::Write>(&self, f: &mut fmt::Formatter<W>) -> fmt::Result {
        match self {
            NotHeld::Earlier(last) => write!(f, "the last change is at tick {last}"),
            NotHeld::NoMemory => write!(f, "no memory is left"),
        }
    }
}

impl Error for NotHeld {}

impl<T: Drop> From<AllocFailed<T>> for NotHeld {
    ghost from_gives = { λ _ reason. reason ≡ NoMemory };

    fn from(_failed: AllocFailed<T>) -> Self {
        Self::NoMemory
    }
}

impl<M: Measure> Timeline<M> {
    pub fn new(heap: Global, measure: M) -> Timeline<M>
        ensures starts_without_a_change { result.stretches.items ≡ [] }
        ensures keeps_the_measure { result.measure ≡ measure }
    {
        Timeline {
            measure,
            stretches: Vec::new(heap),
        }
    }

    pub fn measure(&self) -> &M
        ensures lends_the_measure { result.now ≡ self.now.measure }
    {
        &self.measure
    }

    // The tick of the last change, 0 before any.
    pub fn last_change(&self) -> u64
        ensures tick_of_the_last_change { result ≡ last_change self.now.stretches.items }
    {
        self.stretches.last().map_or(0, |stretch| stretch.from)
    }

    // From the tick on the house holds this. Its record is brought to the tick with what it held before.
    pub fn hold(&mut self, tick: u64, holding: Holding) -> Result<(), NotHeld>
        ensures notes_the_change { self.new.stretches.items ≡ (if is_ok result then self.old.stretches.items ++ change_at (M.Measure.brought self.old.measure) self.old.stretches.items tick holding ∷ [] else self.old.stretches.items) }
        ensures refused_if_earlier_than_the_last_change { Judged (last_change self.old.stretches.items) (on_clock tick) result }
        ensures keeps_the_measure { self.new.measure ≡ self.old.measure }
    {
        let from = on_clock(tick);
        let last = self.last_change();
        if from < last {
            return Err(NotHeld::Earlier(last));
        }
        // All changes so far have begun by then, so the last one is in force.
        let before = self
            .stretches
            .last()
            .map_or(new_account(), |stretch| stretch.account);
        let account = Account {
            past: self.measure.bring(&before, from),
            holding,
        };
        self.stretches.push(Stretch { from, account })?;
        Ok(())
    }

    // The account in force at a tick.
    pub fn in_force(&self, tick: u64) -> InForce
        ensures account_at_the_tick { result.account ≡ account_at self.now.stretches.items tick }
        ensures stays_until { (k : ℕ) → tick ≤ k → k ≤ result.until → account_at self.now.stretches.items k ≡ result.account }
        ensures reaches_the_tick { tick ≤ result.until }
    {
        let (begun, later) = self.cut_at(tick);
        InForce {
            account: begun
                .last()
                .map_or(new_account(), |stretch| stretch.account),
            until: later.first().map_or(u64::MAX, |stretch| stretch.from - 1),
        }
    }

    // The stretches that have begun by a tick, and those that have not.
    fn cut_at(&self, tick: u64) -> (&[Stretch], &[Stretch])
        ensures begun_and_not_begun { IsCut self.now.stretches.items result.0.now result.1.now tick }
    {
        let stretches = self.stretches.as_slice();
        let (begun, reach) = self.bounds_of_cut(tick);
        if begun == reach {
            return stretches.split_at(begun);
        }
        let (near, _) = stretches.split_at(reach);
        let (_, between) = near.split_at(begun);
        stretches.split_at(begun + between.partition_point(|stretch| stretch.from <= tick))
    }

    // As many stretches as the first number have begun by a tick, and those from the second number on have not. It looks
    // twice as far each time: where few have begun, few are looked at, however many there are. (A loop: a chain would
    // have to hand on both numbers.)
    fn bounds_of_cut(&self, tick: u64) -> (usize, usize)
        ensures in_their_order { (result.0 ≤ result.1) × (result.1 ≤ length self.now.stretches.items) }
        ensures first_ones_have_begun { AllWithin (λ (s : Stretch). s.from ≤ tick) self.now.stretches.items 0 result.0 }
        ensures later_ones_have_not_begun { AllWithin (λ (s : Stretch). tick < s.from) self.now.stretches.items result.1 (length self.now.stretches.items) }
    {
        let stretches = self.stretches.as_slice();
        let mut begun = 0;
        let mut reach = 0;
        while reach < stretches.len() && stretches[reach].from <= tick {
            begun = reach + 1;
            reach = 2 * begun;
        }
        (begun, reach.min(stretches.len()))
    }

    // Share, excess, commitment and level at a tick.
    pub fn snapshot(&self, tick: u64) -> Snapshot
        ensures stands_by_the_account_at_the_tick { Shows (M.Measure.site self.now.measure) (M.Measure.level self.now.measure) (account_at self.now.stretches.items tick) tick result }
    {
        let account = self.in_force(tick).account;
        let site = self.measure.site();
        Snapshot {
            supplies: array::from_fn(|supply| SupplyView {
                share: site.share(&account.holding, supply),
                excess: site.excess(&account, supply),
                commitment: site.commitment(&account, tick, supply),
            }),
            level: self.measure.level(&account, tick),
        }
    }
}

impl<M: DatedMeasure> Timeline<M> {
    // Bounds on the level at every tick from the first to the last, whatever changes between them.
    pub fn level_range(&self, span: Span) -> LevelRange
        ensures no_level_between_is_outside { (k : ℕ) → span.first ≤ k → k ≤ span.last → Inside (M.Measure.level self.now.measure (account_at self.now.stretches.items k) k) result }
        ensures no_wider_than_the_measure_tells { span.first ≤ span.last → NoWider (M.DatedMeasure.lowest self.now.measure) (M.DatedMeasure.highest self.now.measure) (account_at self.now.stretches.items) span.first span.last result }
    {
        let start = self.in_force(span.first);
        let mut end = start.until.min(span.last);
        let mut range = self.over(&start.account, span.first, end);
        // (Each turn asks for the account anew: a walk over later stretches would say again what `in_force` promises.)
        while end < span.last {
            let begin = end + 1;
            let next = self.in_force(begin);
            end = next.until.min(span.last);
            range = range.join(self.over(&next.account, begin, end));
        }
        range
    }

    fn over(&self, account: &Account, one: u64, other: u64) -> LevelRange
        ensures no_level_between_is_outside { (k : ℕ) → Between one other k → Inside (M.Measure.level self.now.measure account.now k) result }
        ensures lowest_of_the_measure { result.lowest ≡ M.DatedMeasure.lowest self.now.measure account.now one other }
        ensures highest_of_the_measure { result.highest ≡ M.DatedMeasure.highest self.now.measure account.now one other }
    {
        LevelRange {
            lowest: self.measure.lowest(account, one, other),
            highest: self.measure.highest(account, one, other),
        }
    }
}
