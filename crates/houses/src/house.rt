// A house over time, under either measure.
ghost use Rattle.std.specs.Prelude.{◌≡◌, ℕ, ◌≤◌, [], ◌∷◌, ◌++◌, is_ok, IfOk, if◌then◌else◌};
ghost use Rattle.std.specs.List.{All};
ghost use Rattle.std.specs.NonZero.{non_zero_u32_get};
ghost use Rattle.pools.specs.declared.amounts.Amounts.{Amounts};
ghost use Rattle.pools.specs.Totals.{total};
ghost use Rattle.measures.specs.Clock.{on_clock};
ghost use Rattle.measures.specs.Shares.{equal_part};
ghost use Rattle.measures.specs.Sites.{made_of};
ghost use Rattle.timelines.specs.Courses.{account_at, last_change};
ghost use Rattle.timelines.specs.Changes.{change_at, Judged};
ghost use Rattle.timelines.specs.Views.{Shows, Covered, IsTight};
ghost use Rattle.houses.specs.Houses.{supplies_in_use, kind_of, site_of, course_of, level_under, lowest_under, highest_under, brought_under};

use crate::kind::Kind;
use measures::holding::Holding;
use measures::measure::Measure;
use measures::plain::Plain;
use measures::share::equal_part;
use measures::site::Site;
use measures::stateful::Stateful;
use pools::amounts::Amounts;
use std::alloc::{AllocError, Global};
use std::num::NonZeroU32;
use timelines::span::Span;
use timelines::stretch::{Column, Snapshot};
use timelines::timeline::{NotHeld, Timeline};

// The timelines have different types, and a `dyn` may not be handed out: so each method is a match over the two.
#[derive(Drop)]
pub enum House {
    Stateful(Timeline<Stateful>),
    Plain(Timeline<Plain>),
}

// How many supplies are in use: up to the last that has a capacity, and one at least.
fn supplies_in_use(capacity: Amounts) -> usize
    ensures up_to_the_last_with_a_capacity { result ≡ supplies_in_use (total capacity) }
    ensures one_to_four_supplies { (1 ≤ result) × (result ≤ 4) }
{
    capacity
        .each
        .iter()
        .rposition(|amount| *amount > 0)
        .map_or(1, |last| last + 1)
}

impl House {
    // A house of a site with these capacities and so many seats. It starts with nothing, at tick 0.
    pub fn new(heap: Global, kind: Kind, capacity: Amounts, seats: NonZeroU32) -> House
        ensures has_the_measure_of_its_kind { kind_of result ≡ kind }
        ensures stands_at_the_site { made_of (site_of result) ≡ (capacity, supplies_in_use (total capacity), equal_part (non_zero_u32_get seats)) }
        ensures starts_without_a_change { course_of result ≡ [] }
    {
        let site = Site::new(capacity, supplies_in_use(capacity), equal_part(seats)).unwrap();
        match kind {
            Kind::Stateful => House::Stateful(Timeline::new(heap, Stateful::over(site))),
            Kind::Plain => House::Plain(Timeline::new(heap, Plain::over(site))),
        }
    }

    pub fn kind(&self) -> Kind
        ensures measure_of_the_house { result ≡ kind_of self.now }
    {
        match self {
            House::Stateful(_) => Kind::Stateful,
            House::Plain(_) => Kind::Plain,
        }
    }

    pub fn site(&self) -> Site
        ensures site_of_the_house { result ≡ site_of self.now }
    {
        match self {
            House::Stateful(line) => line.measure().site(),
            House::Plain(line) => line.measure().site(),
        }
    }

    // From the tick on it holds this.
    pub fn hold(&mut self, tick: u64, holding: Holding) -> Result<(), NotHeld>
        ensures notes_the_change { course_of self.new ≡ (if is_ok result then course_of self.old ++ change_at (brought_under (kind_of self.old) (site_of self.old)) (course_of self.old) tick holding ∷ [] else course_of self.old) }
        ensures refused_if_earlier_than_the_last_change { Judged (last_change (course_of self.old)) (on_clock tick) result }
        ensures keeps_its_site { site_of self.new ≡ site_of self.old }
        ensures keeps_its_kind { kind_of self.new ≡ kind_of self.old }
    {
        match self {
            House::Stateful(line) => line.hold(tick, holding),
            House::Plain(line) => line.hold(tick, holding),
        }
    }

    // Share, excess, commitment and level at a tick.
    pub fn snapshot(&self, tick: u64) -> Snapshot
        ensures stands_by_the_account_at_the_tick { Shows (site_of self.now) (level_under (kind_of self.now) (site_of self.now)) (account_at (course_of self.now) tick) tick result }
    {
        match self {
            House::Stateful(line) => line.snapshot(tick),
            House::Plain(line) => line.snapshot(tick),
        }
    }

    // The level from the first tick to the last, in columns.
    pub fn curve(&self, heap: Global, span: Span) -> Result<Vec<Column>, AllocError>
        ensures columns_hide_no_level { IfOk result (λ v. ((k : ℕ) → span.first ≤ k → k ≤ on_clock span.last → Covered (λ t. level_under (kind_of self.now) (site_of self.now) (account_at (course_of self.now) t) t) v.items k)) }
        ensures columns_are_no_wider_than_the_measure_tells { IfOk result (λ v. All (IsTight (lowest_under (kind_of self.now) (site_of self.now)) (highest_under (kind_of self.now) (site_of self.now)) (account_at (course_of self.now)) span.first (on_clock span.last)) v.items) }
    {
        match self {
            House::Stateful(line) => line.curve(heap, span),
            House::Plain(line) => line.curve(heap, span),
        }
    }
}
