// Shares, the decay and the memory of a house, in numbers.
ghost use Rattle.std.specs.Prelude.{◌≡◌, ℕ, [], ◌∷◌, Some};
ghost use Rattle.measures.specs.Decay.{weight_after};
ghost use Rattle.measures.specs.Shares.{share_of};
ghost use Rattle.figures.specs.MeasureFigures.{MemoryFigures};

use measures::account::Account;
use measures::decay::weight_after;
use measures::holding::Holding;
use measures::measure::Measure;
use measures::past_record::PastRecord;
use measures::share::{equal_part, share};
use measures::site::Site;
use measures::stateful::Stateful;
use pools::amounts::Amounts;
use std::num::NonZeroU32;

// The weights after one, two and three ticks.
pub fn first_decay_entries() -> [u32; 3]
    ensures code_gives_65280_65025_64770 { result ≡ 65280 ∷ 65025 ∷ 64770 ∷ [] }
    ensures definition_gives_65280_65025_64770 { (weight_after 1 ≡ 65280) × (weight_after 2 ≡ 65025) × (weight_after 3 ≡ 64770) }
{
    [weight_after(1), weight_after(2), weight_after(3)]
}

// The shares of 4 in 18, of 12 in 18 and of 6 in 9.
pub fn three_shares() -> [u32; 3]
    ensures code_gives_233016_699050_699050 { result ≡ 233016 ∷ 699050 ∷ 699050 ∷ [] }
    ensures definition_gives_233016_699050_699050 { (share_of 4 18 ≡ 233016) × (share_of 12 18 ≡ 699050) × (share_of 6 9 ≡ 699050) }
{
    [share(4, 18), share(12, 18), share(6, 9)]
}

// The commitment at ticks 1, 2 and 1,568 of a house that holds all of a supply of 4, one of two houses; then, after it
// has given all of it back, its level at once and one tick later.
pub fn memory_of_a_house() -> Option<[u32; 5]>
    ensures code_gives_2048_4088_524288_524288_522240 { result ≡ Some (2048 ∷ 4088 ∷ 524288 ∷ 524288 ∷ 522240 ∷ []) }
    ensures definition_gives_2048_4088_524288_524288_522240 { MemoryFigures }
{
    let capacity = Amounts { each: [4, 0, 0, 0] };
    let site = Site::new(capacity, 1, equal_part(NonZeroU32::new(2)?))?;
    let measure = Stateful::over(site);
    let busy = Account {
        past: PastRecord::new(),
        holding: Holding::from(capacity),
    };
    let idle = Account {
        past: measure.bring(&busy, 1_568),
        holding: Holding::from(Amounts::ZERO),
    };
    Some([
        site.commitment(&busy, 1, 0),
        site.commitment(&busy, 2, 0),
        site.commitment(&busy, 1_568, 0),
        measure.level(&idle, 1_568),
        measure.level(&idle, 1_569),
    ])
}
