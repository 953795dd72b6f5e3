// What two small stacks of pools permit.
ghost use Rattle.std.specs.Prelude.{◌≡◌, true, false, Some};

use pools::amounts::Amounts;
use pools::bench::Bench;
use pools::load_limit::LoadLimit;
use pools::load_request::LoadRequest;
use pools::pool::Pool;
use pools::reserve::Reserve;

// Weights 2 and 1, and the limit 9.
const LOAD_OF_NINE: LoadRequest = LoadRequest {
    limit: 9,
    weights: [2, 1, 0, 0],
};

// Whether 3 and whether 4 fit a bench of 4 with a reserve of 1.
pub fn bench_with_reserve() -> Option<(bool, bool)>
    ensures three_is_permitted_and_four_is_not { result ≡ Some (true, false) }
{
    let bench = Bench::new(Amounts { each: [4, 0, 0, 0] });
    let pool = Reserve::over(bench, Amounts { each: [1, 0, 0, 0] }).ok()?;
    let three = pool.fits(Amounts { each: [3, 0, 0, 0] });
    let four = pool.fits(Amounts { each: [4, 0, 0, 0] });
    Some((three, four))
}

// Whether (4, 1) and whether (4, 2) fit capacities (4, 4) under weights 2 and 1 and the limit 9.
pub fn bench_with_load_limit() -> Option<(bool, bool)>
    ensures load_nine_is_permitted_and_load_ten_is_not { result ≡ Some (true, false) }
{
    let bench = Bench::new(Amounts { each: [4, 4, 0, 0] });
    let pool = LoadLimit::over(bench, LOAD_OF_NINE).ok()?;
    let nine = pool.fits(Amounts { each: [4, 1, 0, 0] });
    let ten = pool.fits(Amounts { each: [4, 2, 0, 0] });
    Some((nine, ten))
}

// Whether (3, 2) fits capacities (4, 4) under that load limit and a reserve of (1, 0) on top of it.
pub fn reserve_over_load_limit() -> Option<bool>
    ensures reserve_counts_in_the_load { result ≡ Some false }
{
    let bench = Bench::new(Amounts { each: [4, 4, 0, 0] });
    let limited = LoadLimit::over(bench, LOAD_OF_NINE).ok()?;
    let pool = Reserve::over(limited, Amounts { each: [1, 0, 0, 0] }).ok()?;
    let demand = Amounts { each: [3, 2, 0, 0] };
    Some(pool.fits(demand))
}

// The same with the two layers the other way round: the order of layers matters.
pub fn load_limit_over_reserve() -> Option<bool>
    ensures reserve_does_not_count_in_the_load { result ≡ Some true }
{
    let bench = Bench::new(Amounts { each: [4, 4, 0, 0] });
    let reserved = Reserve::over(bench, Amounts { each: [1, 0, 0, 0] }).ok()?;
    let pool = LoadLimit::over(reserved, LOAD_OF_NINE).ok()?;
    Some(pool.fits(Amounts { each: [3, 2, 0, 0] }))
}
