// The smallest and the largest amounts.
use crate::load;
use pools::amounts::Amounts;
use pools::bench::Bench;
use pools::fault::PoolFault;
use pools::load_limit::LoadLimit;
use pools::pool::Pool;
use pools::reserve::Reserve;
use std::test::Fail;

const LARGEST: Amounts = Amounts {
    each: [u32::MAX; 4],
};

#[test]
fn zero_demands_always_fit(rt: HostRuntime) -> Result<(), Fail> {
    let mut pool = Bench::new(Amounts { each: [4, 0, 0, 0] });
    pool.take(Amounts { each: [4, 0, 0, 0] })?;
    assert!(rt; pool.fits(Amounts::ZERO));
    pool.take(Amounts::ZERO)?;
    pool.give_back(Amounts::ZERO)?;
    assert_eq!(rt; pool.used().each, [4, 0, 0, 0]);
    let mut empty = Bench::new(Amounts::ZERO);
    empty.take(Amounts::ZERO)?;
    empty.give_back(Amounts::ZERO)?;
    assert!(rt; !empty.fits(Amounts { each: [0, 0, 0, 1] }));
    Ok(())
}

#[test]
fn largest_amounts_fit_once_and_no_sum_wraps(rt: HostRuntime) -> Result<(), Fail> {
    let mut pool = Bench::new(LARGEST);
    pool.take(LARGEST)?;
    assert!(rt; !pool.fits(Amounts { each: [0, 0, 0, 1] }));
    assert_eq!(rt; pool.take(LARGEST), Err(PoolFault::DoesNotFit));
    assert_eq!(rt; pool.used().each, [u32::MAX; 4]);
    pool.give_back(LARGEST)?;
    assert_eq!(rt; pool.used().each, [0; 4]);
    assert!(rt;
        Amounts { each: [1, 0, 0, 0] }
            .checked_add(LARGEST)
            .is_none()
    );
    assert!(rt;
        Amounts::ZERO
            .checked_sub(Amounts { each: [0, 0, 1, 0] })
            .is_none()
    );
    Ok(())
}

#[test]
fn reserve_past_32_bits_does_not_wrap(rt: HostRuntime) -> Result<(), Fail> {
    let Ok(pool) = Reserve::over(Bench::new(LARGEST), LARGEST) else {
        return Err(Fail::new("a reserve equal to the capacity is fine"));
    };
    assert!(rt; pool.fits(Amounts::ZERO));
    assert!(rt; !pool.fits(Amounts { each: [1, 0, 0, 0] }));
    assert!(rt; !pool.fits(LARGEST));
    Ok(())
}

#[test]
fn largest_weights_and_limit(rt: HostRuntime) -> Result<(), Fail> {
    let Ok(pool) = LoadLimit::over(Bench::new(LARGEST), load(1 << 40, [1_024; 4])) else {
        return Err(Fail::new("the largest weights and limit are fine"));
    };
    // 1,024 times 2^30 is 2^40.
    assert!(rt;
        pool.fits(Amounts {
            each: [1 << 30, 0, 0, 0],
        })
    );
    assert!(rt;
        !pool.fits(Amounts {
            each: [1 << 30, 0, 0, 1],
        })
    );
    assert!(rt; !pool.fits(LARGEST));
    let Ok(pool) = LoadLimit::over(Bench::new(LARGEST), load(0, [0; 4])) else {
        return Err(Fail::new("zero weights and limit are fine"));
    };
    assert!(rt; pool.fits(LARGEST));
    Ok(())
}
