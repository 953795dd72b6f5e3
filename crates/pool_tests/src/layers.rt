// Layers over layers.
use crate::load;
use pools::amounts::Amounts;
use pools::bench::Bench;
use pools::fault::PoolFault;
use pools::load_limit::LoadLimit;
use pools::pool::Pool;
use pools::reserve::Reserve;
use std::test::Fail;

#[test]
fn three_layers_deep(rt: HostRuntime) -> Result<(), Fail> {
    let bench = Bench::new(Amounts {
        each: [10, 10, 0, 0],
    });
    let Ok(inner_limit) = LoadLimit::over(bench, load(15, [1, 1, 0, 0])) else {
        return Err(Fail::new("load limit refused"));
    };
    let Ok(reserved) = Reserve::over(inner_limit, Amounts { each: [2, 1, 0, 0] }) else {
        return Err(Fail::new("reserve refused"));
    };
    let Ok(mut pool) = LoadLimit::over(reserved, load(12, [0, 3, 0, 0])) else {
        return Err(Fail::new("second load limit refused"));
    };
    assert_eq!(rt; pool.capacity().each, [10, 10, 0, 0]);
    // The second load limit: 3 times 4 is 12.
    assert!(rt; pool.fits(Amounts { each: [0, 4, 0, 0] }));
    assert!(rt; !pool.fits(Amounts { each: [0, 5, 0, 0] }));
    // The first load limit, with the reserve of 3 in all: 15 at most.
    assert!(rt; pool.fits(Amounts { each: [8, 4, 0, 0] }));
    assert!(rt; !pool.fits(Amounts { each: [9, 3, 0, 0] }));
    pool.take(Amounts { each: [8, 3, 0, 0] })?;
    assert_eq!(rt;
        pool.take(Amounts { each: [0, 2, 0, 0] }),
        Err(PoolFault::DoesNotFit)
    );
    pool.take(Amounts { each: [0, 1, 0, 0] })?;
    assert_eq!(rt; pool.used().each, [8, 4, 0, 0]);
    pool.give_back(Amounts { each: [8, 4, 0, 0] })?;
    assert_eq!(rt; pool.check_unused(), Ok(()));
    Ok(())
}

#[test]
fn reserves_over_a_bench_of_four(rt: HostRuntime) -> Result<(), Fail> {
    // The reserve, and the largest demand that then fits.
    for (held, most) in [(0, 4), (1, 3), (4, 0)] {
        let bench = Bench::new(Amounts { each: [4, 0, 0, 0] });
        let Ok(pool) = Reserve::over(
            bench,
            Amounts {
                each: [held, 0, 0, 0],
            },
        ) else {
            return Err(Fail::new("reserve refused"));
        };
        assert!(rt;
            pool.fits(Amounts {
                each: [most, 0, 0, 0],
            })
        );
        assert!(rt;
            !pool.fits(Amounts {
                each: [most + 1, 0, 0, 0],
            })
        );
    }
    for held in [5, u32::MAX] {
        let bench = Bench::new(Amounts { each: [4, 0, 0, 0] });
        let Err(refused) = Reserve::over(
            bench,
            Amounts {
                each: [held, 0, 0, 0],
            },
        ) else {
            return Err(Fail::new("more is held back than there is"));
        };
        assert_eq!(rt; refused.fault, PoolFault::BadLayer);
    }
    Ok(())
}

#[test]
fn reserve_of_the_whole_capacity_leaves_the_zero_total(rt: HostRuntime) -> Result<(), Fail> {
    let bench = Bench::new(Amounts { each: [4, 0, 0, 0] });
    let Ok(mut pool) = Reserve::over(bench, Amounts { each: [4, 0, 0, 0] }) else {
        return Err(Fail::new("reserve refused"));
    };
    pool.take(Amounts::ZERO)?;
    assert!(rt; !pool.fits(Amounts { each: [1, 0, 0, 0] }));
    Ok(())
}
