// Every refusal number, and what a refusal leaves.
use crate::load;
use pools::amounts::Amounts;
use pools::bench::Bench;
use pools::fault::{Layer, PoolFault};
use pools::load_limit::LoadLimit;
use pools::pool::Pool;
use pools::reserve::Reserve;
use std::test::Fail;

fn bench_of_four() -> Bench {
    Bench::new(Amounts { each: [4, 4, 0, 0] })
}

#[test]
fn each_fault_has_its_number_and_layer(rt: HostRuntime) {
    assert_eq!(rt; PoolFault::BadLayer.number(), 9);
    assert_eq!(rt; PoolFault::MoreThanUsed.number(), 28);
    assert_eq!(rt; PoolFault::InUse.number(), 29);
    assert_eq!(rt; PoolFault::DoesNotFit.number(), 30);
    assert_eq!(rt; PoolFault::BadLayer.layer(), Layer::Pool);
    assert_eq!(rt; PoolFault::MoreThanUsed.layer(), Layer::Pool);
    assert_eq!(rt; PoolFault::InUse.layer(), Layer::Pool);
    assert_eq!(rt; PoolFault::DoesNotFit.layer(), Layer::Pool);
}

#[test]
fn take_past_the_capacity_is_30_and_changes_nothing(rt: HostRuntime) -> Result<(), Fail> {
    let mut pool = bench_of_four();
    pool.take(Amounts { each: [3, 1, 0, 0] })?;
    assert_eq!(rt;
        pool.take(Amounts { each: [0, 4, 0, 0] }),
        Err(PoolFault::DoesNotFit)
    );
    assert_eq!(rt;
        pool.take(Amounts { each: [0, 0, 1, 0] }),
        Err(PoolFault::DoesNotFit)
    );
    assert_eq!(rt; pool.used().each, [3, 1, 0, 0]);
    Ok(())
}

#[test]
fn give_back_of_more_than_is_used_is_28_and_changes_nothing(rt: HostRuntime) -> Result<(), Fail> {
    let mut pool = bench_of_four();
    pool.take(Amounts { each: [3, 1, 0, 0] })?;
    assert_eq!(rt;
        pool.give_back(Amounts { each: [3, 2, 0, 0] }),
        Err(PoolFault::MoreThanUsed)
    );
    assert_eq!(rt; pool.used().each, [3, 1, 0, 0]);
    pool.give_back(Amounts { each: [1, 1, 0, 0] })?;
    assert_eq!(rt; pool.used().each, [2, 0, 0, 0]);
    Ok(())
}

#[test]
fn bad_reserve_is_9_before_29_and_hands_the_pool_back(rt: HostRuntime) -> Result<(), Fail> {
    let mut pool = bench_of_four();
    pool.take(Amounts { each: [3, 0, 0, 0] })?;
    let Err(refused) = Reserve::over(pool, Amounts { each: [2, 0, 0, 0] }) else {
        return Err(Fail::new("3 in use and 2 held back are more than 4"));
    };
    assert_eq!(rt; refused.fault, PoolFault::BadLayer);
    let Err(refused) = Reserve::over(refused.pool, Amounts { each: [1, 0, 0, 0] }) else {
        return Err(Fail::new("a pool in use takes no layer"));
    };
    assert_eq!(rt; refused.fault, PoolFault::InUse);
    assert_eq!(rt; refused.pool.used().each, [3, 0, 0, 0]);
    assert_eq!(rt; refused.pool.check_unused(), Err(PoolFault::InUse));
    Ok(())
}

#[test]
fn bad_load_limit_is_9_before_29_and_hands_the_pool_back(rt: HostRuntime) -> Result<(), Fail> {
    let mut pool = bench_of_four();
    pool.take(Amounts { each: [0, 1, 0, 0] })?;
    let Err(refused) = LoadLimit::over(pool, load(0, [0, 0, 0, 1_025])) else {
        return Err(Fail::new("a weight above 1,024"));
    };
    assert_eq!(rt; refused.fault, PoolFault::BadLayer);
    let Err(refused) = LoadLimit::over(refused.pool, load((1 << 40) + 1, [1, 1, 1, 1])) else {
        return Err(Fail::new("a limit above 2^40"));
    };
    assert_eq!(rt; refused.fault, PoolFault::BadLayer);
    let Err(refused) = LoadLimit::over(refused.pool, load(1 << 40, [1_024, 0, 0, 0])) else {
        return Err(Fail::new("a pool in use takes no layer"));
    };
    assert_eq!(rt; refused.fault, PoolFault::InUse);
    assert_eq!(rt; refused.pool.used().each, [0, 1, 0, 0]);
    Ok(())
}
