use crate::{Empty, Stat, Summary};

#[test]
fn greatest_least_and_mean(rt: HostRuntime) {
    let mut stat = Stat::new();
    assert_eq!(rt; stat.result(0), Err(Empty));
    stat.add(0, -3).expect(&rt, "room");
    stat.add(1, -4).expect(&rt, "room");
    let low = Summary {
        count: 2,
        max: -3,
        max_slot: 0,
        min: -4,
        min_slot: 1,
        mean: -4,
    };
    assert_eq!(rt; stat.result(0), Ok(low));
    assert_eq!(rt; stat.result(1), Ok(Summary { mean: -896, ..low }));
    assert_eq!(rt;
        stat.result(2),
        Ok(Summary {
            mean: -229_376,
            ..low
        })
    );
    stat.reset();
    assert_eq!(rt; stat.result(0), Err(Empty));
    stat.add(4, 5).expect(&rt, "room");
    stat.add(5, 5).expect(&rt, "room");
    let level = Summary {
        count: 2,
        max: 5,
        max_slot: 4,
        min: 5,
        min_slot: 4,
        mean: 5,
    };
    assert_eq!(rt; stat.result(0), Ok(level));
}
