use crate::link::Link;
use crate::settings::{Direction, Percents, Settings};
use crate::words::Words;
use hk_base::Memory;
use std::alloc::Global;
use std::test::Fail;

/// The first words of some seeds, as another implementation draws them.
#[test]
fn words_of_seeds(rt: HostRuntime) -> Result<(), Fail> {
    for (seed, expected) in [
        (
            0u64,
            [
                298703107u32,
                4236525527,
                336081875,
                1056616254,
                1060453275,
                1616833669,
            ],
        ),
        (
            1,
            [
                866585574, 2109535214, 3403630417, 296513984, 4177522235, 689909480,
            ],
        ),
        (
            18446744073709551615,
            [
                2553256318, 1362994822, 3759657484, 3366838333, 2323195082, 1040808896,
            ],
        ),
        (
            12345,
            [
                1380562496, 2711692066, 1704406402, 2919301566, 1673194813, 2070058695,
            ],
        ),
    ] {
        let mut words = Words::new(seed);
        for word in expected {
            assert_eq!(rt; words.draw(), word);
        }
    }
    Ok(())
}

/// What arrives in twelve slots, as in another implementation.
#[test]
fn arrivals_of_slots(rt: HostRuntime) -> Result<(), Fail> {
    let told = told(rt.alloc())?;
    let expected: [u32; 24] = [
        103, 200, 102, 200, 108, 205, 210, 102, 108, 112, 114, 209, 210, 112, 211, 220, 115, 217,
        121, 122, 126, 219, 224, 227,
    ];
    assert_eq!(rt; told.len(), 24);
    for (index, number) in told.iter().enumerate() {
        assert_eq!(rt; *number, expected[index]);
    }
    Ok(())
}

/// The reports that arrive in each slot, with 100 more, and then the requests, with 200 more.
fn told(alloc: Global) -> Result<Vec<u32>, Memory> {
    let settings = Settings {
        seed: 12345,
        loss: Percents {
            requests: 20,
            reports: 30,
        },
        repeat: Percents {
            requests: 40,
            reports: 50,
        },
        delay: 3,
    };
    let mut link = Link::new(alloc, settings);
    let mut told = Vec::new(alloc);
    let mut number = 0u32;
    for slot in 0..12u64 {
        for packet in link.take(Direction::Report, slot) {
            told.push(packet % 100 + 100)?;
        }
        for _ in 0..slot % 3 {
            link.give(Direction::Request, slot, slot, number)?;
            number = number.wrapping_add(1) % 100;
        }
        for packet in link.take(Direction::Request, slot) {
            told.push(packet % 100 + 200)?;
        }
        for k in 0..slot * 7 % 4 {
            link.give(Direction::Report, slot + k % 2, slot + 1, number)?;
            number = number.wrapping_add(1) % 100;
        }
    }
    Ok(told)
}
