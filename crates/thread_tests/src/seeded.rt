//! Races by turns that a seed draws.

use race::run_seeded_race;
use race_numbers::{Bias, Race};
use std::alloc::Global;
use std::sync::Wait;
use std::test::Fail;

// The history of a small race by this seed, as a text.
fn text_of<R: Wait>(rt: &R, alloc: Global, seed: u64) -> Result<Vec<u8>, Fail> {
    let Ok(race) = Race::new(2, 2, 1, 2, 1) else {
        return Err(Fail::from("no race"));
    };
    let Ok(bias) = Bias::new(3, 1, 1) else {
        return Err(Fail::from("no weights"));
    };
    let mut text = Vec::new(alloc);
    run_seeded_race(rt, alloc, &race, &bias, seed, &mut text)?;
    Ok(text)
}

// A sum over the bytes that knows their order.
fn sum_of(text: &[u8]) -> u32 {
    let mut sum = 1u32;
    for byte in text {
        sum = sum.wrapping_mul(31).wrapping_add(u32::from(*byte));
    }
    sum
}

// The history of `seeds_example`.
#[test]
fn a_seed_gives_its_history(rt: HostRuntime) -> Result<(), Fail> {
    let text = text_of(&rt, rt.alloc(), 47)?;
    assert_eq!(rt; text.len(), 9197);
    assert_eq!(rt; sum_of(&text), 3109814853);
    Ok(())
}

#[test]
fn another_seed_gives_another_history(rt: HostRuntime) -> Result<(), Fail> {
    let one = text_of(&rt, rt.alloc(), 1)?;
    let two = text_of(&rt, rt.alloc(), 2)?;
    assert!(rt; one.as_slice() != two.as_slice());
    Ok(())
}
