use checks::draft::Cost;
use checks::drive::{Trial, refusal};
use checks::random::Random;
use judge::{Judge, check_sizes};
use plain::Plain;
use scales::{Hours, Needles, Scale};
use std::alloc::Global;
use std::process::Abort;
use std::test::Fail;
use test_scales::{Skips, Sum200};

// A plain judge of whose choices any may have marks.
fn made<A: Scale, B: Scale>(
    heap: Global,
    choices: u8,
    price_room: u8,
    rule_room: u16,
) -> Result<Trial<Plain<A, B>>, Fail> {
    let sizes = check_sizes(choices, price_room, rule_room)?;
    Ok(Trial::plain(heap, sizes, choices)?)
}

// Random designs of up to 10 choices, each compared at every pair of bounds.
fn small_designs<A: Scale, B: Scale>(heap: Global, seed: u64, count: u8) -> Result<(), Fail> {
    let mut random = Random::new(seed);
    for _ in 0..count {
        let choices = random.below(10).saturating_add(1);
        let mut trial = made::<A, B>(heap, choices, 64, 1024)?;
        trial.fill_and_compare(&mut random)?;
    }
    Ok(())
}

// Random designs of 11 to 64 choices, of which the highest 8 have marks.
fn wide_designs<A: Scale, B: Scale>(heap: Global, seed: u64, count: u8) -> Result<(), Fail> {
    let mut random = Random::new(seed);
    for k in 0..count {
        let choices = if k % 2 == 0 {
            64
        } else {
            random.below(54).saturating_add(11)
        };
        let sizes = check_sizes(choices, 64, 1024)?;
        let mut trial = Trial::<Plain<A, B>>::plain(heap, sizes, 8)?;
        trial.fill_and_compare(&mut random)?;
    }
    Ok(())
}

// Designs of 64 choices, too many to sweep, around a plan that is known.
fn planted_designs<A: Scale, B: Scale>(heap: Global, seed: u64, count: u8) -> Result<(), Fail> {
    let mut random = Random::new(seed);
    for _ in 0..count {
        let mut trial = made::<A, B>(heap, 64, 64, 1024)?;
        trial.plant_and_seek(&mut random)?;
    }
    Ok(())
}

// Small rooms, and entries of any marks and places: every answer is the one owed, and a refusal changes nothing.
fn provoked_designs<A: Scale, B: Scale>(heap: Global, seed: u64, count: u8) -> Result<(), Fail> {
    let mut random = Random::new(seed);
    for _ in 0..count {
        let choices = random.below(7).saturating_add(1);
        let price_room = random.below(7).saturating_add(1);
        let rule_room = u16::from(random.below(30)).saturating_add(1);
        let mut trial = made::<A, B>(heap, choices, price_room, rule_room)?;
        trial.provoke(&mut random)?;
    }
    Ok(())
}

#[test]
fn small_designs_agree_with_the_sweep(rt: HostRuntime) -> Result<(), Fail> {
    let heap = rt.alloc();
    small_designs::<Hours, Needles>(heap, 1, 250)?;
    small_designs::<Needles, Hours>(heap, 2, 250)?;
    small_designs::<Skips, Skips>(heap, 3, 250)?;
    small_designs::<Hours, Skips>(heap, 4, 250)?;
    small_designs::<Sum200, Needles>(heap, 5, 50)
}

#[test]
fn wide_designs_agree_with_the_sweep(rt: HostRuntime) -> Result<(), Fail> {
    let heap = rt.alloc();
    wide_designs::<Hours, Needles>(heap, 11, 100)?;
    wide_designs::<Skips, Skips>(heap, 12, 200)?;
    wide_designs::<Skips, Sum200>(heap, 13, 50)
}

#[test]
fn a_known_plan_is_not_missed(rt: HostRuntime) -> Result<(), Fail> {
    let heap = rt.alloc();
    planted_designs::<Hours, Needles>(heap, 15, 200)?;
    planted_designs::<Sum200, Skips>(heap, 16, 200)
}

#[test]
fn refusals_change_nothing(rt: HostRuntime) -> Result<(), Fail> {
    let heap = rt.alloc();
    provoked_designs::<Skips, Skips>(heap, 21, 200)?;
    provoked_designs::<Hours, Skips>(heap, 22, 50)?;
    provoked_designs::<Needles, Skips>(heap, 23, 50)
}

fn expect_sizes(rt: &impl Abort, owed: Option<u8>, sizes: &[(u8, u8, u16)]) -> Result<(), Fail> {
    for (choices, price_room, rule_room) in sizes {
        let given = refusal(check_sizes(*choices, *price_room, *rule_room))?;
        assert_eq!(rt; given, owed);
    }
    Ok(())
}

#[test]
fn sizes_have_edges(rt: HostRuntime) -> Result<(), Fail> {
    expect_sizes(&rt, None, &[(1, 1, 1), (64, 64, 1024)])?;
    expect_sizes(
        &rt,
        Some(5),
        &[(0, 1, 1), (65, 1, 1), (0, 0, 1025), (65, 65, 0)],
    )?;
    expect_sizes(
        &rt,
        Some(6),
        &[(1, 0, 1), (1, 65, 1), (64, 1, 0), (64, 1, 1025), (1, 0, 0)],
    )
}

#[test]
fn marks_have_edges(rt: HostRuntime) -> Result<(), Fail> {
    let mut trial = made::<Hours, Needles>(rt.alloc(), 64, 64, 1024)?;
    trial.expect_rules(&[(&[64, -64], None)])?;
    trial.expect_prices(Cost::A, &[(64, 1, None), (-64, 1, None)])?;
    trial.expect_prices(Cost::B, &[(64, 1, None), (-64, 1, None)])?;
    for mark in [65i8, -65, 0, 127, -127, -128] {
        trial.expect_rules(&[(&[1, mark], Some(10))])?;
        trial.expect_prices(Cost::A, &[(mark, 1, Some(10))])?;
        trial.expect_prices(Cost::B, &[(mark, 1, Some(10))])?;
    }
    Ok(())
}

#[test]
fn rules_have_edges(rt: HostRuntime) -> Result<(), Fail> {
    let mut trial = made::<Hours, Needles>(rt.alloc(), 64, 64, 20)?;
    trial.expect_rules(&[
        (&[1, 2, 3, 4, 5, 6, 7, 8, 9], Some(9)),
        (&[0, 0, 0, 0, 0, 0, 0, 0, 65], Some(9)),
        // Nine of the twenty units.
        (&[1, 2, 3, 4, 5, 6, 7, 64], None),
        (&[1, 2, 3, 4, 5, 6, 7, -64], None),
        (&[1, 2], Some(13)),
        (&[65, 2], Some(10)),
        (&[1, 2, 3, 4, 5, 6, 7, 8, 65], Some(9)),
        (&[1], None),
        (&[], Some(13)),
    ])?;
    assert!(rt; trial.judge.seek(0, 0).is_some());
    Ok(())
}

#[test]
fn prices_have_edges(rt: HostRuntime) -> Result<(), Fail> {
    let mut trial = made::<Hours, Needles>(rt.alloc(), 10, 3, 100)?;
    trial.expect_prices(
        Cost::A,
        &[
            (1, 0, Some(11)),
            (1, 41, Some(11)),
            (1, 40, None),
            (-1, 1, None),
            (1, 40, Some(12)),
            (-1, 2, Some(12)),
            (2, 7, None),
            (3, 7, Some(13)),
        ],
    )?;
    trial.expect_prices(
        Cost::B,
        &[
            (1, 0, Some(11)),
            (1, 25, Some(11)),
            (1, 24, None),
            (-1, 1, None),
            (1, 24, Some(12)),
            (-1, 2, Some(12)),
            (3, 7, None),
            (4, 7, Some(13)),
        ],
    )?;
    assert_eq!(rt; trial.judge.costs(0b11), (40, 24));
    assert_eq!(rt; trial.judge.costs(0b110), (8, 7));
    Ok(())
}

// To a full cost all four refusals of a price apply, then one less each time; and so for a rule.
#[test]
fn the_first_refusal_counts(rt: HostRuntime) -> Result<(), Fail> {
    let mut trial = made::<Needles, Hours>(rt.alloc(), 10, 1, 1)?;
    trial.expect_prices(Cost::A, &[(5, 3, None)])?;
    trial.expect_prices(
        Cost::A,
        &[
            (11, 25, Some(10)),
            (5, 25, Some(11)),
            (5, 24, Some(12)),
            (-5, 24, Some(13)),
        ],
    )?;
    trial.expect_prices(Cost::B, &[(5, 3, None)])?;
    trial.expect_prices(
        Cost::B,
        &[
            (-11, 0, Some(10)),
            (5, 41, Some(11)),
            (5, 40, Some(12)),
            (-5, 40, Some(13)),
        ],
    )?;
    trial.expect_rules(&[
        (&[1, 2, 3, 4, 5, 6, 7, 8, 11], Some(9)),
        (&[1, -11], Some(10)),
    ])?;
    trial.expect_rules(&[(&[1], Some(13)), (&[], None)])?;
    Ok(())
}

fn fill_prices_to_the_edge<J: Judge>(trial: &mut Trial<J>) -> Result<(), Fail> {
    for choice in 1..65i8 {
        trial.expect_prices(Cost::A, &[(choice, 3, None)])?;
        trial.expect_prices(Cost::B, &[(choice.wrapping_neg(), 1, None)])?;
    }
    trial.expect_prices(Cost::A, &[(-1, 3, Some(13))])?;
    trial.expect_prices(Cost::B, &[(1, 1, Some(13))])?;
    Ok(())
}

fn fill_rules_to_the_edge<J: Judge>(trial: &mut Trial<J>) -> Result<(), Fail> {
    for _ in 0..113u8 {
        trial.expect_rules(&[(&[57, 58, 59, 60, 61, 62, 63, 64], None)])?;
    }
    trial.expect_rules(&[
        (&[1, 2, 3, 4, 5, 6, 7], Some(13)),
        (&[1, 2, 3, 4, 5, 6], None),
    ])?;
    trial.expect_rules(&[(&[], Some(13))])?;
    Ok(())
}

// Q and R at their largest, filled to the edge and one past.
#[test]
fn the_largest_rooms_fill(rt: HostRuntime) -> Result<(), Fail> {
    let mut trial = made::<Sum200, Skips>(rt.alloc(), 64, 64, 1024)?;
    fill_prices_to_the_edge(&mut trial)?;
    assert_eq!(rt; trial.judge.costs(u64::MAX), (192, 0));
    assert_eq!(rt; trial.judge.costs(u64::MAX / 2), (189, 1));
    fill_rules_to_the_edge(&mut trial)?;
    assert_eq!(rt; trial.judge.seek(192, 0), Some(u64::MAX));
    assert_eq!(rt; trial.judge.seek(191, 0), None);
    assert_eq!(rt; trial.judge.seek(5, 255), None);
    assert!(rt; trial.judge.seek(6, 3).is_some());
    Ok(())
}

#[test]
fn impossible_rules_leave_no_plan(rt: HostRuntime) -> Result<(), Fail> {
    let heap = rt.alloc();
    let mut random = Random::new(31);
    let mut trial = made::<Hours, Skips>(heap, 6, 64, 1024)?;
    trial.expect_rules(&[(&[], None)])?;
    trial.compare(&mut random)?;
    let mut opposed = made::<Hours, Skips>(heap, 64, 64, 1024)?;
    opposed.expect_rules(&[(&[1], None)])?;
    assert!(rt; opposed.judge.seek(0, 0).is_some());
    opposed.expect_rules(&[(&[-1], None)])?;
    assert_eq!(rt; opposed.judge.seek(0, 0), None);
    assert_eq!(rt; opposed.judge.seek(255, 255), None);
    Ok(())
}

#[test]
fn free_choices_cost_nothing(rt: HostRuntime) -> Result<(), Fail> {
    let mut trial = made::<Hours, Needles>(rt.alloc(), 64, 64, 1024)?;
    assert!(rt; trial.judge.seek(0, 0).is_some());
    assert_eq!(rt; trial.judge.costs(u64::MAX), (0, 0));
    Ok(())
}
