use crate::model::Tally;
use crate::turns::Watched;
use checks::draft::{Cost, Draft};
use checks::random::Random;
use design::Price;
use judge::{Judge, check_sizes};
use plain::Plain;
use scales::{Hours, Needles, Scale};
use std::alloc::Global;
use std::process::Abort;
use std::test::Fail;
use test_scales::{Skips, Sum200};

// An empty draft of 1 to 8 choices, whose rooms are sometimes too small for what is entered.
fn draw_draft(random: &mut Random, heap: Global) -> Result<Draft, Fail> {
    let choices = random.below(8).max(random.below(8)).saturating_add(1);
    let price_room = if random.once_in(3) {
        random.below(6).saturating_add(1)
    } else {
        64
    };
    let rule_room = if random.once_in(3) {
        u16::from(random.below(30)).saturating_add(1)
    } else {
        1024
    };
    let sizes = check_sizes(choices, price_room, rule_room)?;
    Ok(Draft::new(heap, sizes, choices))
}

// A run on one design, which grows from round to round.
fn run_design<J: Judge>(
    rt: &impl Abort,
    watched: &mut Watched<J>,
    random: &mut Random,
) -> Result<(), Fail> {
    for _ in 0..3u8 {
        watched.enter_some(rt, random)?;
        watched.call_some(rt, random)?;
        watched.list_twice(rt)?;
        watched.enter_some(rt, random)?;
        watched.restart();
    }
    Ok(())
}

fn run_designs<A: Scale, B: Scale>(
    rt: &impl Abort,
    heap: Global,
    seed: u64,
    count: u16,
) -> Result<Tally, Fail> {
    let mut random = Random::new(seed);
    let mut tally = Tally::default();
    for _ in 0..count {
        let draft = draw_draft(&mut random, heap)?;
        let mut watched = Watched::<Plain<A, B>>::plain(draft, tally)?;
        run_design(rt, &mut watched, &mut random)?;
        tally = watched.model.tally;
    }
    Ok(tally)
}

// To a design every kind of answer came eight times or more, and some list was as long as `longest`.
fn check_tally(rt: &impl Abort, tally: Tally, designs: u32, longest: usize) {
    let often = designs.saturating_mul(8);
    assert!(rt; tally.accepted >= often);
    assert!(rt; tally.refused >= often);
    assert!(rt; tally.while_open >= often);
    assert!(rt; tally.points >= often);
    assert!(rt; tally.ended >= often);
    assert!(rt; tally.restarts >= often);
    assert!(rt; tally.found >= often);
    assert!(rt; tally.missing >= often);
    assert!(rt; tally.longest >= longest);
}

#[test]
fn runs_on_hours_and_needles(rt: HostRuntime) -> Result<(), Fail> {
    let tally = run_designs::<Hours, Needles>(&rt, rt.alloc(), 41, 600)?;
    check_tally(&rt, tally, 600, 5);
    Ok(())
}

#[test]
fn runs_on_skips(rt: HostRuntime) -> Result<(), Fail> {
    let tally = run_designs::<Skips, Skips>(&rt, rt.alloc(), 42, 600)?;
    check_tally(&rt, tally, 600, 4);
    Ok(())
}

#[test]
fn runs_on_sums(rt: HostRuntime) -> Result<(), Fail> {
    let heap = rt.alloc();
    let tally = run_designs::<Sum200, Needles>(&rt, heap, 43, 300)?;
    check_tally(&rt, tally, 300, 5);
    let tally = run_designs::<Sum200, Sum200>(&rt, heap, 44, 300)?;
    check_tally(&rt, tally, 300, 10);
    Ok(())
}

// From (0, 200) to (200, 0).
fn step_through_sums<J: Judge>(rt: &impl Abort, watched: &mut Watched<J>) {
    for a in 0..=200u8 {
        assert_eq!(rt; watched.planner.step(), Some((a, 200u8.saturating_sub(a))));
    }
    assert_eq!(rt; watched.planner.step(), None);
}

// Each of eight choices costs its weight in A if it is made, and in B if it is not; the weights sum to
// every number up to 200.
fn weigh<J: Judge>(rt: &impl Abort, watched: &mut Watched<J>) -> Result<(), Fail> {
    let weights = [1u8, 2, 4, 8, 16, 32, 64, 73];
    for (mark, place) in (1..=8i8).zip(weights) {
        watched.enter_price(rt, Cost::A, Price { mark, place })?;
    }
    for (mark, place) in (-8..=-1i8).rev().zip(weights) {
        watched.enter_price(rt, Cost::B, Price { mark, place })?;
    }
    Ok(())
}

// Lists all 201 points, written out, and then twice more beside the sweep.
fn list_sums<J: Judge>(rt: &impl Abort, watched: &mut Watched<J>) -> Result<(), Fail> {
    weigh(rt, watched)?;
    step_through_sums(rt, watched);
    assert!(rt; watched.planner.read(200).is_ok());
    assert!(rt; watched.planner.read(201).is_err());
    watched.restart();
    watched.list_twice(rt)?;
    assert_eq!(rt; watched.model.listed.len(), 201);
    assert_eq!(rt; watched.model.tally.found, 402);
    assert_eq!(rt; watched.model.tally.missing, 366);
    Ok(())
}

#[test]
fn the_longest_list_fits(rt: HostRuntime) -> Result<(), Fail> {
    let draft = Draft::new(rt.alloc(), check_sizes(8, 64, 1024)?, 8);
    let mut watched = Watched::<Plain<Sum200, Sum200>>::plain(draft, Tally::default())?;
    list_sums(&rt, &mut watched)
}
