use crate::model::Tally;
use crate::turns::Watched;
use checks::draft::{Cost, Draft};
use judge::{Judge, check_sizes};
use plain::Plain;
use scales::{Hours, Needles};
use std::alloc::Global;
use std::process::Abort;
use std::test::Fail;

// A design of quarter hours and needles, and the points that it lists.
#[derive(Clone, Copy)]
struct Sample<'a> {
    choices: u8,
    rules: &'a [&'a [i8]],
    prices_a: &'a [(i8, u8)],
    prices_b: &'a [(i8, u8)],
    points: &'a [(u8, u8)],
}

fn expect_points<J: Judge>(rt: &impl Abort, watched: &mut Watched<J>, points: &[(u8, u8)]) {
    for point in points {
        assert_eq!(rt; watched.planner.step(), Some(*point));
    }
    assert_eq!(rt; watched.planner.step(), None);
    assert_eq!(rt; watched.planner.step(), None);
}

// The points of a design, written out, and then once more beside the sweep.
fn expect_list(rt: &impl Abort, heap: Global, sample: Sample<'_>) -> Result<(), Fail> {
    let draft = Draft::new(heap, check_sizes(sample.choices, 64, 1024)?, sample.choices);
    let mut watched = Watched::<Plain<Hours, Needles>>::plain(draft, Tally::default())?;
    watched.enter_rules(rt, sample.rules)?;
    watched.enter_prices(rt, Cost::A, sample.prices_a)?;
    watched.enter_prices(rt, Cost::B, sample.prices_b)?;
    assert_eq!(rt; watched.model.tally.refused, 0);
    expect_points(rt, &mut watched, sample.points);
    watched.restart();
    watched.list_all(rt)?;
    assert_eq!(rt; watched.model.listed.len(), sample.points.len());
    Ok(())
}

#[test]
fn one_of_two_is_made(rt: HostRuntime) -> Result<(), Fail> {
    let sample = Sample {
        choices: 2,
        rules: &[&[1, 2]],
        prices_a: &[(1, 3), (2, 1)],
        prices_b: &[(1, 2), (2, 5)],
        points: &[(1, 5), (3, 2)],
    };
    expect_list(&rt, rt.alloc(), sample)
}

#[test]
fn impossible_rules_leave_nothing(rt: HostRuntime) -> Result<(), Fail> {
    let empty = Sample {
        choices: 1,
        rules: &[&[]],
        prices_a: &[],
        prices_b: &[],
        points: &[],
    };
    let opposed = Sample {
        rules: &[&[1], &[-1]],
        ..empty
    };
    expect_list(&rt, rt.alloc(), empty)?;
    expect_list(&rt, rt.alloc(), opposed)
}

#[test]
fn of_one_cost_a_the_least_cost_b_is_listed(rt: HostRuntime) -> Result<(), Fail> {
    let sample = Sample {
        choices: 2,
        rules: &[&[1, 2], &[-1, -2]],
        prices_a: &[(1, 1), (2, 1)],
        prices_b: &[(1, 5), (2, 4)],
        points: &[(1, 4)],
    };
    expect_list(&rt, rt.alloc(), sample)
}

#[test]
fn a_free_choice_costs_nothing(rt: HostRuntime) -> Result<(), Fail> {
    let sample = Sample {
        choices: 1,
        rules: &[],
        prices_a: &[],
        prices_b: &[],
        points: &[(0, 0)],
    };
    expect_list(&rt, rt.alloc(), sample)
}

#[test]
fn a_choice_may_cost_unmade(rt: HostRuntime) -> Result<(), Fail> {
    let sample = Sample {
        choices: 1,
        rules: &[],
        prices_a: &[(-1, 2)],
        prices_b: &[(1, 3)],
        points: &[(0, 3), (2, 0)],
    };
    expect_list(&rt, rt.alloc(), sample)
}
