use checks::draft::Draft;
use checks::drive::Trial;
use checks::random::Random;
use checks::sweep::Sweep;
use judge::{Judge, check_sizes};
use layers::{Limit, Swap, swap_twice};
use plain::{Plain, Room};
use planner::{ListRoom, Planner};
use scales::{Hours, Needles, Scale};
use std::alloc::Global;
use std::process::Abort;
use std::test::Fail;
use test_scales::Skips;

// A limit: mostly a place of the scale, sometimes its top or above it.
fn draw_limit<S: Scale>(random: &mut Random) -> u8 {
    match random.below(8) {
        0 => 255,
        1 => S::TOP,
        2 => S::TOP.saturating_add(1),
        _ => random.below(S::TOP),
    }
}

// Steps through the points of a list and to its end. It stands here, since `checks` is below the
// planner.
fn expect_points<J: Judge + Drop>(
    rt: &impl Abort,
    heap: Global,
    judge: J,
    points: &[(u8, u8)],
) -> Result<(), Fail> {
    let mut planner = Planner::new(judge, ListRoom::new(heap)?);
    for point in points {
        assert_eq!(rt; planner.step(), Some(*point));
    }
    assert_eq!(rt; planner.step(), None);
    Ok(())
}

// A pile holds against the sweep in all that it answers, refusals too, and in what it lists.
fn compare_pile<J: Judge + Drop>(
    rt: &impl Abort,
    pile: J,
    draft: Draft,
    random: &mut Random,
) -> Result<(), Fail> {
    let mut trial = Trial::new(pile, draft);
    trial.fill_and_compare(random)?;
    if random.once_in(8) {
        trial.provoke(random)?;
    }
    let Trial { judge, draft } = trial;
    let front = Sweep::of::<J::CostA, J::CostB>(&draft)?.front(draft.heap)?;
    expect_points(rt, draft.heap, judge, front.as_slice())
}

// An empty plain judge of up to 7 choices, beside a draft with the limits that its pile comes to.
// The pile is made by the caller: a closure that makes it is not covered by the borrow checker.
fn drawn<A: Scale, B: Scale>(
    heap: Global,
    random: &mut Random,
    limits: (u8, u8),
) -> Result<(Plain<A, B>, Draft), Fail> {
    let choices = random.below(7).saturating_add(1);
    let mut draft = Draft::new(heap, check_sizes(choices, 64, 1024)?, choices);
    (draft.limit_a, draft.limit_b) = limits;
    Ok((draft.plain()?, draft))
}

// One layer.
fn single<A: Scale, B: Scale>(
    rt: &impl Abort,
    heap: Global,
    random: &mut Random,
) -> Result<(), Fail> {
    let (a, b) = (draw_limit::<A>(random), draw_limit::<B>(random));
    let (judge, draft) = drawn::<A, B>(heap, random, (a, b))?;
    compare_pile(rt, Limit::new(judge, a, b), draft, random)?;
    let (judge, draft) = drawn::<A, B>(heap, random, (255, 255))?;
    compare_pile(rt, Swap::new(judge), draft, random)
}

// Two: limits in either order of the exchange, and two limits.
fn double<A: Scale, B: Scale>(
    rt: &impl Abort,
    heap: Global,
    random: &mut Random,
) -> Result<(), Fail> {
    let (a, b) = (draw_limit::<A>(random), draw_limit::<B>(random));
    let (judge, draft) = drawn::<A, B>(heap, random, (b, a))?;
    compare_pile(rt, Swap::new(Limit::new(judge, a, b)), draft, random)?;
    let (judge, draft) = drawn::<A, B>(heap, random, (b, a))?;
    compare_pile(rt, Limit::new(Swap::new(judge), b, a), draft, random)?;
    let (c, d) = (draw_limit::<A>(random), draw_limit::<B>(random));
    let (judge, draft) = drawn::<A, B>(heap, random, (a.min(c), b.min(d)))?;
    let pile = Limit::new(Limit::new(judge, a, b), c, d);
    compare_pile(rt, pile, draft, random)
}

// Three and more.
fn higher<A: Scale, B: Scale>(
    rt: &impl Abort,
    heap: Global,
    random: &mut Random,
) -> Result<(), Fail> {
    let (a, b) = (draw_limit::<A>(random), draw_limit::<B>(random));
    let (c, d) = (draw_limit::<A>(random), draw_limit::<B>(random));
    let (judge, draft) = drawn::<A, B>(heap, random, (b.min(d), a.min(c)))?;
    let pile = Limit::new(Swap::new(Limit::new(judge, a, b)), d, c);
    compare_pile(rt, pile, draft, random)?;
    let (judge, draft) = drawn::<A, B>(heap, random, (a.min(c), b.min(d)))?;
    let inner = Limit::new(Swap::new(Limit::new(judge, a, b)), d, c);
    compare_pile(rt, Swap::new(inner), draft, random)?;
    let (judge, draft) = drawn::<A, B>(heap, random, (a, b))?;
    compare_pile(rt, swap_twice(Limit::new(judge, a, b)), draft, random)
}

fn piles<A: Scale, B: Scale>(
    rt: &impl Abort,
    heap: Global,
    seed: u64,
    count: u8,
) -> Result<(), Fail> {
    let mut random = Random::new(seed);
    for _ in 0..count {
        single::<A, B>(rt, heap, &mut random)?;
        double::<A, B>(rt, heap, &mut random)?;
        higher::<A, B>(rt, heap, &mut random)?;
    }
    Ok(())
}

#[test]
fn piles_agree_with_the_sweep(rt: HostRuntime) -> Result<(), Fail> {
    let heap = rt.alloc();
    piles::<Hours, Needles>(&rt, heap, 61, 20)?;
    piles::<Needles, Skips>(&rt, heap, 62, 40)?;
    piles::<Skips, Hours>(&rt, heap, 63, 40)?;
    piles::<Skips, Skips>(&rt, heap, 64, 60)
}

// One of two choices is to be taken.
fn enter<J: Judge>(rt: &impl Abort, judge: &mut J) {
    assert!(rt; judge.rule(&[1, 2]).is_ok());
    for (mark, place) in [(1, 3), (2, 1)] {
        assert!(rt; judge.price_a(mark, place).is_ok());
    }
    for (mark, place) in [(1, 2), (2, 5)] {
        assert!(rt; judge.price_b(mark, place).is_ok());
    }
}

fn sample(rt: &impl Abort, heap: Global) -> Result<Plain<Hours, Needles>, Fail> {
    let mut judge = Plain::new(Room::new(heap)?, check_sizes(2, 4, 16)?);
    enter(rt, &mut judge);
    Ok(judge)
}

#[test]
fn samples_through_layers(rt: HostRuntime) -> Result<(), Fail> {
    let heap = rt.alloc();
    expect_points(&rt, heap, Limit::new(sample(&rt, heap)?, 2, 255), &[(1, 5)])?;
    expect_points(&rt, heap, Limit::new(sample(&rt, heap)?, 0, 255), &[])?;
    expect_points(
        &rt,
        heap,
        Limit::new(sample(&rt, heap)?, 3, 5),
        &[(1, 5), (3, 2)],
    )?;
    expect_points(&rt, heap, Limit::new(sample(&rt, heap)?, 3, 4), &[(3, 2)])?;
    expect_points(&rt, heap, Swap::new(sample(&rt, heap)?), &[(2, 3), (5, 1)])
}
