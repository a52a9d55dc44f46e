use checks::draft::Draft;
use checks::drive::Trial;
use checks::random::Random;
use checks::sweep::Sweep;
use deciding::{Kind, Search};
use judge::{Judge, Sizes, check_sizes};
use layers::{Limit, Swap};
use plain::Room;
use planner::{ListRoom, Planner};
use scales::{Hours, Needles, Scale};
use settling::BySettling;
use solver::Solver;
use std::alloc::{AllocError, Global};
use std::process::Abort;
use std::test::Fail;
use stepping::ByStepping;
use store::check_store;
use test_scales::Skips;
use tree::{Tree, check_tree, choices_needed, room_needed};

// Steps through the points that no plan beats, and to the end of the list. It stands here, since
// `checks` is below the planner.
fn expect_front<J: Judge + Drop>(rt: &impl Abort, trial: Trial<J>) -> Result<(), Fail> {
    let Trial { judge, draft } = trial;
    let front = Sweep::of::<J::CostA, J::CostB>(&draft)?.front(draft.heap)?;
    let mut planner = Planner::new(judge, ListRoom::new(draft.heap)?);
    for point in front.as_slice() {
        assert_eq!(rt; planner.step(), Some(*point));
    }
    assert_eq!(rt; planner.step(), None);
    Ok(())
}

// A judge at every pair of bounds, first empty and then filled, and its whole list.
fn compare_judge<J: Judge + Drop>(
    rt: &impl Abort,
    mut trial: Trial<J>,
    random: &mut Random,
) -> Result<(), Fail> {
    if random.once_in(4) {
        trial.compare(random)?;
    }
    trial.fill_and_compare(random)?;
    if random.once_in(4) {
        trial.provoke(random)?;
    }
    expect_front(rt, trial)
}

// The tree alone, and with its costs exchanged and limited.
fn compare_tree<A: Scale, B: Scale, S: Solver + Drop>(
    rt: &impl Abort,
    solver: S,
    sizes: Sizes,
    heap: Global,
    random: &mut Random,
) -> Result<(), Fail> {
    let tree: Tree<A, B, S> = Tree::new(Room::new(heap)?, sizes, solver);
    let mut draft = Draft::new(heap, sizes, sizes.choices);
    if random.once_in(3) {
        let limit = random.below(B::TOP);
        draft.limit_a = limit;
        let pile = Limit::new(Swap::new(tree), limit, 255);
        return compare_judge(rt, Trial::new(pile, draft), random);
    }
    compare_judge(rt, Trial::new(tree, draft), random)
}

// What a solver of M choices and K numbers stands in.
fn memory_of(heap: Global, choices: u16, numbers: usize) -> Result<Vec<i16>, AllocError> {
    let length = numbers.saturating_add(usize::from(choices).saturating_mul(4));
    Ok(vec![in heap; 0i16; length]?)
}

fn compare_sizes<A: Scale, B: Scale, K: Search>(
    rt: &impl Abort,
    sizes: Sizes,
    heap: Global,
    random: &mut Random,
) -> Result<(), Fail> {
    let needed = choices_needed::<A, B>(sizes);
    let numbers = room_needed::<A, B>(sizes);
    let mut memory = memory_of(heap, needed, numbers)?;
    let cells = memory.as_mut_slice();
    let lent = check_store(needed, numbers, cells)?;
    let solver: Kind<K> = Kind::new(lent, cells);
    compare_tree::<A, B, Kind<K>>(rt, solver, sizes, heap, random)
}

// Random designs of up to `most` choices and up to `prices` prices in each cost.
fn designs<A: Scale, B: Scale, K: Search>(
    rt: &impl Abort,
    heap: Global,
    seed: u64,
    count: u8,
    most: u8,
    prices: u8,
) -> Result<(), Fail> {
    let mut random = Random::new(seed);
    for k in 0..count {
        let choices = random.below(most).saturating_add(1);
        let price_room = (k % prices.max(1)).saturating_add(1);
        let sizes = check_sizes(choices, price_room, 60)?;
        compare_sizes::<A, B, K>(rt, sizes, heap, &mut random)?;
    }
    Ok(())
}

#[test]
fn settling_agrees_with_the_sweep(rt: HostRuntime) -> Result<(), Fail> {
    let heap = rt.alloc();
    designs::<Skips, Skips, BySettling>(&rt, heap, 71, 120, 8, 6)?;
    designs::<Needles, Skips, BySettling>(&rt, heap, 72, 12, 8, 6)?;
    designs::<Hours, Needles, BySettling>(&rt, heap, 73, 6, 8, 6)
}

// Stepping tries the extra choices one by one and cannot do with many of them.
#[test]
fn stepping_agrees_with_the_sweep(rt: HostRuntime) -> Result<(), Fail> {
    let heap = rt.alloc();
    designs::<Skips, Skips, ByStepping>(&rt, heap, 74, 30, 5, 3)?;
    designs::<Hours, Needles, ByStepping>(&rt, heap, 75, 4, 5, 2)
}

// The refusal of a tree's making, if any, on a solver of the given M and K.
fn refused_by<S: Solver + Drop>(solver: S, sizes: (u8, u8, u16)) -> Option<(u8, &'static str)> {
    let (choices, price_room, rule_room) = sizes;
    let made = check_tree::<Hours, Needles, S>(choices, price_room, rule_room, &solver);
    made.err()
        .map(|fault| (fault.number(), fault.layer().name()))
}

// The published number is what the test holds.
fn expect_making(
    rt: &impl Abort,
    heap: Global,
    choices: u16,
    room: usize,
    sizes: (u8, u8, u16),
    owed: Option<(u8, &'static str)>,
) -> Result<(), Fail> {
    let mut memory = memory_of(heap, choices, room)?;
    let cells = memory.as_mut_slice();
    let lent = check_store(choices, room, cells)?;
    let solver: Kind<BySettling> = Kind::new(lent, cells);
    assert_eq!(rt; refused_by(solver, sizes), owed);
    Ok(())
}

#[test]
fn makings_have_edges(rt: HostRuntime) -> Result<(), Fail> {
    let heap = rt.alloc();
    expect_making(&rt, heap, 256, 28672, (64, 4, 1024), None)?;
    expect_making(&rt, heap, 255, 28672, (64, 4, 1024), Some((7, "solver")))?;
    expect_making(&rt, heap, 256, 28671, (64, 4, 1024), Some((7, "solver")))?;
    expect_making(&rt, heap, 256, 28672, (65, 4, 1024), Some((5, "judge")))?;
    expect_making(&rt, heap, 256, 28672, (64, 65, 1024), Some((6, "judge")))?;
    expect_making(&rt, heap, 256, 28672, (64, 5, 1024), Some((7, "solver")))?;
    expect_making(&rt, heap, 64, 1024, (64, 1, 1024), None)
}
