// Views of one design: the list of a lace edging by hours, by needles and under limits, each from a
// whole run of the planner on a pile of layers over the plain judge, and the last over the tree too.
#![tactic(auto)]

mod pile;

use anyhow::anyhow;
use design::JudgeFault;
use edging::{HOURS, NEEDLES, RULES};
use judge::{Judge, Sizes, check_sizes};
use layers::{Limit, Swap};
use pile::run_pile;
use plain::{Plain, Room};
use planner::{Call, ListRoom, Outcome, Turn, run};
use scales::{Hours, Needles};
use settling::Settling;
use std::alloc::{AllocError, Global};
use std::io;
use store::check_store;
use tree::{Tree, choices_needed, room_needed};

fn enter<J: Judge>(judge: &mut J) -> Result<(), JudgeFault> {
    for marks in RULES {
        judge.rule(marks)?;
    }
    for (mark, place) in HOURS {
        judge.price_a(mark, place)?;
    }
    for (mark, place) in NEEDLES {
        judge.price_b(mark, place)?;
    }
    Ok(())
}

fn sizes() -> anyhow::Result<Sizes> {
    check_sizes(6, 6, 64).map_err(|_| anyhow!("the sizes are out of range"))
}

// A judge that was empty, with the edging.
fn entered<J: Judge + Drop>(mut judge: J) -> anyhow::Result<J> {
    enter(&mut judge).map_err(|_| anyhow!("an entry is refused"))?;
    Ok(judge)
}

// The edging on the plain judge.
fn edging(heap: Global) -> anyhow::Result<Plain<Hours, Needles>> {
    entered(Plain::new(Room::new(heap)?, sizes()?))
}

// Steps to the end of the longest list.
fn steps(heap: Global) -> Result<Vec<Turn>, AllocError> {
    let step = Turn {
        call: Call::Step,
        outcome: Ok(Outcome::Done),
    };
    vec![in heap; step; 202]
}

fn show(rt: &HostRuntime, turns: &[Turn]) -> io::Result<()> {
    for turn in turns {
        match turn.outcome {
            Ok(Outcome::Point(a, b)) => println!(rt; "  point {a} {b}")?,
            _ => return println!(rt; "  ended"),
        }
    }
    Ok(())
}

// The list that a run of the planner makes.
fn show_run<F: FnOnce(ListRoom, &mut [Turn])>(
    rt: &HostRuntime,
    heap: Global,
    play: F,
) -> anyhow::Result<()>
    requires { F.IsAlwaysCallable play }
{
    let mut turns = steps(heap)?;
    play(ListRoom::new(heap)?, turns.as_mut_slice());
    show(rt, turns.as_slice())?;
    Ok(())
}

fn show_list<J: Judge + Drop>(rt: &HostRuntime, heap: Global, judge: J) -> anyhow::Result<()> {
    show_run(rt, heap, |room, turns| {
        run(judge, room, turns);
    })
}

fn by_hours(rt: &HostRuntime, heap: Global) -> anyhow::Result<()> {
    println!(rt; "by hours")?;
    show_list(rt, heap, edging(heap)?)
}

fn by_needles(rt: &HostRuntime, heap: Global) -> anyhow::Result<()> {
    println!(rt; "by needles")?;
    show_list(rt, heap, Swap::new(edging(heap)?))
}

fn within(rt: &HostRuntime, heap: Global, hours: u8, needles: u8) -> anyhow::Result<()> {
    println!(rt; "by hours, within {hours} quarter hours and {needles} needles")?;
    show_list(rt, heap, Limit::new(edging(heap)?, hours, needles))
}

fn piled<J: Judge + Drop>(
    rt: &HostRuntime,
    heap: Global,
    judge: J,
    hours: u8,
    needles: u8,
) -> anyhow::Result<()> {
    println!(rt; "by needles, within {hours} quarter hours and then {needles} needles")?;
    show_run(rt, heap, |room, turns| {
        run_pile(judge, (hours, 255), (needles, 255), room, turns);
    })
}

// The same pile on the tree, over a solver with just the store that the tree needs.
fn piled_on_tree(rt: &HostRuntime, heap: Global) -> anyhow::Result<()> {
    let sizes = sizes()?;
    let needed = choices_needed::<Hours, Needles>(sizes);
    let numbers = room_needed::<Hours, Needles>(sizes);
    let length = numbers.saturating_add(usize::from(needed).saturating_mul(4));
    let mut memory = vec![in heap; 0i16; length]?;
    let cells = memory.as_mut_slice();
    let lent = check_store(needed, numbers, cells).map_err(|_| anyhow!("the store is too small"))?;
    let solver = Settling::new(lent, cells);
    let tree: Tree<Hours, Needles, Settling<'_>> = Tree::new(Room::new(heap)?, sizes, solver);
    piled(rt, heap, entered(tree)?, 12, 19)
}

fn main(rt: HostRuntime) -> anyhow::Result<()> {
    let heap = rt.alloc();
    by_hours(&rt, heap)?;
    by_needles(&rt, heap)?;
    within(&rt, heap, 10, 24)?;
    within(&rt, heap, 40, 9)?;
    piled(&rt, heap, edging(heap)?, 12, 19)?;
    println!(rt; "the same on the tree")?;
    piled_on_tree(&rt, heap)?;
    Ok(())
}
