// Seeks on a design that comes in bytes, for benchmarks and for tests from outside. On standard
// input: the judge, 1 for the tree on the stepping solver, 2 for the tree on the settling solver, else
// the plain one; Q; N; the number of rules in two bytes, low byte first, and of each rule the number of its
// marks and the marks; the number of prices in A and of each the mark and the place; the same for B;
// then to the end the bounds of a seek, two bytes, and how often it is put, one byte. Each is answered
// by a line: the bounds, and the word or "none".
#![tactic(auto)]

use anyhow::anyhow;
use deciding::{Kind, Search};
use inputs::{Input, answer_seeks, enter};
use judge::{Judge, Sizes, check_sizes};
use plain::{Plain, Room};
use scales::{Hours, Needles};
use settling::BySettling;
use std::io::Read;
use stepping::ByStepping;
use store::check_store;
use tree::{Tree, choices_needed, room_needed};

// A design on an empty judge, and the seeks.
fn run_on<J: Judge + Drop>(
    rt: &HostRuntime,
    input: &mut Input<'_>,
    mut judge: J,
) -> anyhow::Result<()> {
    enter(input, &mut judge).map_err(|_| anyhow!("a rule or a price is refused"))?;
    answer_seeks(rt, input, &mut judge)?;
    Ok(())
}

// The tree on a solver of a kind, with just the store that it needs.
fn run_kind<K: Search>(
    rt: &HostRuntime,
    input: &mut Input<'_>,
    sizes: Sizes,
) -> anyhow::Result<()> {
    let needed = choices_needed::<Hours, Needles>(sizes);
    let numbers = room_needed::<Hours, Needles>(sizes);
    let length = numbers.saturating_add(usize::from(needed).saturating_mul(4));
    let mut memory = vec![in rt.alloc(); 0i16; length]?;
    let cells = memory.as_mut_slice();
    let lent = check_store(needed, numbers, cells).map_err(|_| anyhow!("the store is too small"))?;
    let solver: Kind<'_, K> = Kind::new(lent, cells);
    let tree: Tree<Hours, Needles, Kind<'_, K>> = Tree::new(Room::new(rt.alloc())?, sizes, solver);
    run_on(rt, input, tree)
}

fn main(rt: HostRuntime) -> anyhow::Result<()> {
    let mut bytes = Vec::new(rt.alloc());
    rt.stdin().read_to_end(&mut bytes)?;
    let mut input = Input { rest: &bytes };
    let judge = input.byte();
    let price_room = input.byte();
    let sizes = check_sizes(input.byte(), price_room, 1024).map_err(|_| anyhow!(
        "N or Q is out of range"
    ))?;
    match judge {
        1 => run_kind::<ByStepping>(&rt, &mut input, sizes),
        2 => run_kind::<BySettling>(&rt, &mut input, sizes),
        _ => {
            let plain: Plain<Hours, Needles> = Plain::new(Room::new(rt.alloc())?, sizes);
            run_on(&rt, &mut input, plain)
        }
    }
}
