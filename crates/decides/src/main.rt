// Decisions on clauses that come in bytes, for benchmarks and for tests from outside. On standard
// input: the kind of solver, 1 for stepping and 2 for settling; M in two bytes, low byte first, as
// all numbers here; the number of clauses, and of each the number of its marks in one byte and the
// marks; the number of assumptions and their marks; and how often the question is put. The answer is
// "no", or "yes" with how many choices are taken and the sum of their numbers.
#![tactic(auto)]

use anyhow::anyhow;
use deciding::{Kind, Search};
use design::SolverFault;
use inputs::Input;
use settling::BySettling;
use solver::Solver;
use std::alloc::Global;
use std::io;
use std::io::Read;
use stepping::ByStepping;
use store::check_store;

fn read_clause<S: Solver>(input: &mut Input<'_>, solver: &mut S) -> Result<(), SolverFault> {
    let count = usize::from(input.byte()).min(8);
    let mut marks = [0i16; 8];
    for mark in marks[..count].iter_mut() {
        *mark = input.number().cast_signed();
    }
    solver.clause(&marks[..count])
}

fn read_clauses<S: Solver>(input: &mut Input<'_>, solver: &mut S) -> Result<(), SolverFault> {
    for _ in 0..input.number() {
        read_clause(input, solver)?;
    }
    Ok(())
}

// How many choices are taken in the held setting, and the sum of their numbers.
fn taken_sum<S: Solver>(solver: &S) -> (u32, u32) {
    let (choices, _) = solver.size();
    (1..=choices)
        .filter(|choice| solver.taken(*choice) == Ok(true))
        .fold((0u32, 0u32), |(count, sum), choice| {
            (
                count.saturating_add(1),
                sum.saturating_add(u32::from(choice)),
            )
        })
}

// The answer to the last of some questions.
fn decide_often<S: Solver>(
    solver: &mut S,
    assumptions: &[i16],
    times: u16,
) -> Result<Option<bool>, SolverFault> {
    let mut answer = None;
    for _ in 0..times {
        answer = Some(solver.decide(assumptions)?);
    }
    Ok(answer)
}

fn answer<S: Solver + Drop>(
    rt: &HostRuntime,
    input: &mut Input<'_>,
    mut solver: S,
) -> anyhow::Result<()> {
    read_clauses(input, &mut solver).map_err(|_| anyhow!("a clause is refused"))?;
    let count = input.number();
    let assumptions: Vec<i16> = (0..count)
        .map(|_| input.number().cast_signed())
        .collect(rt.alloc())?;
    let answer = decide_often(&mut solver, &assumptions, input.number());
    match answer.map_err(|_| anyhow!("an assumption is refused"))? {
        None => {}
        Some(false) => println!(rt; "no")?,
        Some(true) => {
            let (count, sum) = taken_sum(&solver);
            println!(rt; "yes {count} {sum}")?;
        }
    }
    Ok(())
}

// A solver of a kind, with room for as many numbers as the input can bring.
fn run_kind<S: Search>(rt: &HostRuntime, room: usize, input: &mut Input<'_>) -> anyhow::Result<()> {
    let choices = input.number();
    let size = room.saturating_add(usize::from(choices).saturating_mul(4));
    let mut memory = vec![in rt.alloc(); 0i16; size]?;
    let cells = memory.as_mut_slice();
    let sizes = check_store(choices, room, cells).map_err(|_| anyhow!("M is out of range"))?;
    let solver: Kind<S> = Kind::new(sizes, cells);
    answer(rt, input, solver)
}

fn main(rt: HostRuntime) -> anyhow::Result<()> {
    let mut bytes = Vec::new(rt.alloc());
    rt.stdin().read_to_end(&mut bytes)?;
    let mut input = Input { rest: &bytes };
    match input.byte() {
        1 => run_kind::<ByStepping>(&rt, bytes.len(), &mut input),
        _ => run_kind::<BySettling>(&rt, bytes.len(), &mut input),
    }
}
