use checks::random::Random;
use deciding::{Kind, Search};
use design::SolverFault;
use solver::Solver;
use std::alloc::{AllocError, Global};
use store::check_store;

// Why a drill ends without an answer.
#[derive(Debug, Drop)]
pub(crate) enum Failure {
    Memory(AllocError),
    Refused(SolverFault),
}

impl From<AllocError> for Failure {
    fn from(fault: AllocError) -> Failure {
        Failure::Memory(fault)
    }
}

impl From<SolverFault> for Failure {
    fn from(fault: SolverFault) -> Failure {
        Failure::Refused(fault)
    }
}

// A clause, or assumptions, of at most three marks.
fn draw_marks(heap: Global, random: &mut Random, choices: u8) -> Result<Vec<i16>, AllocError> {
    let mut marks = vec![in heap; 0i16; 3]?;
    for mark in marks.iter_mut() {
        *mark = i16::from(random.mark(choices, choices));
    }
    marks.truncate(match random.below(32) {
        0 => 0,
        1..=5 => 1,
        6..=16 => 2,
        _ => 3,
    });
    Ok(marks)
}

// At most 40 clauses.
fn draw_clauses(
    heap: Global,
    random: &mut Random,
    choices: u8,
) -> Result<Vec<Vec<i16>>, AllocError> {
    let count = random.below(choices.min(8) * 5);
    (0..count)
        .map(|_| draw_marks(heap, random, choices))
        .try_collect(heap)
}

// Whether a mark is true where the word has choice n as bit n - 1.
fn is_true(word: u16, mark: i16) -> bool {
    let bit = u32::from(mark.unsigned_abs().saturating_sub(1)).min(15);
    ((word >> bit) & 1 == 1) == (mark > 0)
}

fn admits(word: u16, clauses: &[Vec<i16>], assumed: &[i16]) -> bool {
    let met = |marks: &Vec<i16>| marks.iter().any(|mark| is_true(word, *mark));
    clauses.iter().all(met) && assumed.iter().all(|mark| is_true(word, *mark))
}

// The full sweep.
fn exists(choices: u8, clauses: &[Vec<i16>], assumed: &[i16]) -> bool {
    (0..1u16 << choices.min(12)).any(|word| admits(word, clauses, assumed))
}

// The held setting, read choice by choice.
fn held<S: Solver>(solver: &S, choices: u8) -> Result<u16, SolverFault> {
    let mut word = 0;
    for n in 0..choices.min(12) {
        if solver.taken(u16::from(n) + 1)? {
            word |= 1u16 << n;
        }
    }
    Ok(word)
}

// One question to a solver, and whether all that it answers is right.
fn ask<S: Solver>(
    solver: &mut S,
    choices: u8,
    clauses: &[Vec<i16>],
    assumed: &[i16],
) -> Result<bool, SolverFault> {
    let before = held(solver, choices)?;
    let found = solver.decide(assumed)?;
    let after = held(solver, choices)?;
    let right = if found {
        admits(after, clauses, assumed)
    } else {
        before == after
    };
    Ok(right && found == exists(choices, clauses, assumed))
}

fn enter<S: Solver>(solver: &mut S, clauses: &[Vec<i16>]) -> Result<(), SolverFault> {
    solver.clear();
    for marks in clauses {
        solver.clause(marks)?;
    }
    Ok(())
}

// New clauses after a clear, and some questions.
fn round<S: Solver>(
    heap: Global,
    solver: &mut S,
    random: &mut Random,
    choices: u8,
) -> Result<bool, Failure> {
    let clauses = draw_clauses(heap, random, choices)?;
    enter(solver, &clauses)?;
    let mut right = true;
    for _ in 0..4 {
        let assumed = draw_marks(heap, random, choices)?;
        right &= ask(solver, choices, &clauses, &assumed)?;
    }
    Ok(right)
}

fn rounds<S: Solver + Drop>(
    heap: Global,
    mut solver: S,
    choices: u8,
    times: u8,
) -> Result<bool, Failure> {
    let mut random = Random::new(u64::from(choices));
    let mut right = true;
    for _ in 0..times {
        right &= round(heap, &mut solver, &mut random, choices)?;
    }
    Ok(right)
}

// A solver of the kind that searches by K, over the cells, beside the full sweep.
pub(crate) fn drill_kind<K: Search>(
    heap: Global,
    cells: &mut [i16],
    choices: u8,
    times: u8,
) -> Result<bool, Failure> {
    let sizes = check_store(u16::from(choices), 160, cells)?;
    let solver: Kind<'_, K> = Kind::new(sizes, cells);
    rounds(heap, solver, choices, times)
}
