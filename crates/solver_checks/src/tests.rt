use crate::drill::drill_kind;
use deciding::{Kind, Search};
use design::SolverFault;
use settling::BySettling;
use solver::Solver;
use std::alloc::Global;
use stepping::ByStepping;
use store::{Sizes, check_store};

// The number of a refusal, or 0.
fn number<T: Drop>(answer: Result<T, SolverFault>) -> u8 {
    answer.err().map_or(0, SolverFault::number)
}

// M = 2 and K = 9, filled to the last number; then each refusal, in its order.
fn refuses<S: Solver + Drop>(mut solver: S) -> bool {
    let filled = number(solver.clause(&[1, 2])) == 0
        && number(solver.clause(&[-1, 2])) == 0
        && number(solver.clause(&[1, -2])) == 0;
    let full = number(solver.clause(&[])) == 13 && number(solver.clause(&[1, 2])) == 13;
    let bad = number(solver.clause(&[3])) == 10
        && number(solver.clause(&[0])) == 10
        && number(solver.clause(&[i16::MIN])) == 10
        && number(solver.decide(&[1, -3])) == 10
        && number(solver.taken(0)) == 10
        && number(solver.taken(3)) == 10;
    let long = number(solver.clause(&[3; 9])) == 9;
    filled && full && bad && long
}

// The clauses of `refuses` have one setting, and none with the fourth of their kind.
fn decides<S: Solver + Drop>(mut solver: S) -> Result<bool, SolverFault> {
    solver.clause(&[1, 2])?;
    solver.clause(&[-1, 2])?;
    solver.clause(&[1, -2])?;
    let both = solver.decide(&[])? && solver.taken(1)? && solver.taken(2)?;
    let not = !solver.decide(&[-1])? && solver.taken(1)?;
    let again = solver.decide(&[1, 2, 1])?;
    solver.clear();
    let clash = !solver.decide(&[1, -1])?;
    let left = solver.decide(&[-2])? && !solver.taken(2)?;
    Ok(both && not && again && clash && left)
}

fn refuses_by<K: Search>(cells: &mut [i16]) -> bool {
    let Ok(sizes) = check_store(2, 9, cells) else {
        return false;
    };
    let solver: Kind<'_, K> = Kind::new(sizes, cells);
    refuses(solver)
}

fn decides_by<K: Search>(cells: &mut [i16]) -> Result<bool, SolverFault> {
    let sizes: Sizes = check_store(2, 9, cells)?;
    let solver: Kind<'_, K> = Kind::new(sizes, cells);
    decides(solver)
}

#[test]
fn stores(rt: HostRuntime) {
    let cells = [0i16; 17];
    assert!(rt; number(check_store(3, 5, &cells)) == 0);
    assert!(rt; number(check_store(3, 5, &cells[0..16])) == 7);
    assert!(rt; number(check_store(3, usize::MAX, &cells)) == 7);
    assert!(rt; number(check_store(0, 5, &cells)) == 5);
    assert!(rt; number(check_store(32768, 5, &cells)) == 5);
}

#[test]
fn refusals_come_in_order(rt: HostRuntime) {
    let mut cells = [0i16; 17];
    assert!(rt; refuses_by::<BySettling>(&mut cells));
    assert!(rt; refuses_by::<ByStepping>(&mut cells));
}

#[test]
fn small_clauses_are_decided(rt: HostRuntime) {
    let mut cells = [0i16; 17];
    assert!(rt; decides_by::<BySettling>(&mut cells).unwrap_or(false));
    assert!(rt; decides_by::<ByStepping>(&mut cells).unwrap_or(false));
}

// In a store of exactly 4 × M + K numbers.
fn drilled<K: Search>(heap: Global, choices: u8) -> bool {
    let mut cells = [0i16; 208];
    let long = (4 * choices as usize + 160).min(208);
    drill_kind::<K>(heap, &mut cells[0..long], choices, 30).unwrap_or(false)
}

#[test]
fn both_kinds_agree_with_the_sweep(rt: HostRuntime) {
    for choices in 1..13u8 {
        assert!(rt; drilled::<BySettling>(rt.alloc(), choices));
        assert!(rt; drilled::<ByStepping>(rt.alloc(), choices));
    }
}
