ghost use Rattle.std.specs.Prelude.{◌≡◌, ◌≤◌};
ghost use Rattle.design.specs.Fault.{refused_or};
ghost use Rattle.solver.specs.Calls.{making_fault};
ghost use Rattle.solver.specs.Checks.{clause_check};

use crate::mark::all_named;
use design::SolverFault;

// Whether a solver of M choices and clause room K can be made over a store of `long` numbers.
pub fn check_making(choices: u16, room: usize, long: usize) -> Result<(), SolverFault>
    ensures { result ≡ refused_or (making_fault choices room long) tt }
{
    if choices == 0 || choices > 32767 {
        return Err(SolverFault::Choices);
    }
    let settings = 4 * usize::from(choices);
    // Without the sum of both, which need not fit.
    if long < settings || long - settings < room {
        return Err(SolverFault::TooSmall);
    }
    Ok(())
}

// Whether a clause can be appended where `used` numbers of the clause room are taken.
pub fn check_clause(
    choices: u16,
    room: usize,
    used: usize,
    marks: &[i16],
) -> Result<(), SolverFault>
    requires { used ≤ room }
    ensures { result ≡ clause_check choices room used marks.now }
{
    if marks.len() > 8 {
        return Err(SolverFault::LongClause);
    }
    if !all_named(marks, choices) {
        return Err(SolverFault::BadMark);
    }
    if room - used <= marks.len() {
        return Err(SolverFault::Full);
    }
    Ok(())
}
