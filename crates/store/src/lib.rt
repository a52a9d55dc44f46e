// The store that a solver is lent: clauses, the held setting, a trail and values in one slice of
// numbers, the writing of clauses into it and their reading.
#![tactic(auto)]

mod clauses;
mod sizes;
mod store;

ghost use Rattle.std.specs.Prelude.{length};
ghost use Rattle.store.specs.Checking.{Checked};

pub use clauses::Clauses;
use design::SolverFault;
pub use sizes::Sizes;
use solver::check_making;
pub use store::{Store, marks_at};

// The checking call of a making. It only reads the store, so a refusal leaves it as it was.
pub fn check_store(choices: u16, room: usize, cells: &[i16]) -> Result<Sizes, SolverFault>
    ensures { Checked choices room (length cells.now) result }
{
    check_making(choices, room, cells.len())?;
    Ok(Sizes { choices, room })
}
