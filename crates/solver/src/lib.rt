// The solver: it keeps clauses over numbered choices and decides whether a setting meets them all
// under assumptions. Judges that write a design as clauses stand on any of its kinds.
#![tactic(auto)]

mod check;
mod mark;

ghost use Rattle.std.specs.Prelude.{◌≡◌};
ghost use Rattle.solver.specs.State.{Solving, Kept, cleared};
ghost use Rattle.solver.specs.Calls.{clause_answer, Appended, Decided, taken_answer};

pub use check::{check_clause, check_making};
use design::SolverFault;
pub use mark::{all_named, is_named};

pub trait Solver {
    ghost meaning: { Self → Solving };

    ghost kept: { (s : Self) → Kept (meaning s) };

    // Drops all clauses.
    fn clear(&mut self)
        ensures { meaning self.new ≡ cleared (meaning self.old) };

    // Appends a clause of 0 to 8 marks, or refuses.
    fn clause(&mut self, marks: &[i16]) -> Result<(), SolverFault>
        ensures answer { result ≡ clause_answer (meaning self.old) marks.now }
        ensures after { Appended meaning self.old marks.now result self.new };

    // Whether a setting meets every clause and makes the assumptions true; a yes holds one.
    fn decide(&mut self, assumptions: &[i16]) -> Result<bool, SolverFault>
        ensures { Decided meaning self.old assumptions.now result self.new };

    // Whether a choice is taken in the held setting.
    fn taken(&self, choice: u16) -> Result<bool, SolverFault>
        ensures { result ≡ taken_answer (meaning self.now) choice };

    // M, the number of choices, and K, the clause room.
    fn size(&self) -> (u16, usize)
        ensures choices { result.0 ≡ (meaning self.now).choices }
        ensures room { result.1 ≡ (meaning self.now).room };
}
