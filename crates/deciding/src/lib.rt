// Every kind of solver over a lent store: assumptions become values, the kind's own search runs, and
// a setting that it finds is held.
#![tactic(auto)]

mod kind;
mod search;

ghost use Rattle.std.specs.Prelude.{◌≡◌, ℕ, ◌+◌, ◌*◌, ◌≤◌, true, length};
ghost use Rattle.design.specs.Mark.{all_are_named};
ghost use Rattle.solver.specs.Setting.{clauses_named};
ghost use Rattle.solver.specs.State.{blank};
ghost use Rattle.solver.specs.Calls.{store_needed};
ghost use Rattle.store.specs.Coding.{clauses_in};
ghost use Rattle.store.specs.Parts.{Stored};
ghost use Rattle.deciding.specs.Held.{kind_meaning, kept_of};
ghost use Rattle.deciding.specs.Concluding.{Answered, Concluded};

use assuming::prepare;
use design::SolverFault;
pub use kind::Kind;
pub use search::Search;
use solver::{Solver, all_named, check_clause};
use std::marker::PhantomData;
use store::{Clauses, Sizes, Store};
use sweeping::Assignment;

// Assumptions, the search and, where it finds one, the setting held.
fn decide_over<S: Search>(
    clauses: Clauses<'_>,
    held: &mut [i16],
    trail: &mut [i16],
    values: &mut [i16],
    assumptions: &[i16],
) -> bool
    requires few { length values.old ≤ 32767 }
    requires held { length held.old ≡ length values.old }
    requires trail { length values.old ≤ length trail.old }
    requires clauses { clauses_named (length values.old) (clauses_in clauses.cells.now) ≡ true }
    requires assumptions { all_are_named (length values.old) assumptions.now ≡ true }
    ensures { Answered (clauses_in clauses.entry.cells.now) assumptions.now held.old held.new result }
{
    if !prepare(values, assumptions) {
        return false;
    }
    let mut assignment = Assignment {
        clauses,
        trail,
        values,
        top: 0,
    };
    if !S::search(&mut assignment) {
        return false;
    }
    let Assignment { values, .. } = assignment;
    held.copy_from_slice(values);
    true
}

// The same, over the parts of a store.
fn decide_in<S: Search>(
    cells: &mut [i16],
    used: usize,
    choices: usize,
    room: usize,
    assumptions: &[i16],
) -> bool
    requires stored { Stored cells.old used choices room }
    requires named { all_are_named choices assumptions.now ≡ true }
    ensures { Concluded cells.old used choices room assumptions.now cells.new result }
{
    let (clauses, rest) = cells.split_at_mut(room);
    let (held, rest) = rest.split_at_mut(choices);
    let (trail, rest) = rest.split_at_mut(choices);
    let clauses = Clauses {
        cells: &clauses[..used],
    };
    decide_over::<S>(clauses, held, trail, &mut rest[..choices], assumptions)
}

// The same, of a store with its clauses.
fn decide_by<S: Search>(
    store: &mut Store<'_>,
    choices: u16,
    room: usize,
    assumptions: &[i16],
) -> bool
    requires stored { Stored store.old.cells.now store.old.used choices room }
    requires named { all_are_named choices assumptions.now ≡ true }
    ensures used { store.new.used ≡ store.old.used }
    ensures answer { Concluded store.old.cells.now store.old.used choices room assumptions.now store.new.cells.now result }
{
    decide_in::<S>(store.cells, store.used, choices as usize, room, assumptions)
}

impl<'a, S> Kind<'a, S> {
    // No clauses, and every choice left. The store was checked, so the making cannot fail.
    pub fn new(sizes: Sizes, cells: &'a mut [i16]) -> Kind<'a, S>
        requires { store_needed sizes.choices sizes.room ≤ length cells.old }
        ensures { kind_meaning result ≡ blank sizes.choices sizes.room }
    {
        let choices = sizes.choices;
        let room = sizes.room;
        cells[room..room + choices as usize].fill(0);
        Kind {
            store: Store { cells, used: 0 },
            choices,
            room,
            search: PhantomData,
        }
    }
}

impl<'a, S: Search> Solver for Kind<'a, S> {
    ghost meaning = { λ s. kind_meaning s };

    ghost kept = { λ s. kept_of s };

    fn clear(&mut self) {
        self.store.used = 0;
    }

    fn clause(&mut self, marks: &[i16]) -> Result<(), SolverFault> {
        check_clause(self.choices, self.room, self.store.used, marks)?;
        self.store.put(marks);
        Ok(())
    }

    fn decide(&mut self, assumptions: &[i16]) -> Result<bool, SolverFault> {
        let choices = self.choices;
        if !all_named(assumptions, choices) {
            return Err(SolverFault::BadMark);
        }
        let room = self.room;
        Ok(decide_by::<S>(&mut self.store, choices, room, assumptions))
    }

    fn taken(&self, choice: u16) -> Result<bool, SolverFault> {
        if choice == 0 || choice > self.choices {
            return Err(SolverFault::BadMark);
        }
        Ok(self.store.cells[self.room + choice as usize - 1] > 0)
    }

    fn size(&self) -> (u16, usize) {
        (self.choices, self.room)
    }
}
