ghost use Rattle.std.specs.Prelude.{◌≡◌, ◌+◌, ◌≤◌, true, length, take};
ghost use Rattle.design.specs.Mark.{all_are_named};
ghost use Rattle.solver.specs.Setting.{clauses_named};
ghost use Rattle.store.specs.Coding.{clauses_in};
ghost use Rattle.values.specs.Partial.{opens};

use store::Clauses;

// A partial assignment on the way of a search: the clauses, a value for each choice, and the trail, of
// which the first `top` numbers are the marks of choices that were given a value, in order. There is
// room on it for each choice that is open.
#[derive(Drop)]
pub struct Assignment<'a> {
    pub clauses: Clauses<'a>,
    pub trail: &'a mut [i16],
    pub values: &'a mut [i16],
    pub top: usize,
    ghost few: { length values.now ≤ 32767 },
    ghost named: { clauses_named (length values.now) (clauses_in clauses.cells.now) ≡ true },
    ghost marks: { all_are_named (length values.now) (take top trail.now) ≡ true },
    ghost room: { top + opens values.now ≤ length trail.now },
}

// Some clause has no mark that can still be true.
#[derive(Clone, Copy, PartialEq, Eq, Debug)]
pub struct Clash;
