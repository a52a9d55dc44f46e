ghost use Rattle.std.specs.Prelude.{◌≡◌, ℕ, true, length};
ghost use Rattle.design.specs.Mark.{all_are_named};
ghost use Rattle.sweeping.specs.Trail.{values_in};
ghost use Rattle.stepping.specs.Steps.{highest, Breaks, Tested, Walked};
ghost use Rattle.deciding.specs.Search.{Searched};

use sweeping::Assignment;
use values::{State, place};

// The highest choice that a clause names, or 0.
fn highest(marks: &[i16]) -> usize
    ensures { result ≡ highest marks.now }
{
    match marks {
        [] => 0,
        [first, rest @ ..] => (place(*first) + 1).max(highest(rest)),
    }
}

// Whether a choice decides a clause, and the clause is broken.
fn breaks(assignment: &Assignment<'_>, choice: usize, marks: &[i16]) -> bool
    requires { all_are_named (length assignment.now.values.now) marks.now ≡ true }
    ensures { Breaks choice (values_in assignment.now) marks.now result }
{
    highest(marks) == choice && assignment.look(marks) == State::Broken
}

// Whether no clause that a choice decides is broken; where one is, no setting meets them all.
pub fn stands(assignment: &Assignment<'_>, choice: usize) -> bool
    ensures { Tested assignment.now choice result }
{
    for marks in assignment.clauses {
        if breaks(assignment, choice, marks) {
            return false;
        }
    }
    true
}

// Whether some setting keeps the values and meets every clause, where the first `count` choices have
// values. A no leaves the values as they were.
pub fn step(assignment: &mut Assignment<'_>, count: usize) -> bool
    requires { Walked assignment.old count }
    ensures { Searched assignment.old assignment.new result }
{
    if !stands(assignment, count) {
        return false;
    }
    if count == assignment.values.len() {
        return true;
    }
    if assignment.values[count] != 0 {
        return step(assignment, count + 1);
    }
    let base = assignment.top;
    let mark = (count + 1) as i16;
    assignment.set(mark, -1);
    if step(assignment, count + 1) {
        return true;
    }
    assignment.undo(base);
    assignment.set(mark, 1);
    if step(assignment, count + 1) {
        return true;
    }
    assignment.undo(base);
    false
}
