ghost use Rattle.std.specs.Prelude.{ℕ};
ghost use Rattle.sweeping.specs.Trail.{OpenIn};
ghost use Rattle.deciding.specs.Search.{Searched};

use sweeping::Assignment;
use values::{value_against, value_for};

// Whether some setting keeps the values and meets every clause; a no leaves the values as they were.
#[cycle(settle_try_choice)]
pub fn settle(assignment: &mut Assignment<'_>) -> bool
    ensures { Searched assignment.old assignment.new result }
{
    let base = assignment.top;
    match assignment.propagate() {
        Ok(None) => return true,
        Ok(Some(mark)) => {
            if try_choice(assignment, mark) {
                return true;
            }
        }
        Err(_) => {}
    }
    assignment.undo(base);
    false
}

// A trial of an open mark: first true, which meets its clause, then false.
#[cycle(settle_try_choice)]
fn try_choice(assignment: &mut Assignment<'_>, mark: i16) -> bool
    requires { OpenIn assignment.old mark }
    ensures { Searched assignment.old assignment.new result }
{
    let top = assignment.top;
    assignment.set(mark, value_for(mark));
    if settle(assignment) {
        return true;
    }
    assignment.undo(top);
    assignment.set(mark, value_against(mark));
    if settle(assignment) {
        return true;
    }
    assignment.undo(top);
    false
}
