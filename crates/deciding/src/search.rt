ghost use Rattle.deciding.specs.Search.{Searched};

use sweeping::Assignment;

// The way in which a kind of solver searches, which is all that kinds differ in.
pub trait Search {
    // Whether some setting keeps the values and meets every clause; a no leaves the values as they
    // were.
    fn search(assignment: &mut Assignment<'_>) -> bool
        ensures { Searched assignment.old assignment.new result };
}
