// The stepping solver: it goes through the choices in number order and tests each clause once it is
// decided, that is, once its highest choice has a value.
#![tactic(auto)]

mod walk;

use deciding::{Kind, Search};
use sweeping::Assignment;
use walk::step;

// The way of searching, by one choice after the other.
pub struct ByStepping;

impl Search for ByStepping {
    fn search(assignment: &mut Assignment<'_>) -> bool {
        step(assignment, 0)
    }
}

pub type Stepping<'a> = Kind<'a, ByStepping>;
