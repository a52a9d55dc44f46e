// The settling solver: it gives a value to the last open mark of each clause, sweep after sweep, and
// tries both values of an open choice where nothing more follows.
#![tactic(auto)]

mod search;

use deciding::{Kind, Search};
use search::settle;
use sweeping::Assignment;

// The way of searching, by settling and trials.
pub struct BySettling;

impl Search for BySettling {
    fn search(assignment: &mut Assignment<'_>) -> bool {
        settle(assignment)
    }
}

pub type Settling<'a> = Kind<'a, BySettling>;
