// The finder: a design written whole into a solver, and its plans within two bounds found there.
#![tactic(auto)]

mod book;
mod decide;
mod held;

pub use book::{past_a, write_book, write_rule, write_rules};
pub use decide::decide_within;
pub use held::held_word;
