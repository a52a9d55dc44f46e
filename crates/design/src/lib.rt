// The subject's words: marks, rules, prices, costs, plans and points, and the faults of judges and
// solvers.
// The definitions stand in specs/; the code here is what every layer shares of them.
#![tactic(auto)]

mod fault;
mod mark;
mod price;

pub use fault::{JudgeFault, Layer, SolverFault};
pub use mark::{Mark, all_named, choice_bit, is_named, is_true};
pub use price::Price;
