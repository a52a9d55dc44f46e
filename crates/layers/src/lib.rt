// Layers: judges over any judge, held by value. They stack in any order and number, and each has the
// meaning below it with one thing changed: the limits lowered, or the two costs exchanged.
#![tactic(auto)]

mod limit;
mod swap;

pub use limit::Limit;
pub use swap::{Swap, swap_twice};
