// Bytes read one after another, and a design and seeks that come in them: for programs that benchmarks
// and tests from outside run.
#![tactic(auto)]

mod design_in;
mod input;

pub use design_in::{answer_seeks, enter};
pub use input::Input;
