// A job on a planner: what each command does and answers. It is one text for every way to make a judge.
#![tactic(auto)]

mod commands;
mod drive;
mod fault;
mod line;
mod maker;
mod stage;
mod word;

pub use commands::perform;
pub use drive::{check_length, run_job};
pub use fault::JobFault;
pub use line::Line;
pub use maker::{Maker, Unmade};
pub use stage::Stage;
