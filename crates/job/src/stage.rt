use crate::maker::Maker;
use planner::{ListRoom, Planner};

// Where a job stands: before an accepted set-up, with what a judge and a list are made of, or after.
#[derive(Drop)]
pub enum Stage<M: Maker> {
    Waiting(M, ListRoom),
    Working(Planner<M::Judge>),
}
