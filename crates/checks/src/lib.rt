// Judges against a full sweep: random designs, a sweep of all settings
// that shares no code with a judge, and the comparison of the two, for any judge.
#![tactic(auto)]

pub mod draft;
pub mod drive;
mod fill;
pub mod random;
pub mod sweep;
