// Two more scales, for tests: one whose join skips places, so that no code is shaped around hours and
// needles, and one that adds up to the highest top.
#![tactic(auto)]

mod scale;

pub use scale::{Points, SkipCount, Skips, Sum200};
