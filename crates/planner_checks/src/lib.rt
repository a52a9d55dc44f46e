// The planner on the plain judge against the full sweep: tests alone.
#![tactic(auto)]

#[cfg(test)]
mod draws;
#[cfg(test)]
mod model;
#[cfg(test)]
mod samples;
#[cfg(test)]
mod tests;
#[cfg(test)]
mod turns;
#[cfg(test)]
mod whole;
