// The tree on both solvers against the full sweep: tests alone.
#![tactic(auto)]

#[cfg(test)]
mod tests;
