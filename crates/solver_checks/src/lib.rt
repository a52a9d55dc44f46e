// Solvers of any kind beside a full sweep over all settings, which shares no code with them: tests
// alone.
#![tactic(auto)]

#[cfg(test)]
mod drill;
#[cfg(test)]
mod tests;
