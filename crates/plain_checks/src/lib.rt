// The plain judge against the full sweep: tests alone.
#![tactic(auto)]

#[cfg(test)]
mod tests;
