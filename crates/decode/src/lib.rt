// Reads a job, which is a sequence of commands in bytes, one command at a time.
#![tactic(auto)]

mod command;
mod read;
#[cfg(test)]
mod tests;

pub use command::{Command, Spoilt};
pub use read::decode;
