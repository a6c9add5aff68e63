// The command line of `explain`: what its words ask for, and the program that does it.
#![tactic(auto)]

mod job;
mod program;
#[cfg(test)]
mod tests;

pub use program::explain;
