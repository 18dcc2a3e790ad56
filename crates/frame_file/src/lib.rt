// The run of a frame file: its lines in order, each carried out on a model and answered by a block of 32 bytes.
#![tactic(auto)]

pub mod faults;
pub mod listing;
pub mod runs;
pub mod sinks;
pub mod states;

pub use faults::RunFault;
pub use runs::{answer_line, run_file};
pub use sinks::{Answers, Listing};
pub use states::RunState;

#[cfg(test)]
mod tests;
