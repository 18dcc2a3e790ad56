// A run: the making of one model and then any list of calls to it, carried out and answered one by one.
#![tactic(auto)]

pub mod calls;
pub mod lending;
pub mod performing;
pub mod running;
pub mod sinks;

pub use calls::{Call, Question, Reply};
pub use lending::{LentSets, NoSets, With};
pub use performing::perform;
pub use running::{Done, Run, run_both};
pub use sinks::Replies;
