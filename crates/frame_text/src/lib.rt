// The frame file as bytes: lines, fields, records, what is wrong with a line, and the blocks of its answers.
#![tactic(auto)]

pub mod answers;
pub mod faults;
pub mod fields;
pub mod laws;
pub mod lines;
pub mod records;

pub use answers::Answer;
pub use faults::{FieldFault, LineFault, Report};
pub use fields::Field;
pub use lines::{FrameReader, Line};
pub use records::{Kind, NoKind, Question, Record};

#[cfg(test)]
mod tests;
