// A model: a pattern of some order, its entries put and dropped one by one, and its analysis. Every call either
// answers or is refused, and a refused call changes nothing.
#![tactic(auto)]

mod analysing;
mod changes;
mod columns;
mod judges;
mod making;
mod models;
mod numbers;
mod pairs;
mod questions;
mod reading;
mod refusals;
mod stores;
mod structure;
#[cfg(test)]
mod tests;

pub use analysis::records::{Entry, Vertex};
pub use columns::{Columns, columns_read_back};
pub use making::{LARGEST_ORDER, judge, make};
pub use models::Model;
pub use reading::MOST_ENTRIES;
pub use refusals::{Refusal, Side};
