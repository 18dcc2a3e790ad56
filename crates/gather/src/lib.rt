// Joining values up a forest of vertex records. An inner room: its calls may require.
#![tactic(auto)]

pub mod gathering;
pub mod joining;
pub mod kinds;
#[cfg(test)]
mod tests;
