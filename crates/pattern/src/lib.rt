// The mathematics of elimination. An inner room: its functions only carry theorems; users are not meant to call them.
#![tactic(auto)]

mod counts;
mod fill;
mod frames;
mod postorder;

pub use counts::{column_counts_by_weights, row_counts_by_paths};
pub use fill::{
    below_is_paths, columns_by_children, fill_is_paths, more_entries_keep, rows_are_subtrees,
    total_by_rows,
};
pub use frames::worked_frames;
pub use postorder::{
    meeting_vertex_is_lowest, siblings_ascend, subtrees_are_intervals, walk_takes_each_once,
};
