// Links that each find halves: every second vertex on the way comes to link to the one after its next.
use super::links::{Links, Way};
use super::table::Table;

// Halving makes the way about half as long.
#[derive(Drop)]
pub struct Halving;

// Sets by links that each find halves.
pub type HalvedLinks<'a> = Links<'a, Halving>;

impl Way for Halving {
    fn end(table: &mut Table<'_>, v: u32) -> u32 {
        let mut at = v;
        while table.get(at) != at {
            let next = table.get(table.get(at));
            table.put(at, next);
            at = next;
        }
        at
    }
}
