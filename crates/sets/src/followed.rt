// Links that are followed to their end: the least code. A find may go through all that are in use.
use super::links::{Links, Way};
use super::table::Table;

// Following leaves the links as they are.
#[derive(Drop)]
pub struct Followed;

// Sets by links that are followed.
pub type FollowedLinks<'a> = Links<'a, Followed>;

impl Way for Followed {
    fn end(table: &mut Table<'_>, v: u32) -> u32 {
        let mut at = v;
        while table.get(at) != at {
            at = table.get(at);
        }
        at
    }
}
