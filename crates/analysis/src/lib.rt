// The analysis of a pattern over lent tables: from entries to the elimination tree, its places and the counts. An
// inner room: its calls require what the callers above prove, and users are not meant to call them.
#![tactic(auto)]

ghost use Rattle.std.specs.Prelude.{ℕ, ◌≤◌, length, MatchResult};
ghost use Rattle.analysis.specs.Tables.{pairs_of, Sound};
ghost use Rattle.analysis.specs.Analysed.{Refused, Analysed};

pub mod counts;
pub mod neighbours;
pub mod nodes;
pub mod order;
pub mod pools;
pub mod records;
pub mod settling;
pub mod structure;
#[cfg(test)]
mod tests;
pub mod tree;

use crate::counts::{count, total};
use crate::order::order as set_in_order;
use crate::pools::{pool_lower, pool_upper};
use crate::records::{Entry, Vertex};
use crate::tree::grow;
use sets::{AncestorSets, NoRoom};

// Analyses the pattern of the entries, of order n: fills in the vertex records 1 to n, leaves those past them, and
// answers the sum of the column counts, or refuses, changing nothing, if the sets have no room for n. The tables and
// the sets are passed on each by itself: a struct that held the lent tables would need a clause in each method that it
// still holds the same ones (`ghost_name`), one for each fact that it saves. And that a call leaves the sets' size
// alone is said by each, since a caller sees only its clauses.
pub fn analyse<S: AncestorSets>(
    n: u32,
    vertices: &mut [Vertex],
    entries: &mut [Entry],
    sets: &mut S,
) -> Result<u64, NoRoom>
    requires some { 1 ≤ n }
    requires few { n ≤ 16384 }
    requires within { n ≤ length vertices.old }
    requires fewer { length entries.old ≤ 262144 }
    requires sound { Sound n (pairs_of entries.old) }
    ensures { MatchResult result
        (Analysed n vertices.old vertices.new entries.old entries.new
        (S.meaning sets.old) (S.meaning sets.new))
        (λ _. Refused n vertices.old vertices.new entries.old entries.new
        (S.meaning sets.old) (S.meaning sets.new)) }
{
    sets.start(n)?;
    let vertices = &mut vertices[..n as usize];
    pool_lower(vertices, entries);
    pool_upper(vertices, entries);
    grow(vertices, entries, sets);
    set_in_order(vertices);
    sets.start(n).unwrap();
    count(vertices, entries, sets);
    Ok(total(vertices))
}
