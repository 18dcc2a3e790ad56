// The structure of the pattern that an entry table holds.
ghost use Rattle.std.specs.Prelude.{◌≡◌, ◌-◌, ◌+◌, ◌≤◌, ◌||◌, [], ◌∷◌, length, nat_lt, MatchResult};
ghost use Rattle.analysis.specs.Tables.{pairs_of};
ghost use Rattle.pattern.specs.Structure as structure;
ghost use Rattle.model.specs.States.{answer, first_of};
ghost use Rattle.downskillet_c.specs.Analysing.{Analysed, Unchanged};
ghost use Rattle.downskillet_c.specs.Pairs.{pattern_given};
ghost use Rattle.downskillet_c.specs.Refusals.{outcome, number_told};
ghost use Rattle.downskillet_c.specs.Structure.{array_after, structure_outcome};

use crate::analysing::analyse_entries;
use crate::refusals::number;
use analysis::records::{Entry, Vertex};
use analysis::structure::structure;
use model::Refusal;

// Whether so long arrays have a place for each start, and for each row below the diagonal.
fn judge_arrays(order: u32, total: u64, starts: usize, rows: usize) -> Result<(), Refusal>
    requires { order ≤ total }
    ensures { result ≡ answer (first_of
        ((nat_lt starts (order + 1) || nat_lt rows (total - order), Refusal.ArraysTooShort) ∷ [])) tt }
{
    if starts <= order as usize || (rows as u64) < total - order as u64 {
        return Err(Refusal::ArraysTooShort);
    }
    Ok(())
}

// Analyses the pairs that the entry table holds, and writes their structure: the tables that were lent could hold
// anything, so that nothing else could be said of it.
fn analyse_structure(
    order: u32,
    vertices: &mut [Vertex],
    entries: &mut [Entry],
    links: &mut [u32],
    starts: &mut [u32],
    rows: &mut [u32],
) -> Result<(), Refusal>
    ensures outcome { result ≡ structure_outcome order (pairs_of entries.old)
        (length vertices.old) (length entries.old) (length links.old) (length starts.old) (length rows.old) }
    ensures starts { starts.new ≡ array_after result
        (structure.starts (pattern_given order (pairs_of entries.old))) starts.old }
    ensures rows { rows.new ≡ array_after result
        (structure.rows (pattern_given order (pairs_of entries.old))) rows.old }
    ensures left { MatchResult (outcome order (pairs_of entries.old)
        (length vertices.old) (length entries.old) (length links.old))
        (λ _. Analysed order (pairs_of entries.old)
        vertices.old vertices.new entries.old entries.new links.old links.new)
        (λ _. Unchanged vertices.old vertices.new entries.old entries.new links.old links.new) }
{
    let total = analyse_entries(order, vertices, entries, links)?;
    judge_arrays(order, total, starts.len(), rows.len())?;
    structure(&vertices[..order as usize], entries, starts, rows);
    Ok(())
}

#[unsafe(no_mangle)]
pub extern "C" fn downskillet_structure(
    order: u32,
    vertices: &mut [Vertex],
    entries: &mut [Entry],
    links: &mut [u32],
    starts: &mut [u32],
    rows: &mut [u32],
) -> u32
    ensures number { result ≡ number_told (structure_outcome order (pairs_of entries.old)
        (length vertices.old) (length entries.old) (length links.old) (length starts.old) (length rows.old)) }
    ensures starts { starts.new ≡ array_after (structure_outcome order (pairs_of entries.old)
        (length vertices.old) (length entries.old) (length links.old) (length starts.old) (length rows.old))
        (structure.starts (pattern_given order (pairs_of entries.old))) starts.old }
    ensures rows { rows.new ≡ array_after (structure_outcome order (pairs_of entries.old)
        (length vertices.old) (length entries.old) (length links.old) (length starts.old) (length rows.old))
        (structure.rows (pattern_given order (pairs_of entries.old))) rows.old }
    ensures left { MatchResult (outcome order (pairs_of entries.old)
        (length vertices.old) (length entries.old) (length links.old))
        (λ _. Analysed order (pairs_of entries.old)
        vertices.old vertices.new entries.old entries.new links.old links.new)
        (λ _. Unchanged vertices.old vertices.new entries.old entries.new links.old links.new) }
{
    number(analyse_structure(order, vertices, entries, links, starts, rows))
}
