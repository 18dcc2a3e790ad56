// The analysis of a list of pairs, and of an entry table that holds its pairs already.
ghost use Rattle.std.specs.Prelude.{◌≡◌, ◌≤◌, map, length, take, drop, IfOk, MatchResult};
ghost use Rattle.analysis.specs.Growth.{pattern_of};
ghost use Rattle.analysis.specs.declared.records.End.TheVariants.{High};
ghost use Rattle.analysis.specs.Pools.{Listed};
ghost use Rattle.analysis.specs.Tables.{Sound, pairs_of};
ghost use Rattle.pattern.specs.Elimination as elimination;
ghost use Rattle.downskillet_c.specs.Analysing.{Analysed, Ready, TableOf, Unchanged};
ghost use Rattle.downskillet_c.specs.Pairs.{given};
ghost use Rattle.downskillet_c.specs.Refusals.{outcome, number_told, total_told};

use crate::judging::judge_all;
use crate::pairs::{Pair, load, turn};
use crate::refusals::tell;
use analysis::analyse;
use analysis::records::{Entry, Vertex};
use model::Refusal;
use sets::HalvedLinks;

// Analyses the entries, with no more of the vertices and the links than the order has.
fn analyse_sound(
    order: u32,
    vertices: &mut [Vertex],
    entries: &mut [Entry],
    links: &mut [u32],
) -> u64
    requires some { 1 ≤ order }
    requires few { order ≤ 16384 }
    requires within { order ≤ length vertices.old }
    requires linked { order ≤ length links.old }
    requires fewer { length entries.old ≤ 262144 }
    requires sound { Sound order (pairs_of entries.old) }
    ensures sums { result ≡ elimination.total (pattern_of order entries.old) }
    ensures table { TableOf (pattern_of order entries.old) (take order vertices.new) }
    ensures pairs { pairs_of entries.new ≡ pairs_of entries.old }
    ensures lists { Listed High (take order vertices.new) entries.new }
    ensures other_vertices { drop order vertices.new ≡ drop order vertices.old }
    ensures other_links { drop order links.new ≡ drop order links.old }
{
    let vertices = &mut vertices[..order as usize];
    let mut sets = HalvedLinks::new(&mut links[..order as usize]);
    analyse(order, vertices, entries, &mut sets).unwrap()
}

// Analyses the pairs, once none is refused, and has them in the entry table.
fn analyse_pairs(
    order: u32,
    pairs: &[Pair],
    vertices: &mut [Vertex],
    entries: &mut [Entry],
    links: &mut [u32],
) -> Result<u64, Refusal>
    ensures outcome { result ≡ outcome order (given pairs.now)
        (length vertices.old) (length entries.old) (length links.old) }
    ensures left { MatchResult result
        (λ _. Analysed order (given pairs.now) vertices.old vertices.new entries.old entries.new links.old links.new)
        (λ _. Unchanged vertices.old vertices.new entries.old entries.new links.old links.new) }
{
    judge_all(order, pairs, vertices, entries.len(), links)?;
    let entries = &mut entries[..pairs.len()];
    load(pairs, entries);
    Ok(analyse_sound(order, vertices, entries, links))
}

// Analyses the pairs that the entry table holds, once none is refused. Each vertex then has the list of its lower
// neighbours there.
pub(crate) fn analyse_entries(
    order: u32,
    vertices: &mut [Vertex],
    entries: &mut [Entry],
    links: &mut [u32],
) -> Result<u64, Refusal>
    ensures outcome { result ≡ outcome order (pairs_of entries.old)
        (length vertices.old) (length entries.old) (length links.old) }
    ensures left { MatchResult result
        (λ _. Analysed order (pairs_of entries.old)
        vertices.old vertices.new entries.old entries.new links.old links.new)
        (λ _. Unchanged vertices.old vertices.new entries.old entries.new links.old links.new) }
    ensures ready { IfOk result (λ _. Ready order (pairs_of entries.old) vertices.new entries.new) }
{
    judge_all(order, entries, vertices, entries.len(), links)?;
    turn(entries);
    Ok(analyse_sound(order, vertices, entries, links))
}

#[unsafe(no_mangle)]
pub extern "C" fn downskillet_analyse(
    order: u32,
    pairs: &[Pair],
    vertices: &mut [Vertex],
    entries: &mut [Entry],
    links: &mut [u32],
    total: &mut u64,
) -> u32
    ensures number { result ≡ number_told (outcome order (given pairs.now)
        (length vertices.old) (length entries.old) (length links.old)) }
    ensures total { total.new ≡ total_told (outcome order (given pairs.now)
        (length vertices.old) (length entries.old) (length links.old)) total.old }
    ensures left { MatchResult (outcome order (given pairs.now)
        (length vertices.old) (length entries.old) (length links.old))
        (λ _. Analysed order (given pairs.now) vertices.old vertices.new entries.old entries.new links.old links.new)
        (λ _. Unchanged vertices.old vertices.new entries.old entries.new links.old links.new) }
{
    let outcome = analyse_pairs(order, pairs, vertices, entries, links);
    tell(outcome, total)
}

#[unsafe(no_mangle)]
pub extern "C" fn downskillet_analyse_entries(
    order: u32,
    vertices: &mut [Vertex],
    entries: &mut [Entry],
    links: &mut [u32],
    total: &mut u64,
) -> u32
    ensures number { result ≡ number_told (outcome order (pairs_of entries.old)
        (length vertices.old) (length entries.old) (length links.old)) }
    ensures total { total.new ≡ total_told (outcome order (pairs_of entries.old)
        (length vertices.old) (length entries.old) (length links.old)) total.old }
    ensures left { MatchResult (outcome order (pairs_of entries.old)
        (length vertices.old) (length entries.old) (length links.old))
        (λ _. Analysed order (pairs_of entries.old)
        vertices.old vertices.new entries.old entries.new links.old links.new)
        (λ _. Unchanged vertices.old vertices.new entries.old entries.new links.old links.new) }
{
    let outcome = analyse_entries(order, vertices, entries, links);
    tell(outcome, total)
}
