// Whether an analysis is refused, and why: the rules in the order of their numbers.
ghost use Rattle.std.specs.Prelude.{◌≡◌, [], ◌∷◌, not, map, length};
ghost use Rattle.pattern.specs.Patterns.{within};
ghost use Rattle.model.specs.States.{answer, first_of};
ghost use Rattle.downskillet_c.specs.Refusals.{some_first_outside, some_second_outside, some_equal};
ghost use Rattle.downskillet_c.specs.Refusals.{first_fault, pair_rules, room_rule, working_fault};

use crate::pairs::Ends;
use analysis::records::Vertex;
use model::{MOST_ENTRIES, Refusal, Side, judge};

// Whether the order is one, and the working storage of vertices is long enough for it.
fn judge_working(order: u32, vertices: &[Vertex], links: &[u32]) -> Result<(), Refusal>
    ensures { result ≡ answer (working_fault order (length vertices.now) (length links.now)) tt }
{
    judge(order, vertices)?;
    if links.len() < order as usize {
        return Err(Refusal::SetsTooSmall);
    }
    Ok(())
}

// What is wrong with one pair or another of a list.
#[derive(Clone, Copy)]
struct Faults {
    // the first vertex of a pair is none of the order, or the second
    first: bool,
    second: bool,
    // the two vertices of a pair are equal
    equal: bool,
}

// Whether v is none of the vertices 1 to the order.
fn is_outside(order: u32, v: u32) -> bool
    ensures { result ≡ not (within order v) }
{
    !(1..=order).contains(&v)
}

// No fault ends the loop, which so goes over several pairs at a time.
fn find_faults<E: Ends>(order: u32, pairs: &[E]) -> Faults
    ensures first { result.first ≡ some_first_outside order (map E.ends pairs.now) }
    ensures second { result.second ≡ some_second_outside order (map E.ends pairs.now) }
    ensures equal { result.equal ≡ some_equal (map E.ends pairs.now) }
{
    let mut faults = Faults {
        first: false,
        second: false,
        equal: false,
    };
    for pair in pairs {
        faults.first |= is_outside(order, pair.first());
        faults.second |= is_outside(order, pair.second());
        faults.equal |= pair.first() == pair.second();
    }
    faults
}

// Whether each pair is one of two vertices of the order.
fn judge_pairs<E: Ends>(order: u32, pairs: &[E]) -> Result<(), Refusal>
    ensures { result ≡ answer (first_of (pair_rules order (map E.ends pairs.now))) tt }
{
    let faults = find_faults(order, pairs);
    if faults.first {
        return Err(Refusal::VertexOutOfRange(Side::First));
    }
    if faults.second {
        return Err(Refusal::VertexOutOfRange(Side::Second));
    }
    if faults.equal {
        return Err(Refusal::EqualVertices);
    }
    Ok(())
}

// Whether so many pairs have room among so many entries.
fn judge_room(pairs: usize, entries: usize) -> Result<(), Refusal>
    ensures { result ≡ answer (first_of (room_rule pairs entries ∷ [])) tt }
{
    if pairs > entries.min(MOST_ENTRIES) {
        return Err(Refusal::ModelFull);
    }
    Ok(())
}

// Whether the pairs can be analysed with this working storage, of so many entries.
pub(crate) fn judge_all<E: Ends>(
    order: u32,
    pairs: &[E],
    vertices: &[Vertex],
    entries: usize,
    links: &[u32],
) -> Result<(), Refusal>
    ensures { result ≡ answer (first_fault order (map E.ends pairs.now)
        (length vertices.now) entries (length links.now)) tt }
{
    judge_working(order, vertices, links)?;
    judge_pairs(order, pairs)?;
    judge_room(pairs.len(), entries)
}
