// The row and column counts by one pass over the entries, in the order of the places. That a call leaves all but the
// counts as it was, and the sets' size, has to be said by each, since a caller sees only its clauses.
ghost use Rattle.std.specs.Prelude.{◌≡◌, ◌-◌, ◌≤◌, map, length};
ghost use Rattle.pattern.specs.Patterns.{Pattern};
ghost use Rattle.pattern.specs.Elimination as elimination;
ghost use Rattle.analysis.specs.Tables.{parent_of, Has, Only, counts_from};
ghost use Rattle.analysis.specs.Growth.{pattern_in, Fresh};
ghost use Rattle.analysis.specs.Order.{Forest};
ghost use Rattle.analysis.specs.Counts.{place_in, Prepared, Counted, Counting, Passed, TopsAreRoots, SameTops};
ghost use Rattle.analysis.specs.Counts.{uncounted, weighed, child_taken, ChildrenTaken};
ghost use Rattle.analysis.specs.Counts.{Climbs, lengthened, meets_at, EntryCounted, is_leaf, EntryPassed, column_of};

use crate::neighbours::neighbours;
use crate::records::{End, Entry, Vertex};
use gather::gathering::gather;
use gather::joining::Joining;
use gather::kinds::Weight;
use sets::AncestorSets;

// A row count and a weight of 1 for each vertex, and no neighbour met.
// A loop, as where the lists and a tree begin: a closure would say no more.
fn begin_counts(vertices: &mut [Vertex])
    ensures { vertices.new ≡ map uncounted vertices.old }
{
    for vertex in vertices.iter_mut() {
        vertex.rows = 1;
        vertex.weight = Weight(1);
        vertex.last = 0;
        vertex.met = 0;
    }
}

// Adds to the weight of v.
fn weigh(v: u32, by: i64, vertices: &mut [Vertex])
    requires has { Has vertices.old v }
    ensures { vertices.new ≡ weighed vertices.old v by }
{
    let vertex = &mut vertices[v as usize - 1];
    vertex.weight = vertex.weight.join(Weight(by));
}

// Takes one off the weight of v's parent.
fn take_child(v: usize, vertices: &mut [Vertex])
    requires has { Has vertices.old v }
    requires parent { parent_of vertices.old v ≤ length vertices.old }
    ensures { vertices.new ≡ child_taken vertices.old v }
{
    let parent = vertices[v - 1].parent;
    if parent != 0 {
        weigh(parent as u32, -1, vertices);
    }
}

// Takes one off the parent's weight for each vertex.
fn take_children(vertices: &mut [Vertex])
    requires { Forest vertices.old }
    ensures { ChildrenTaken (length vertices.old) vertices.old vertices.new }
{
    // By number, as each step writes another record: a loop over the slice can't, and to split it is no plainer.
    for v in 1..=vertices.len() {
        take_child(v, vertices);
    }
}

// Lengthens row u by the levels from q, where it was met last, down to x, met now.
fn lengthen_row(u: u32, x: u32, q: u32, vertices: &mut [Vertex])
    requires row { Has vertices.old u }
    requires met { Has vertices.old x }
    requires top { Has vertices.old q }
    requires climbs { Climbs vertices.old u x q }
    requires few { length vertices.old ≤ 16384 }
    ensures { vertices.new ≡ lengthened vertices.old u x q }
{
    let by = vertices[x as usize - 1].level - vertices[q as usize - 1].level;
    let place = vertices[x as usize - 1].place;
    let row = &mut vertices[u as usize - 1];
    row.rows += by;
    row.last = x as u16;
    row.met = place;
}

// Counts x as the next lower neighbour of u: it meets the part of row u found so far at the last one's top, or at u.
fn count_leaf<S: AncestorSets>(x: u32, u: u32, vertices: &mut [Vertex], sets: &mut S)
    requires met { (1 ≤ x) × (x ≤ (S.meaning sets.old).used) }
    requires row { (1 ≤ u) × (u ≤ (S.meaning sets.old).used) }
    requires room { (S.meaning sets.old).used ≤ length vertices.old }
    requires few { length vertices.old ≤ 16384 }
    requires climbs { Climbs vertices.old u x (meets_at (S.meaning sets.old) vertices.old u) }
    ensures counted { EntryCounted x u (meets_at (S.meaning sets.old) vertices.old u)
        vertices.old vertices.new }
    ensures only { Only counts_from vertices.old vertices.new }
    ensures tops { SameTops (S.meaning sets.old) (S.meaning sets.new) }
{
    let q = sets.find(vertices[u as usize - 1].last as u32).unwrap_or(u);
    lengthen_row(u, x, q, vertices);
    weigh(x, 1, vertices);
    weigh(q, -1, vertices);
}

// Whether no lower neighbour of u met before is in the subtree of x. Any that is has a place from the first of x on,
// and so has the last one met, as vertices are met by place.
fn is_leaf(x: u32, u: u32, vertices: &[Vertex]) -> bool
    requires met { Has vertices.now x }
    requires row { Has vertices.now u }
    ensures { result ≡ is_leaf vertices.now x u }
{
    vertices[u as usize - 1].met < vertices[x as usize - 1].first.0
}

// Counts x as the next lower neighbour of u if it is a leaf of its row so far: if not, it adds nothing to the row.
fn count_entry<S: AncestorSets>(x: u32, u: u32, vertices: &mut [Vertex], sets: &mut S)
    requires met { (1 ≤ x) × (x ≤ (S.meaning sets.old).used) }
    requires row { (1 ≤ u) × (u ≤ (S.meaning sets.old).used) }
    requires room { (S.meaning sets.old).used ≤ length vertices.old }
    requires few { length vertices.old ≤ 16384 }
    requires climbs { Climbs vertices.old u x (meets_at (S.meaning sets.old) vertices.old u) }
    ensures passed { EntryPassed x u (meets_at (S.meaning sets.old) vertices.old u) vertices.old vertices.new }
    ensures only { Only counts_from vertices.old vertices.new }
    ensures tops { SameTops (S.meaning sets.old) (S.meaning sets.new) }
{
    if is_leaf(x, u, vertices) {
        count_leaf(x, u, vertices, sets);
    }
}

// Counts x in the rows of its upper neighbours, once the vertices at all earlier places are counted.
fn count_neighbours<S: AncestorSets>(
    x: u32,
    vertices: &mut [Vertex],
    entries: &[Entry],
    sets: &mut S,
)
    requires has { Has vertices.old x }
    requires prepared { Prepared vertices.old entries.now }
    requires before { Passed (pattern_in vertices.old entries.now) (place_in vertices.old entries.now x - 1)
        vertices.old (S.meaning sets.old) }
    ensures counted { Counting (pattern_in vertices.old entries.now) (place_in vertices.old entries.now x)
        vertices.new }
    ensures only { Only counts_from vertices.old vertices.new }
    ensures tops { SameTops (S.meaning sets.old) (S.meaning sets.new) }
{
    for slot in neighbours(End::Low, x, vertices, entries) {
        count_entry(x, slot.upper as u32, vertices, sets);
    }
}

// Counts x, and then puts it below its parent.
fn count_vertex<S: AncestorSets>(x: u32, vertices: &mut [Vertex], entries: &[Entry], sets: &mut S)
    requires has { Has vertices.old x }
    requires prepared { Prepared vertices.old entries.now }
    requires before { Passed (pattern_in vertices.old entries.now) (place_in vertices.old entries.now x - 1)
        vertices.old (S.meaning sets.old) }
    ensures passed { Passed (pattern_in vertices.old entries.now) (place_in vertices.old entries.now x)
        vertices.new (S.meaning sets.new) }
    ensures only { Only counts_from vertices.old vertices.new }
    ensures size { (S.meaning sets.new).size ≡ (S.meaning sets.old).size }
{
    count_neighbours(x, vertices, entries, sets);
    let parent = vertices[x as usize - 1].parent as u32;
    if parent != 0 {
        sets.merge(x, parent).unwrap();
    }
}

// Counts the vertices by place.
fn count_walk<S: AncestorSets>(vertices: &mut [Vertex], entries: &[Entry], sets: &mut S)
    requires prepared { Prepared vertices.old entries.now }
    requires before { Passed (pattern_in vertices.old entries.now) 0 vertices.old (S.meaning sets.old) }
    ensures passed { Passed (pattern_in vertices.old entries.now) (length vertices.old)
        vertices.new (S.meaning sets.new) }
    ensures only { Only counts_from vertices.old vertices.new }
    ensures size { (S.meaning sets.new).size ≡ (S.meaning sets.old).size }
{
    // By the place: the body writes the table that the walk is read from, so that no loop over the slice can.
    for i in 0..vertices.len() {
        let x = vertices[i].at as u32;
        count_vertex(x, vertices, entries, sets);
    }
}

// The row and column counts of each vertex.
pub fn count<S: AncestorSets>(vertices: &mut [Vertex], entries: &[Entry], sets: &mut S)
    requires prepared { Prepared vertices.old entries.now }
    requires fresh { Fresh (length vertices.old) (S.meaning sets.old) }
    ensures counted { Counted (pattern_in vertices.old entries.now) vertices.new }
    ensures only { Only counts_from vertices.old vertices.new }
    ensures tops { TopsAreRoots (pattern_in vertices.old entries.now) (S.meaning sets.new) }
    ensures size { (S.meaning sets.new).size ≡ (S.meaning sets.old).size }
{
    begin_counts(vertices);
    take_children(vertices);
    count_walk(vertices, entries, sets);
    gather::<Weight, Vertex>(vertices);
}

// The column count of a vertex, once the weights are gathered.
pub(crate) fn column_count(vertex: &Vertex) -> u64
    ensures { result ≡ column_of vertex.now.weight.0 }
{
    vertex.weight.0.max(0) as u64
}

// The places that the whole factor takes: the sum of the column counts. What the pattern is, only the table tells.
pub fn total(vertices: &[Vertex]) -> u64
    requires few { length vertices.now ≤ 16384 }
    requires counted { (p : Pattern) × (p.order ≡ length vertices.now) × Counted p vertices.now }
    ensures { (p : Pattern) → p.order ≡ length vertices.now → Counted p vertices.now → result ≡ elimination.total p }
{
    vertices.iter().map(column_count).sum()
}
