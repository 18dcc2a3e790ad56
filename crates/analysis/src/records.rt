// The records of the two tables that an analysis works on: one for each vertex and one for each entry of the pattern.
// Numbers count from 1 and 0 is none, as in the theorems' trees; an `Option` would widen the fixed tables. Neighbour
// lists stand in working fields of the records, since nothing is allocated.
ghost use Rattle.std.specs.Prelude.{◌≡◌};
ghost use Rattle.analysis.specs.Tables.{no_entry, no_vertex};

use gather::kinds::{GreatestLevel, LeastPlace, Weight};

// An entry of the pattern, low < high: 16 bits hold the largest order, 16,384.
#[derive(Clone, Copy, Default)]
#[repr(C)]
pub struct Entry {
    pub low: u16,
    pub high: u16,
    // Working storage of no connection with this entry: a slot each of the lists of lower and of upper neighbours.
    pub lower: u16,
    pub upper: u16,
}

// Which of an entry's two vertices.
#[derive(Clone, Copy)]
pub enum End {
    Low,
    High,
}

// What an analysis finds of one vertex, with its working storage. Vertices, places, levels and row counts take 16 bits,
// as in an entry, and what counting reads and writes stands together: a small record is a fast one.
#[derive(Clone, Copy, Default)]
#[repr(C)]
pub struct Vertex {
    // At the end the column count; before that 1, then the size of the subtree, then this vertex's share of the column
    // counts.
    pub weight: Weight,
    // The row count.
    pub rows: u16,
    // While places are given, the place that the next child takes; while counting, the last lower neighbour met, or 0.
    pub last: u16,
    // While counting, the place of that neighbour, or 0.
    pub met: u16,
    // The number of parent steps to the root.
    pub level: u16,
    // The least place in the subtree.
    pub first: LeastPlace,
    // The vertex whose place is this record's number: the postorder itself.
    pub at: u16,
    // The parent in the elimination tree, 0 at a root.
    pub parent: u16,
    // The position in the postorder, from 1.
    pub place: u16,
    // The greatest level in the subtree.
    pub deepest: GreatestLevel,
    // Where the slots of its lower neighbours end, and those of its upper ones: both follow those of the vertex before.
    pub lower_end: u32,
    pub upper_end: u32,
}

impl Entry {
    // An entry to fill tables with.
    pub fn new() -> Entry
        ensures { result ≡ no_entry }
    {
        Entry::default()
    }
}

impl Vertex {
    // A vertex to fill tables with.
    pub fn new() -> Vertex
        ensures { result ≡ no_vertex }
    {
        Vertex::default()
    }
}
