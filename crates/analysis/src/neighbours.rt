// The neighbours of a vertex: its slots, as one slice.
ghost use Rattle.std.specs.Prelude.{◌≡◌};
ghost use Rattle.analysis.specs.Tables.{pairs_of, Has};
ghost use Rattle.analysis.specs.Pools.{Listed, Neighbours, slots_begin};

use crate::records::{End, Entry, Vertex};

// Where the slots of v begin: where those of the vertex before end.
pub(crate) fn slots_begin(which: End, v: u32, vertices: &[Vertex]) -> u32
    requires { Has vertices.now v }
    ensures { result ≡ slots_begin which vertices.now v }
{
    if v == 1 {
        0
    } else {
        vertices[v as usize - 2].slots_end(which)
    }
}

// The slots of v in the lists by that end: by the high ends `lower` of each is a lower neighbour, and by the low ends
// `upper` is an upper one.
pub fn neighbours<'a>(which: End, v: u32, vertices: &[Vertex], entries: &'a [Entry]) -> &'a [Entry]
    requires has { Has vertices.now v }
    requires lists { Listed which vertices.now entries.now }
    ensures { Neighbours which (pairs_of entries.now) v result.now }
{
    let begin = slots_begin(which, v, vertices) as usize;
    let end = vertices[v as usize - 1].slots_end(which) as usize;
    &entries[begin..end]
}
