// The gathering: each vertex's value becomes the joining over its subtree.
ghost use Rattle.std.specs.Prelude.{◌≡◌, ◌≤◌, length};
ghost use Rattle.std.specs.Fn.{FnReturnsAt};
ghost use Rattle.pattern.specs.Forest.{Grows};
ghost use Rattle.gather.specs.Gatherings.{field_of, joined_up, Gathered, Begun, GatheredFrom};

use crate::joining::{Joining, Node};

// Joins the value of vertex v into that of its parent; a root's goes nowhere.
fn join_up<J: Joining + Copy, N: Node<J>>(nodes: &mut [N], v: usize)
    requires from { 1 ≤ v }
    requires to { v ≤ length nodes.old }
    requires parent { field_of N.blank N.above nodes.old v ≤ length nodes.old }
    ensures joins { nodes.new ≡ joined_up J.joined N.blank N.above N.held N.holding nodes.old v }
    ensures fitting { J.fits (field_of N.blank N.held nodes.old v) }
{
    let vertex = &nodes[v - 1];
    let parent = vertex.parent() as usize;
    let value = vertex.value();
    if parent > 0 {
        let node = &mut nodes[parent - 1];
        let joined = node.value().join(value);
        node.set_value(joined);
    }
}

// Gathers over the forest of the records' vertices, numbered from 1. A parent has a greater number than its children,
// so that each value is complete when it is joined into the parent's.
pub fn gather<J: Joining + Copy, N: Node<J>>(nodes: &mut [N])
    requires grows { Grows (length nodes.old) (field_of N.blank N.above nodes.old) }
    ensures { Gathered J.nothing J.joined N.blank N.above N.held N.holding (length nodes.old) nodes.old nodes.new }
{
    // By number, as each step writes another record than its own: to split the slice would be no plainer.
    for v in 1..=nodes.len() {
        join_up(nodes, v);
    }
}

// Sets each record's value to what `start` answers for it.
fn begin<J: Joining, N: Node<J>, F: Fn(&N) -> J>(nodes: &mut [N], start: F)
    requires { F.IsAlwaysCallable start }
    ensures { Begun (FnReturnsAt F.Fn start) N.blank N.held N.holding (length nodes.old) nodes.old nodes.new }
{
    for node in nodes.iter_mut() {
        let value = start(node);
        node.set_value(value);
    }
}

// Gathers what `start` answers for each record.
pub fn gather_from<J: Joining + Copy, N: Node<J>, F: Fn(&N) -> J>(nodes: &mut [N], start: F)
    requires start { F.IsAlwaysCallable start }
    requires grows { Grows (length nodes.old) (field_of N.blank N.above nodes.old) }
    ensures { GatheredFrom (FnReturnsAt F.Fn start) J.nothing J.joined N.blank N.above N.holding
        (length nodes.old) nodes.old nodes.new }
{
    begin(nodes, start);
    gather::<J, N>(nodes);
}
