// From the parents to the sizes of subtrees, by one way down to levels, places and the walk by place, and up again to
// what the subtrees reach.
ghost use Rattle.std.specs.Prelude.{◌≡◌, ◌-◌, ◌<◌, ◌≤◌, length, pos};
ghost use Rattle.pattern.specs.Patterns.{Pattern};
ghost use Rattle.analysis.specs.Tables.{vertex, parent_of, Has, Only};
ghost use Rattle.analysis.specs.Tables.{weight_from, walk_from, reach_from, order_from};
ghost use Rattle.analysis.specs.Order.{Forest, AllWeighOne, level_under, on_level, levelled};
ghost use Rattle.analysis.specs.Order.{size_in, next_place, at_its_place, taken, free_after, noted};
ghost use Rattle.analysis.specs.Order.{Levelled, Sized, Placed, Walked, ReachBegun, FirstPlaced, Sounded};
ghost use Rattle.analysis.specs.Order.{Ordered, ParentsOf, OrderedAs};

use crate::nodes::Reach;
use crate::records::Vertex;
use gather::gathering::gather;
use gather::kinds::{GreatestLevel, LeastPlace, Weight};

// The sizes of the subtrees, held by the weights.
fn sizes(vertices: &mut [Vertex])
    requires forest { Forest vertices.old }
    requires ones { AllWeighOne vertices.old }
    ensures sizes { Sized (length vertices.new) vertices.new }
    ensures only { Only weight_from vertices.old vertices.new }
{
    gather::<Weight, Vertex>(vertices);
}

// One more than the level of the parent, which has its level already; 0 if there is none.
fn level_under(parent: u16, vertices: &[Vertex]) -> u16
    requires within { parent ≤ length vertices.now }
    requires small { 1 ≤ parent → (vertex vertices.now parent).level < 16384 }
    ensures { result ≡ level_under vertices.now parent }
{
    if parent == 0 {
        0
    } else {
        vertices[parent as usize - 1].level + 1
    }
}

impl Vertex {
    // The number of vertices in the subtree, once the sizes are gathered.
    fn size(&self) -> u16
        requires counts { self.now.weight.0 ≡ pos (size_in self.now) }
        requires few { size_in self.now ≤ 16384 }
        ensures { result ≡ size_in self.now }
    {
        self.weight.0 as u16
    }

    // Gives the vertex its level, with which the greatest level in its subtree begins.
    fn set_level(&mut self, level: u16)
        ensures { self.new ≡ on_level self.old level }
    {
        self.level = level;
        self.deepest = GreatestLevel(level);
    }

    // Gives the vertex its place, with which the least in its subtree begins, and the one before to the next of its
    // children.
    fn set_place(&mut self, place: u16)
        requires { 1 ≤ place }
        ensures { self.new ≡ at_its_place self.old place }
    {
        self.place = place;
        self.first = LeastPlace(place);
        self.last = place - 1;
    }
}

// Gives v its level, once its parent has its own.
fn take_level(v: usize, vertices: &mut [Vertex])
    requires has { Has vertices.old v }
    requires parent { parent_of vertices.old v ≤ length vertices.old }
    requires small { 1 ≤ parent_of vertices.old v → (vertex vertices.old (parent_of vertices.old v)).level < 16384 }
    ensures { vertices.new ≡ levelled vertices.old v }
{
    let level = level_under(vertices[v - 1].parent, vertices);
    vertices[v - 1].set_level(level);
}

// Gives v the last place that is free below its parent, with those before it to the subtree of v, and answers the last
// that is then free for a root.
fn take_place(v: usize, free: u16, vertices: &mut [Vertex]) -> u16
    requires has { Has vertices.old v }
    requires parent { parent_of vertices.old v ≤ length vertices.old }
    requires counts { (vertex vertices.old v).weight.0 ≡ pos (size_in (vertex vertices.old v)) }
    requires few { size_in (vertex vertices.old v) ≤ 16384 }
    requires some { 1 ≤ next_place vertices.old free (parent_of vertices.old v) }
    requires room { size_in (vertex vertices.old v) ≤ next_place vertices.old free (parent_of vertices.old v) }
    ensures table { vertices.new ≡ taken vertices.old free v }
    ensures free { result ≡ free_after vertices.old free v }
{
    let size = vertices[v - 1].size();
    let parent = vertices[v - 1].parent as usize;
    if parent == 0 {
        vertices[v - 1].set_place(free);
        return free - size;
    }
    let place = vertices[parent - 1].last;
    vertices[v - 1].set_place(place);
    vertices[parent - 1].last = place - size;
    free
}

// Notes v at its place.
fn note_place(v: usize, vertices: &mut [Vertex])
    requires has { Has vertices.old v }
    requires few { v ≤ 16384 }
    requires some { 1 ≤ (vertex vertices.old v).place }
    requires within { (vertex vertices.old v).place ≤ length vertices.old }
    ensures { vertices.new ≡ noted vertices.old v }
{
    let place = vertices[v - 1].place as usize;
    vertices[place - 1].at = v as u16;
}

// Levels, places and the walk by place, from the last vertex to the first: a parent before its children. A vertex is
// one level below its parent and stands after all below it, siblings in the order of their numbers.
fn walk_down(vertices: &mut [Vertex])
    requires forest { Forest vertices.old }
    requires sizes { Sized (length vertices.old) vertices.old }
    ensures levels { Levelled (length vertices.new) vertices.new }
    ensures places { Placed (length vertices.new) vertices.new }
    ensures walk { Walked (length vertices.new) vertices.new }
    ensures begun { ReachBegun (length vertices.new) vertices.new }
    ensures only { Only walk_from vertices.old vertices.new }
{
    let mut free = vertices.len() as u16;
    // By number, as each step reads and writes other records too: to split the slice would be no plainer.
    for v in (1..=vertices.len()).rev() {
        take_level(v, vertices);
        free = take_place(v, free, vertices);
        note_place(v, vertices);
    }
}

// The least place and the greatest level in each subtree.
fn reach(vertices: &mut [Vertex])
    requires forest { Forest vertices.old }
    requires begun { ReachBegun (length vertices.old) vertices.old }
    ensures firsts { FirstPlaced (length vertices.new) vertices.new }
    ensures depths { Sounded (length vertices.new) vertices.new }
    ensures only { Only reach_from vertices.old vertices.new }
{
    gather::<Reach, Vertex>(vertices);
}

// All that the tree alone gives: levels, places, the walk by place, first places and greatest levels.
pub fn order(vertices: &mut [Vertex])
    requires forest { Forest vertices.old }
    requires ones { AllWeighOne vertices.old }
    ensures ordered { Ordered (length vertices.old) (parent_of vertices.old) vertices.new }
    ensures answers { (p : Pattern) → ParentsOf p (length vertices.old) vertices.old → OrderedAs p vertices.new }
    ensures only { Only order_from vertices.old vertices.new }
{
    sizes(vertices);
    walk_down(vertices);
    reach(vertices);
}
