// The elimination tree by ancestor sets: row u puts the trees that u's lower neighbours are in below u.
ghost use Rattle.std.specs.Prelude.{◌≡◌, ◌-◌, ◌≤◌, map, length};
ghost use Rattle.analysis.specs.declared.records.End.{End};
ghost use Rattle.analysis.specs.declared.records.End.TheVariants.{High};
ghost use Rattle.analysis.specs.Tables.{parent_of, Has, parent_from, tree_from, Only};
ghost use Rattle.analysis.specs.Pools.{Listed};
ghost use Rattle.analysis.specs.Growth.{pattern_in, Fresh, alone, Grown, Adopted, adopted, Tree, Rooted};
ghost use Rattle.analysis.specs.Order.{Forest, AllWeighOne};

use crate::neighbours::neighbours;
use crate::records::{End, Entry, Vertex};
use gather::kinds::Weight;
use sets::AncestorSets;

// Makes a root of each vertex, with a weight of 1. A loop, as where the lists and the counts begin: a closure would say
// no more.
fn begin_tree(vertices: &mut [Vertex])
    ensures { vertices.new ≡ map alone vertices.old }
{
    for vertex in vertices.iter_mut() {
        vertex.parent = 0;
        vertex.weight = Weight(1);
    }
}

// Puts the tree that x is in, as far as it has grown, below u.
fn adopt<S: AncestorSets>(x: u32, u: u32, vertices: &mut [Vertex], sets: &mut S)
    requires from { 1 ≤ x }
    requires to { x ≤ (S.meaning sets.old).used }
    requires above { 1 ≤ u }
    requires within { u ≤ (S.meaning sets.old).used }
    requires own { (S.meaning sets.old).top u ≡ u }
    requires room { (S.meaning sets.old).used ≤ length vertices.old }
    requires few { length vertices.old ≤ 16384 }
    ensures tops { Adopted (S.meaning sets.old) x u (S.meaning sets.new) }
    ensures parents { vertices.new
        ≡ adopted vertices.old ((S.meaning sets.old).top x) u }
{
    let top = sets.find(x).unwrap();
    if top != u {
        vertices[top as usize - 1].parent = u as u16;
        sets.merge(top, u).unwrap();
    }
}

// Puts the trees of u's lower neighbours below u, once that is done for the vertices below u.
fn adopt_row<S: AncestorSets>(u: u32, vertices: &mut [Vertex], entries: &[Entry], sets: &mut S)
    requires has { Has vertices.old u }
    requires few { length vertices.old ≤ 16384 }
    requires lists { Listed High vertices.old entries.now }
    requires used { (S.meaning sets.old).used ≡ length vertices.old }
    requires before { Grown (pattern_in vertices.old entries.now) (u - 1) vertices.old (S.meaning sets.old) }
    ensures size { (S.meaning sets.new).size ≡ (S.meaning sets.old).size }
    ensures used { (S.meaning sets.new).used ≡ length vertices.old }
    ensures done { Grown (pattern_in vertices.old entries.now) u vertices.new (S.meaning sets.new) }
    ensures only { Only parent_from vertices.old vertices.new }
{
    for slot in neighbours(End::High, u, vertices, entries) {
        adopt(slot.lower as u32, u, vertices, sets);
    }
}

// Finds the parent of each vertex in the elimination tree: it grows by one row after the other.
pub fn grow<S: AncestorSets>(vertices: &mut [Vertex], entries: &[Entry], sets: &mut S)
    requires few { length vertices.old ≤ 16384 }
    requires lists { Listed High vertices.old entries.now }
    requires fresh { Fresh (length vertices.old) (S.meaning sets.old) }
    ensures tree { Tree (pattern_in vertices.old entries.now) vertices.new }
    ensures roots { Rooted (pattern_in vertices.old entries.now) (S.meaning sets.new) }
    ensures used { (S.meaning sets.new).used ≡ length vertices.old }
    ensures size { (S.meaning sets.new).size ≡ (S.meaning sets.old).size }
    ensures forest { Forest vertices.new }
    ensures ones { AllWeighOne vertices.new }
    ensures only { Only tree_from vertices.old vertices.new }
{
    begin_tree(vertices);
    // By number, as each row writes other records: to split the slice would be no plainer.
    for u in 1..=vertices.len() as u32 {
        adopt_row(u, vertices, entries, sets);
    }
}
