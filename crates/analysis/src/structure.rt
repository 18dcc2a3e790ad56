// The structure of the factor: the rows of each column, one column after the other, found row by row. Until the end the
// number v of the starts is the cursor of column v: the place that its next row takes. At the end that is where the
// column ends, and the next one starts. No marks are needed: the row written last in a column tells whether it has u.
ghost use Rattle.std.specs.Prelude.{◌≡◌, ◌+◌, ◌-◌, ◌<◌, ◌≤◌, ◌^◌, length, slice_index, slice_set};
ghost use Rattle.pattern.specs.Elimination as pattern;
ghost use Rattle.pattern.specs.Filling.{InRow};
ghost use Rattle.pattern.specs.Patterns.{Pattern};
ghost use Rattle.pattern.specs.Structure as structure;
ghost use Rattle.pattern.specs.Structure.{over, taken};
ghost use Rattle.analysis.specs.declared.records.End.TheVariants.{High};
ghost use Rattle.analysis.specs.Growth.{pattern_in};
ghost use Rattle.analysis.specs.Pools.{Listed};
ghost use Rattle.analysis.specs.Structure.{Climbed, Climbing, Filled, Found, Rest, Room};
ghost use Rattle.analysis.specs.Tables.{Has};

use crate::counts::column_count;
use crate::neighbours::neighbours;
use crate::records::{End, Entry, Vertex};

// Writes u as the next row of column v.
fn append(u: u32, v: u32, starts: &mut [u32], rows: &mut [u32])
    requires column { v < length starts.old }
    requires room { slice_index starts.old v < length rows.old }
    requires few { slice_index starts.old v < 2 ^ 31 }
    ensures starts { starts.new ≡ slice_set starts.old v (slice_index starts.old v + 1) }
    ensures rows { rows.new ≡ slice_set rows.old (slice_index starts.old v) u }
{
    let cursor = &mut starts[v as usize];
    rows[*cursor as usize] = u;
    *cursor += 1;
}

// Begins column v at its place, with the parent of v, if it has one, which is the first of its rows.
fn begin_column(v: u32, parent: u32, place: u32, starts: &mut [u32], rows: &mut [u32])
    ghost p: { Pattern }
    requires vertex { (1 ≤ v) × (v ≤ p.order) }
    requires few { p.order ≤ 16384 }
    requires room { Room p (length starts.old) (length rows.old) }
    requires parent { parent ≡ pattern.parent p v }
    requires place { place ≡ taken p (v - 1) }
    requires before { Filled p (v - 1) 0 starts.old rows.old }
    ensures begun { Filled p v 0 starts.new rows.new }
    ensures rest { Rest p starts.old rows.old starts.new rows.new }
{
    starts[v as usize] = place;
    if parent != 0 {
        append(parent, v, starts, rows);
    }
}

// Begins each column after the one before.
fn begin_columns(vertices: &[Vertex], starts: &mut [u32], rows: &mut [u32])
    ghost p: { Pattern }
    requires found { Found p vertices.now }
    requires room { Room p (length starts.old) (length rows.old) }
    ensures begun { Filled p p.order 0 starts.new rows.new }
    ensures rest { Rest p starts.old rows.old starts.new rows.new }
{
    let mut place = 0;
    for (i, vertex) in vertices.iter().enumerate() {
        begin_column(i as u32 + 1, vertex.parent as u32, place, starts, rows);
        place += column_count(vertex) as u32 - 1;
    }
}

// Writes row u into column x and the columns above it that are under u, as far as they have not got it. A column has
// its parent from the start, so that the climb ends under u.
fn climb(x: u32, u: u32, vertices: &[Vertex], starts: &mut [u32], rows: &mut [u32])
    ghost p: { Pattern }
    requires found { Found p vertices.now }
    requires room { Room p (length starts.old) (length rows.old) }
    requires row { (1 ≤ u) × (u ≤ p.order) }
    requires met { InRow p u x }
    requires before { Climbing p u 0 starts.old rows.old }
    ensures { Climbed p u x starts.old rows.old starts.new rows.new }
{
    let mut v = x;
    while rows[starts[v as usize] as usize - 1] != u {
        append(u, v, starts, rows);
        v = vertices[v as usize - 1].parent as u32;
    }
}

// Writes row u: a climb from each of the lower neighbours of u.
fn write_row(u: u32, vertices: &[Vertex], entries: &[Entry], starts: &mut [u32], rows: &mut [u32])
    ghost p: { Pattern }
    requires pattern { p ≡ pattern_in vertices.now entries.now }
    requires found { Found p vertices.now }
    requires lists { Listed High vertices.now entries.now }
    requires room { Room p (length starts.old) (length rows.old) }
    requires has { Has vertices.now u }
    requires before { Filled p p.order (u - 1) starts.old rows.old }
    ensures row { Filled p p.order u starts.new rows.new }
    ensures rest { Rest p starts.old rows.old starts.new rows.new }
{
    for slot in neighbours(End::High, u, vertices, entries) {
        climb(slot.lower as u32, u, vertices, starts, rows);
    }
}

// Writes the rows in their order, so that each column's ascend.
fn write_rows(vertices: &[Vertex], entries: &[Entry], starts: &mut [u32], rows: &mut [u32])
    ghost p: { Pattern }
    requires pattern { p ≡ pattern_in vertices.now entries.now }
    requires found { Found p vertices.now }
    requires lists { Listed High vertices.now entries.now }
    requires room { Room p (length starts.old) (length rows.old) }
    requires before { Filled p p.order 0 starts.old rows.old }
    ensures rows { Filled p p.order p.order starts.new rows.new }
    ensures rest { Rest p starts.old rows.old starts.new rows.new }
{
    for u in 1..=vertices.len() as u32 {
        write_row(u, vertices, entries, starts, rows);
    }
}

// Writes the starts and the rows of the factor's columns, at the beginning of the two arrays.
pub fn structure(vertices: &[Vertex], entries: &[Entry], starts: &mut [u32], rows: &mut [u32])
    ghost p: { Pattern }
    requires pattern { p ≡ pattern_in vertices.now entries.now }
    requires found { Found p vertices.now }
    requires lists { Listed High vertices.now entries.now }
    requires room { Room p (length starts.old) (length rows.old) }
    ensures starts { starts.new ≡ over (structure.starts p) starts.old }
    ensures rows { rows.new ≡ over (structure.rows p) rows.old }
{
    starts[0] = 0;
    begin_columns(vertices, starts, rows);
    write_rows(vertices, entries, starts, rows);
}
