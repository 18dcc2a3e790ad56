//! The factor's structure by columns, computed plainly from one equation and in no other way.
//!
//! The rows of column k are k itself, the higher neighbours of k, and all rows but j of every column j below k
//! whose smallest row above j is k.

use crate::patterns::Pair;
use crate::tables::{Lists, Numbers};
use std::alloc::{AllocError, Global};

/// What the rows of the columns are, and what follows from them. Vertices count from 1.
#[derive(Drop)]
pub struct Structure {
    pub order: u32,
    /// The rows of each column, ascending.
    columns: Lists,
    /// The sum of all column counts.
    pub total: u64,
    /// The first row of the column below its diagonal; 0 if there is none.
    pub parents: Numbers,
    /// How many rows the column has, its diagonal with them.
    pub column_counts: Numbers,
    /// How many columns have the row, its own with them.
    pub row_counts: Numbers,
    /// Where the column's rows below the diagonal begin in `rows`, column after column, and at last where they end.
    pub starts: Vec<u32>,
    /// The rows below the diagonals, column after column, ascending in each.
    pub rows: Vec<u32>,
    /// The position in the postorder, from 1: roots ascending, children ascending, a vertex after its children.
    pub places: Numbers,
    /// The least place in the subtree.
    pub first_places: Numbers,
    /// How many levels the subtree reaches below the vertex.
    pub heights: Numbers,
}

impl Structure {
    pub(crate) fn new(alloc: Global, order: u32, pairs: &[Pair]) -> Result<Structure, AllocError> {
        let columns = columns(alloc, order, pairs)?;
        let parents = parents(alloc, order, &columns)?;
        let places = places(alloc, order, &parents)?;
        Ok(Structure {
            order,
            total: total(order, &columns),
            column_counts: column_counts(alloc, order, &columns)?,
            row_counts: row_counts(alloc, order, &columns)?,
            starts: starts(alloc, order, &columns)?,
            rows: rows_below(alloc, order, &columns)?,
            first_places: first_places(alloc, order, &parents, &places)?,
            heights: heights(alloc, order, &parents)?,
            columns,
            parents,
            places,
        })
    }

    /// The rows of a column below its diagonal.
    pub(crate) fn column(&self, vertex: u32) -> &[u32] {
        below_diagonal(self.columns.of(vertex))
    }
}

/// The rows of all columns, ascending in each.
fn columns(alloc: Global, order: u32, pairs: &[Pair]) -> Result<Lists, AllocError> {
    let higher = higher_neighbours(alloc, order, pairs)?;
    let mut columns = Lists::new(alloc, order)?;
    // For each k, the columns whose first row below the diagonal is k.
    let mut sources = Lists::new(alloc, order)?;
    for k in 1..=order {
        let rows = rows_of(alloc, k, higher.of(k), sources.of(k), &columns)?;
        if let Some(first) = rows.get(1) {
            sources.push(*first, k)?;
        }
        columns.set(k, rows);
    }
    Ok(columns)
}

/// The equation: the rows of column `k`, where `sources` are the columns whose first row below the diagonal is `k`.
fn rows_of(
    alloc: Global,
    k: u32,
    higher: &[u32],
    sources: &[u32],
    columns: &Lists,
) -> Result<Vec<u32>, AllocError> {
    let mut rows = Vec::new(alloc);
    rows.push(k)?;
    rows.extend_from_slice(higher)?;
    for source in sources {
        rows.extend_from_slice(below_diagonal(columns.of(*source)))?;
    }
    rows.sort_unstable();
    rows.dedup();
    Ok(rows)
}

fn higher_neighbours(alloc: Global, order: u32, pairs: &[Pair]) -> Result<Lists, AllocError> {
    let mut higher = Lists::new(alloc, order)?;
    for pair in pairs {
        higher.push(pair.i.min(pair.j), pair.i.max(pair.j))?;
    }
    Ok(higher)
}

/// All rows of a column but the first, which is its own number.
fn below_diagonal(column: &[u32]) -> &[u32] {
    match column.split_first() {
        Some((_, below)) => below,
        None => &[],
    }
}

fn parents(alloc: Global, order: u32, columns: &Lists) -> Result<Numbers, AllocError> {
    let mut parents = Numbers::new(alloc, order)?;
    for k in 1..=order {
        if let Some(first) = below_diagonal(columns.of(k)).first() {
            parents.set(k, *first);
        }
    }
    Ok(parents)
}

fn total(order: u32, columns: &Lists) -> u64 {
    let mut total = 0u64;
    for k in 1..=order {
        total = total.saturating_add(columns.of(k).len() as u64);
    }
    total
}

fn column_counts(alloc: Global, order: u32, columns: &Lists) -> Result<Numbers, AllocError> {
    let mut counts = Numbers::new(alloc, order)?;
    for k in 1..=order {
        counts.set(k, number(columns.of(k).len()));
    }
    Ok(counts)
}

fn row_counts(alloc: Global, order: u32, columns: &Lists) -> Result<Numbers, AllocError> {
    let mut counts = Numbers::new(alloc, order)?;
    for k in 1..=order {
        for row in columns.of(k) {
            counts.set(*row, counts.of(*row).saturating_add(1));
        }
    }
    Ok(counts)
}

fn starts(alloc: Global, order: u32, columns: &Lists) -> Result<Vec<u32>, AllocError> {
    let mut starts = Vec::new(alloc);
    let mut start = 0usize;
    starts.push(0)?;
    for k in 1..=order {
        start = start.saturating_add(below_diagonal(columns.of(k)).len());
        starts.push(number(start))?;
    }
    Ok(starts)
}

fn rows_below(alloc: Global, order: u32, columns: &Lists) -> Result<Vec<u32>, AllocError> {
    let mut rows = Vec::new(alloc);
    for k in 1..=order {
        rows.extend_from_slice(below_diagonal(columns.of(k)))?;
    }
    Ok(rows)
}

/// The places in the postorder, from the parents alone.
fn places(alloc: Global, order: u32, parents: &Numbers) -> Result<Numbers, AllocError> {
    let postorder = postorder(alloc, order, parents)?;
    let mut places = Numbers::new(alloc, order)?;
    for (index, vertex) in postorder.iter().enumerate() {
        places.set(*vertex, number(index).saturating_add(1));
    }
    Ok(places)
}

/// A vertex on the way from a root to where a walk is, and how many of its children are done.
#[derive(Clone, Copy)]
struct Visit {
    vertex: u32,
    done: usize,
}

/// The vertices in postorder. The walk begins at 0, which stands above the roots, and ends there.
fn postorder(alloc: Global, order: u32, parents: &Numbers) -> Result<Vec<u32>, AllocError> {
    let children = children(alloc, order, parents)?;
    let mut postorder = Vec::new(alloc);
    let mut way = Vec::new(alloc);
    way.push(Visit { vertex: 0, done: 0 })?;
    // Each vertex is entered once and left once.
    for _ in 0..2 * u64::from(order) {
        let Some(Visit { vertex, done }) = way.pop() else {
            break;
        };
        match children.of(vertex).get(done) {
            Some(child) => {
                way.push(Visit {
                    vertex,
                    done: done.saturating_add(1),
                })?;
                way.push(Visit {
                    vertex: *child,
                    done: 0,
                })?;
            }
            None => postorder.push(vertex)?,
        }
    }
    Ok(postorder)
}

/// The children of each vertex, ascending; those of 0 are the roots.
fn children(alloc: Global, order: u32, parents: &Numbers) -> Result<Lists, AllocError> {
    let mut children = Lists::new(alloc, order)?;
    for vertex in 1..=order {
        children.push(parents.of(vertex), vertex)?;
    }
    Ok(children)
}

/// A parent is higher than its children, so all that is below a vertex is in its number when its turn comes.
fn first_places(
    alloc: Global,
    order: u32,
    parents: &Numbers,
    places: &Numbers,
) -> Result<Numbers, AllocError> {
    let mut firsts = Numbers::new(alloc, order)?;
    for vertex in 1..=order {
        firsts.set(vertex, places.of(vertex));
    }
    for vertex in 1..=order {
        let parent = parents.of(vertex);
        firsts.set(parent, firsts.of(parent).min(firsts.of(vertex)));
    }
    Ok(firsts)
}

fn heights(alloc: Global, order: u32, parents: &Numbers) -> Result<Numbers, AllocError> {
    let mut heights = Numbers::new(alloc, order)?;
    for vertex in 1..=order {
        let parent = parents.of(vertex);
        let reached = heights.of(vertex).saturating_add(1);
        heights.set(parent, heights.of(parent).max(reached));
    }
    Ok(heights)
}

/// A length as a number of 32 bits. No pattern here has as many rows that it does not fit.
fn number(length: usize) -> u32 {
    u32::try_from(length).unwrap_or(u32::MAX)
}
