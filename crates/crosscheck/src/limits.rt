//! The bounds of what a model takes.

use crate::patterns::LARGE;
use analysis::records::{Entry, Vertex};
use model::{judge, make};
use std::alloc::{AllocError, Global};

/// The number of the refusal of an order that is too large.
const ORDER_REFUSED: u32 = 8;

/// Whether the largest order is taken, with a vertex table of that size.
pub(crate) fn takes_largest_order(alloc: Global) -> Result<bool, AllocError> {
    let mut vertices = vertex_table(alloc, LARGE)?;
    Ok(judge(LARGE, &vertices).is_ok() && make(LARGE, &mut vertices, &mut []).order() == LARGE)
}

/// Whether an order of one more is refused by its number, with a vertex table of that size.
pub(crate) fn refuses_larger_order(alloc: Global) -> Result<bool, AllocError> {
    let order = LARGE + 1;
    let mut vertices = vertex_table(alloc, order)?;
    let is_refused = match judge(order, &vertices) {
        Ok(()) => false,
        Err(refusal) => u32::from(refusal.number()) == ORDER_REFUSED,
    };
    Ok(is_refused && make(order, &mut vertices, &mut []).order() == 0)
}

/// Whether a model with room for one entry takes a put, its drop and another put.
pub(crate) fn takes_one_entry_after_another(alloc: Global) -> Result<bool, AllocError> {
    let mut vertices = vertex_table(alloc, 3)?;
    let mut entries = [Entry::new()];
    let mut model = make(3, &mut vertices, &mut entries);
    Ok(
        matches!(model.put(1, 2), Ok(1))
            && matches!(model.drop_entry(2, 1), Ok(0))
            && matches!(model.put(3, 2), Ok(1)),
    )
}

fn vertex_table(alloc: Global, order: u32) -> Result<Vec<Vertex>, AllocError> {
    let mut vertices = Vec::new(alloc);
    for _ in 0..order {
        vertices.push(Vertex::new())?;
    }
    Ok(vertices)
}
