// Making a model from an order and two tables.
ghost use Rattle.std.specs.Prelude.{◌≡◌, length};
ghost use Rattle.model.specs.Meaning.{meaning};
ghost use Rattle.model.specs.States.{answer, first_fault, made};

use crate::models::Model;
use crate::refusals::Refusal;
use crate::stores::Store;
use analysis::records::{Entry, Vertex};

// The largest order of a model.
pub const LARGEST_ORDER: u32 = 16_384;

// Whether a model of this order can be made with this vertex table.
pub fn judge(order: u32, vertices: &[Vertex]) -> Result<(), Refusal>
    ensures { result ≡ answer (first_fault order (length vertices.now)) tt }
{
    if order == 0 || order > LARGEST_ORDER {
        return Err(Refusal::OrderOutOfRange);
    }
    if vertices.len() < order as usize {
        return Err(Refusal::TableTooShort);
    }
    Ok(())
}

// A model that holds no entry: of the order given, or the empty one where `judge` refuses. It has the two tables
// whole, as they are. That they are the ones lent is said for the caller that gets them back by `into_tables`.
pub fn make<'a>(order: u32, vertices: &'a mut [Vertex], entries: &'a mut [Entry]) -> Model<'a>
    ensures state { meaning result ≡ made order (length vertices.old) (length entries.old) }
    ensures vertices { result.store.vertices.now ≡ vertices.old }
    ensures entries { result.store.entries.now ≡ entries.old }
    ensures vertices_lent { result.store.vertices.ghost_name ≡ vertices.entry.ghost_name }
    ensures entries_lent { result.store.entries.ghost_name ≡ entries.entry.ghost_name }
{
    let order = judge(order, vertices).map_or(0, |()| order);
    Model {
        store: Store {
            order,
            held: 0,
            total: None,
            vertices,
            entries,
        },
    }
}

impl<'a> Model<'a> {
    // Whether a model of this order can be made with the vertex table of this one.
    pub fn judge_order(&self, order: u32) -> Result<(), Refusal>
        ensures { result ≡ answer (first_fault order (length self.now.store.vertices.now)) tt }
    {
        judge(order, self.store.vertices)
    }

    // The two tables again, to make another model with.
    pub fn into_tables(self) -> (&'a mut [Vertex], &'a mut [Entry])
        ensures vertices { result.0.now ≡ self.entry.store.vertices.now }
        ensures entries { result.1.now ≡ self.entry.store.entries.now }
        ensures vertices_lent { result.0.ghost_name ≡ self.entry.store.vertices.ghost_name }
        ensures entries_lent { result.1.ghost_name ≡ self.entry.store.entries.ghost_name }
    {
        let Store {
            vertices,
            entries,
            ..
        } = self.store;
        (vertices, entries)
    }
}
