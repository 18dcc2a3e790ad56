// Whole runs: what one is lent and what it hands back, and two of them side by side.
ghost use Rattle.runs.specs.WholeRuns.{Between, Lawful, Ran};

use crate::calls::Call;
use crate::lending::LentSets;
use crate::performing::perform;
use crate::sinks::Replies;
use analysis::records::{Entry, Vertex};
use model::{Model, make};

// What a run is given: the order and the tables to make its model, the calls, and what is lent for them.
#[derive(Drop)]
pub struct Run<'a, S, A> {
    pub order: u32,
    pub vertices: &'a mut [Vertex],
    pub entries: &'a mut [Entry],
    pub calls: &'a [Call],
    pub sets: S,
    pub starts: &'a mut [u32],
    pub rows: &'a mut [u32],
    pub replies: A,
}

// What it hands back: the model, and what was lent for the calls.
#[derive(Drop)]
pub struct Done<'a, S, A> {
    pub model: Model<'a>,
    pub sets: S,
    pub starts: &'a mut [u32],
    pub rows: &'a mut [u32],
    pub replies: A,
}

// One run: makes the model and carries out the calls.
fn make_and_perform<'a, S: LentSets, A: Replies>(given: Run<'a, S, A>) -> Done<'a, S, A>
    ensures { Ran S.meanings given.entry A.took result }
{
    let Run {
        order,
        vertices,
        entries,
        calls,
        sets,
        starts,
        rows,
        replies,
    } = given;
    let mut model = make(order, vertices, entries);
    let mut sets = sets;
    let mut replies = replies;
    perform(calls, &mut model, &mut sets, starts, rows, &mut replies);
    Done {
        model,
        sets,
        starts,
        rows,
        replies,
    }
}

// Two runs, one after the other. The law over runs stands here: what the model of each answers after it, told by paths
// of its members, and how the answers of the two compare where the second has every member of the first.
pub fn run_both<'a, 'b, S: LentSets, A: Replies, T: LentSets, B: Replies>(
    first: Run<'a, S, A>,
    second: Run<'b, T, B>,
) -> (Done<'a, S, A>, Done<'b, T, B>)
    ensures first { Ran S.meanings first.entry A.took result.0 }
    ensures first_law { Lawful S.meanings first.entry result.0 }
    ensures second { Ran T.meanings second.entry B.took result.1 }
    ensures second_law { Lawful T.meanings second.entry result.1 }
    ensures between { Between S.meanings T.meanings first.entry second.entry result.0 result.1 }
{
    (make_and_perform(first), make_and_perform(second))
}
