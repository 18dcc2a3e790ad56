// A list of calls, carried out one after the other on a model.
ghost use Rattle.std.specs.Prelude.{◌≡◌, length, min, true};
ghost use Rattle.model.specs.Asked.{asked, told};
ghost use Rattle.model.specs.Meaning.{meaning};
ghost use Rattle.model.specs.States.{Structure};
ghost use Rattle.model.specs.Written.{rows_after, starts_after};
ghost use Rattle.runs.specs.Laws.{Answers};
ghost use Rattle.runs.specs.Runs.{lending, number_of, Performed, Turned};

use crate::calls::{Call, Question, Reply};
use crate::lending::LentSets;
use crate::sinks::Replies;
use model::{Model, Refusal};

// What the model answers to a question, each by its own call.
fn read_number(model: &Model<'_>, question: Question, vertex: u32) -> Result<u32, Refusal>
    ensures { result ≡ asked (number_of question) model.now vertex }
{
    match question {
        Question::Parent => model.parent(vertex),
        Question::Place => model.place(vertex),
        Question::FirstPlace => model.first_place(vertex),
        Question::Height => model.height(vertex),
        Question::RowCount => model.row_count(vertex),
        Question::ColumnCount => model.column_count(vertex),
    }
}

// Writes the structure into the first places of the arrays.
fn write_structure(
    model: &Model<'_>,
    long: usize,
    wide: usize,
    starts: &mut [u32],
    rows: &mut [u32],
) -> Result<(), Refusal>
    ensures answer { result ≡ told model.now
        (Structure (min long (length starts.old)) (min wide (length rows.old))) tt }
    ensures starts { starts.new ≡ starts_after (meaning model.now)
        (Structure (min long (length starts.old)) (min wide (length rows.old))) starts.old }
    ensures rows { rows.new ≡ rows_after (meaning model.now)
        (Structure (min long (length starts.old)) (min wide (length rows.old))) rows.old }
{
    let long = long.min(starts.len());
    let wide = wide.min(rows.len());
    model.structure(&mut starts[..long], &mut rows[..wide])
}

// Carries out one call.
fn carry_out<S: LentSets>(
    call: Call,
    model: &mut Model<'_>,
    sets: &mut S,
    starts: &mut [u32],
    rows: &mut [u32],
) -> Result<Reply, Refusal>
    ensures { Turned call model.old model.new (lending (S.meanings sets.old) starts.old rows.old)
        (lending (S.meanings sets.new) starts.new rows.new) result }
{
    match call {
        Call::Put { i, j } => model.put(i, j).map(Reply::Held),
        Call::Drop { i, j } => model.drop_entry(i, j).map(Reply::Held),
        Call::Analyse { sets: index } => sets.analyse(index, model).map(Reply::Total),
        Call::Ask { question, vertex } => {
            read_number(model, question, vertex).map(Reply::Number)
        }
        Call::Total => model.total().map(Reply::Total),
        Call::Structure {
            starts: long,
            rows: wide,
        } => write_structure(model, long, wide, starts, rows).map(|()| Reply::Written),
    }
}

// Carries out calls in their order, and hands the reply to each to the sink.
pub fn perform<S: LentSets, A: Replies>(
    calls: &[Call],
    model: &mut Model<'_>,
    sets: &mut S,
    starts: &mut [u32],
    rows: &mut [u32],
    replies: &mut A,
)
    ensures performed { Performed A.took calls.now model.old model.new
        (lending (S.meanings sets.old) starts.old rows.old)
        (lending (S.meanings sets.new) starts.new rows.new) replies.old replies.new }
    ensures law { (meaning model.new).analysed ≡ true → Answers (meaning model.new) model.new }
{
    for call in calls {
        let reply = carry_out(*call, model, sets, starts, rows);
        replies.take(*call, reply);
    }
}
