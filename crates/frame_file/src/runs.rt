// The run of a file: what each line makes of the model, and its answer.
// The model and the sets stay two parameters: each method of a struct that held them would have to say that it still
// holds the same two.
ghost use Rattle.std.specs.Prelude.{◌≡◌, ℕ, true};
ghost use Rattle.frame_text.specs.Records.{asks, makes, part_of, statement_of};
ghost use Rattle.model.specs.Asked.{asked};
ghost use Rattle.model.specs.Meaning.{meaning as means};
ghost use Rattle.model.specs.SetsAfter.{SameSets};
ghost use Rattle.model.specs.States.{made};
ghost use Rattle.model.specs.Untouched.{Untouched, nowhere};
ghost use Rattle.frame_file.specs.Carried.{Does, LineAnswered, Settles, lent_with, places};
ghost use Rattle.frame_file.specs.Runs.{allowed, judged, line_sets, line_verdict, number_of, run_state};
ghost use Rattle.frame_file.specs.Runs.{FileAnswered, file_sets, file_state, file_written, too_long};

use crate::faults::RunFault;
use crate::sinks::Answers;
use crate::states::RunState;
use frame_text::{Answer, Field, FrameReader, Line, Question, Record};
use model::{Model, Refusal, make};
use sets::AncestorSets;

// The longest file that a run takes.
pub const FILE_MOST: usize = 32_768;

// How far the run of this model has come.
fn run_state(model: &Model) -> RunState
    ensures { result ≡ run_state (means model.now) }
{
    match (model.order(), model.is_analysed()) {
        (0, _) => RunState::BeforeModel,
        (_, true) => RunState::Analysed,
        (_, false) => RunState::Unanalysed,
    }
}

// Makes the model anew in its own tables.
fn remake(model: &mut Model<'_>, order: u32)
    ensures state { means model.new ≡ made order (places model.old) (means model.old).capacity }
    ensures tables { Untouched nowhere model.old.store model.new.store }
{
    let (vertices, entries) = std::mem::replace(model, make(0, &mut [], &mut [])).into_tables();
    *model = make(order, vertices, entries);
}

fn make_model<'f>(
    model: &mut Model<'_>,
    name: Field<'f>,
    order: Field<'f>,
) -> Result<Answer<'f>, Refusal>
    ensures { (size : ℕ) → Does size (judged (makes (part_of name.entry) (part_of order.entry)))
        model.old model.new result }
{
    let n = order.value();
    model.judge_order(n)?;
    remake(model, n);
    Ok(Answer::Made {
        name: name.bytes,
        order: n,
    })
}

// What the model answers to a question, each by its own call: one given as a parameter would be picked by this match.
fn read_number(model: &Model<'_>, question: Question, vertex: u32) -> Result<u32, Refusal>
    ensures { result ≡ asked (number_of question) model.now vertex }
{
    match question {
        Question::Parent => model.parent(vertex),
        Question::Place => model.place(vertex),
        Question::FirstPlace => model.first_place(vertex),
        Question::Height => model.height(vertex),
        Question::RowCount => model.row_count(vertex),
        Question::ColumnCount => model.column_count(vertex),
    }
}

fn ask<'f>(model: &Model<'_>, question: Question, vertex: Field<'f>) -> Result<Answer<'f>, Refusal>
    ensures { (size : ℕ) → Does size (judged (asks question (part_of vertex.entry)))
        model.now model.now result }
{
    let vertex = vertex.value();
    let number = read_number(model, question, vertex)?;
    Ok(Answer::Asked {
        question,
        vertex,
        number,
    })
}

// What a record makes of the model and of the sets, by how far the run has come: one match on both, which is the
// project's form for it.
fn carry_out<'f, S: AncestorSets>(
    record: Record<'f>,
    line: usize,
    model: &mut Model<'_>,
    sets: &mut S,
) -> Result<Answer<'f>, RunFault>
    ensures carried { Does (S.meaning sets.old).size (λ z s. allowed z s line (statement_of «record».entry))
        model.old model.new result }
    ensures sets { Settles (λ z s. allowed z s line (statement_of «record».entry)) model.old
        (S.meaning sets.old) (S.meaning sets.new) }
{
    match (run_state(model), record) {
        (RunState::BeforeModel, Record::Make { name, order }) => make_model(model, name, order),
        (RunState::BeforeModel, _) => return Err(RunFault::OutOfPlace { line }),
        (_, Record::Make { .. }) => return Err(RunFault::OutOfPlace { line }),
        (_, Record::Put { i, j }) => model
            .put(i.value(), j.value())
            .map(|held| Answer::Put { held }),
        (_, Record::Drop { i, j }) => model
            .drop_entry(i.value(), j.value())
            .map(|held| Answer::Dropped { held }),
        (_, Record::Analyse) => model.analyse(sets).map(|total| Answer::Analysed { total }),
        (_, Record::Ask { question, vertex }) => ask(model, question, vertex),
    }
    .map_err(|refusal| RunFault::Refused { line, refusal })
}

// What a line makes of the model and of the sets.
fn try_line<'f, S: AncestorSets>(
    line: Line<'f>,
    model: &mut Model<'_>,
    sets: &mut S,
) -> Result<Answer<'f>, RunFault>
    ensures carried { Does (S.meaning sets.old).size
        (λ z s. line_verdict z s line.entry.number (line.entry.bytes.now, line.entry.ended))
        model.old model.new result }
    ensures sets { Settles (λ z s. line_verdict z s line.entry.number (line.entry.bytes.now, line.entry.ended))
        model.old (S.meaning sets.old) (S.meaning sets.new) }
{
    let record = line.read()?;
    carry_out(record, line.number, model, sets)
}

// Carries out a line, and answers it by a block of 32 bytes.
pub fn answer_line<S: AncestorSets>(line: Line<'_>, model: &mut Model<'_>, sets: &mut S) -> [u8; 32]
    ensures answered { LineAnswered (S.meaning sets.old).size line.entry model.old model.new result }
    ensures sets { SameSets
        (line_sets (lent_with model.old (S.meaning sets.old).size) (means model.old)
        line.entry.number (line.entry.bytes.now, line.entry.ended) (S.meaning sets.old))
        (S.meaning sets.new) }
{
    match try_line(line, model, sets) {
        Ok(answer) => answer.block(),
        Err(fault) => Answer::from(fault).block(),
    }
}

// Carries out the lines of a file in order, and hands the answer to each to the sink. Of a file that is too long no
// line is carried out.
pub fn run_file<S: AncestorSets, A: Answers>(
    file: &[u8],
    model: &mut Model<'_>,
    sets: &mut S,
    answers: &mut A,
)
    ensures state { means model.new ≡
        file_state (lent_with model.old (S.meaning sets.old).size) (means model.old) file.now }
    ensures answers { FileAnswered A.took (lent_with model.old (S.meaning sets.old).size)
        (means model.old) file.now answers.old answers.new }
    ensures sets { SameSets
        (file_sets (lent_with model.old (S.meaning sets.old).size) (means model.old) file.now (S.meaning sets.old))
        (S.meaning sets.new) }
    ensures tables { Untouched
        (file_written (lent_with model.old (S.meaning sets.old).size) (means model.old) file.now)
        model.old.store model.new.store }
    ensures keeps { too_long file.now ≡ true → model.new ≡ model.old }
{
    if file.len() > FILE_MOST {
        answers.take(&Answer::from(RunFault::FileTooLong).block());
        return;
    }
    for line in FrameReader::new(file) {
        let block = answer_line(line, model, sets);
        answers.take(&block);
    }
}
