//! The library's answers beside those of the equation.

use crate::patterns::{Pair, Pattern};
use crate::reference::Structure;
use crate::script::{Script, Step};
use analysis::records::{Entry, Vertex};
use model::{Columns, Model, Refusal, make};
use sets::{FollowedLinks, HalvedLinks, WrittenTops};
use std::alloc::{AllocError, Global};

/// The order up to which each kind of sets has a model of its own, in tables that the last one left as they are.
const SMALL: u32 = 400;

/// A kind of sets.
#[derive(Clone, Copy, Debug)]
pub enum Kind {
    FollowedLinks,
    HalvedLinks,
    WrittenTops,
}

impl Kind {
    const ALL: [Kind; 3] = [Kind::FollowedLinks, Kind::HalvedLinks, Kind::WrittenTops];

    fn analyse(self, model: &mut Model<'_>, numbers: &mut [u32]) -> Result<u64, Refusal> {
        match self {
            Kind::FollowedLinks => model.analyse(&mut FollowedLinks::new(numbers)),
            Kind::HalvedLinks => model.analyse(&mut HalvedLinks::new(numbers)),
            Kind::WrittenTops => model.analyse(&mut WrittenTops::new(numbers)),
        }
    }
}

/// Where the library and the equation differ, or a call was refused.
#[derive(Clone, Copy, Debug)]
pub enum Difference {
    /// A step of the script.
    Step(Step),
    /// The first pair, dropped and put again between two analyses.
    Again(Pair),
    Analysis(Kind),
    Total(Kind),
    Parent(Kind, u32),
    Place(Kind, u32),
    FirstPlace(Kind, u32),
    Height(Kind, u32),
    RowCount(Kind, u32),
    ColumnCount(Kind, u32),
    /// The call that gives the structure.
    Structure(Kind),
    Starts(Kind),
    Rows(Kind),
    Column(Kind, u32),
}

/// What is lent to a model and to its sets, of exactly the size that a pattern and its script need.
#[derive(Drop)]
pub struct Tables {
    vertices: Vec<Vertex>,
    entries: Vec<Entry>,
    numbers: Vec<u32>,
    starts: Vec<u32>,
    rows: Vec<u32>,
}

impl Tables {
    pub(crate) fn new(
        alloc: Global,
        structure: &Structure,
        capacity: usize,
    ) -> Result<Tables, AllocError> {
        let order = structure.order;
        let mut vertices = Vec::new(alloc);
        for _ in 0..order {
            vertices.push(Vertex::new())?;
        }
        let mut entries = Vec::new(alloc);
        for _ in 0..capacity {
            entries.push(Entry::new())?;
        }
        Ok(Tables {
            vertices,
            entries,
            numbers: vec![in alloc; 0; order as usize]?,
            starts: vec![in alloc; 0; structure.starts.len()]?,
            rows: vec![in alloc; 0; structure.rows.len()]?,
        })
    }

    /// Compares all answers, with every kind of sets.
    pub(crate) fn compare(
        &mut self,
        pattern: &Pattern,
        script: &Script,
        structure: &Structure,
    ) -> Result<(), Difference> {
        if pattern.order <= SMALL {
            for kind in Kind::ALL {
                let mut model = make(pattern.order, &mut self.vertices, &mut self.entries);
                run(&mut model, script)?;
                check(&mut model, kind, &mut self.numbers, structure)?;
                check_structure(&model, kind, &mut self.starts, &mut self.rows, structure)?;
            }
            return Ok(());
        }
        let mut model = make(pattern.order, &mut self.vertices, &mut self.entries);
        run(&mut model, script)?;
        for kind in Kind::ALL {
            check(&mut model, kind, &mut self.numbers, structure)?;
            check_structure(&model, kind, &mut self.starts, &mut self.rows, structure)?;
            touch(&mut model, pattern)?;
        }
        Ok(())
    }
}

/// Takes the steps of a script; each has to answer how many entries are held.
fn run(model: &mut Model<'_>, script: &Script) -> Result<(), Difference> {
    let mut held = 0u32;
    for step in &script.steps {
        let answer = match *step {
            Step::Put(i, j) => {
                held = held.saturating_add(1);
                model.put(i, j)
            }
            Step::Drop(i, j) => {
                held = held.saturating_sub(1);
                model.drop_entry(i, j)
            }
        };
        ensure(is(answer, held), Difference::Step(*step))?;
    }
    Ok(())
}

/// Drops the first pair and puts it again: the pattern is the same, and the model has to be analysed anew.
fn touch(model: &mut Model<'_>, pattern: &Pattern) -> Result<(), Difference> {
    if let Some(pair) = pattern.pairs.first() {
        let is_held = model.drop_entry(pair.j, pair.i).is_ok() && model.put(pair.i, pair.j).is_ok();
        ensure(is_held, Difference::Again(*pair))?;
    }
    Ok(())
}

/// Analyses the model and compares all its answers.
fn check(
    model: &mut Model<'_>,
    kind: Kind,
    numbers: &mut [u32],
    structure: &Structure,
) -> Result<(), Difference> {
    let total = kind.analyse(model, numbers);
    ensure(is_long(total, structure.total), Difference::Analysis(kind))?;
    ensure(
        is_long(model.total(), structure.total),
        Difference::Total(kind),
    )?;
    for vertex in 1..=structure.order {
        check_vertex(model, kind, vertex, structure)?;
    }
    Ok(())
}

fn check_vertex(
    model: &Model<'_>,
    kind: Kind,
    vertex: u32,
    structure: &Structure,
) -> Result<(), Difference> {
    ensure(
        is(model.parent(vertex), structure.parents.of(vertex)),
        Difference::Parent(kind, vertex),
    )?;
    ensure(
        is(model.place(vertex), structure.places.of(vertex)),
        Difference::Place(kind, vertex),
    )?;
    ensure(
        is(model.first_place(vertex), structure.first_places.of(vertex)),
        Difference::FirstPlace(kind, vertex),
    )?;
    ensure(
        is(model.height(vertex), structure.heights.of(vertex)),
        Difference::Height(kind, vertex),
    )?;
    ensure(
        is(model.row_count(vertex), structure.row_counts.of(vertex)),
        Difference::RowCount(kind, vertex),
    )?;
    ensure(
        is(
            model.column_count(vertex),
            structure.column_counts.of(vertex),
        ),
        Difference::ColumnCount(kind, vertex),
    )
}

/// Has an analysed model fill the tables of the structure, and compares them.
fn check_structure(
    model: &Model<'_>,
    kind: Kind,
    starts: &mut [u32],
    rows: &mut [u32],
    structure: &Structure,
) -> Result<(), Difference> {
    let is_filled = model.structure(starts, rows).is_ok();
    ensure(is_filled, Difference::Structure(kind))?;
    ensure(
        &*starts == structure.starts.as_slice(),
        Difference::Starts(kind),
    )?;
    ensure(&*rows == structure.rows.as_slice(), Difference::Rows(kind))?;
    let columns = Columns::new(starts, rows);
    for vertex in 1..=structure.order {
        let is_same = columns.column(vertex) == Some(structure.column(vertex));
        ensure(is_same, Difference::Column(kind, vertex))?;
    }
    Ok(())
}

fn is(answer: Result<u32, Refusal>, expected: u32) -> bool {
    matches!(answer, Ok(number) if number == expected)
}

fn is_long(answer: Result<u64, Refusal>, expected: u64) -> bool {
    matches!(answer, Ok(number) if number == expected)
}

fn ensure(holds: bool, difference: Difference) -> Result<(), Difference> {
    if holds { Ok(()) } else { Err(difference) }
}
