// What a model accepts and refuses, at the edges of each rule.
use crate::{Columns, Refusal, Side, judge, make};
use analysis::records::{Entry, Vertex};
use sets::{AncestorSets, HalvedLinks, WrittenTops};

#[test]
fn orders(rt: HostRuntime) {
    let vertices = [Vertex::new(); 16_384];
    assert_eq!(rt; judge(0, &vertices), Err(Refusal::OrderOutOfRange));
    assert_eq!(rt; judge(1, &vertices[0..1]), Ok(()));
    assert_eq!(rt; judge(2, &vertices[0..1]), Err(Refusal::TableTooShort));
    assert_eq!(rt; judge(16_384, &vertices), Ok(()));
    assert_eq!(rt; judge(16_385, &vertices), Err(Refusal::OrderOutOfRange));
}

#[test]
fn empty(rt: HostRuntime) {
    let mut vertices = [Vertex::new(); 2];
    let mut entries = [Entry::new(); 5];
    let mut model = make(3, &mut vertices, &mut entries);
    assert_eq!(rt; model.order(), 0);
    assert_eq!(rt; model.capacity(), 5);
    assert_eq!(rt; model.put(0, 0), Err(Refusal::EmptyModel));
    assert_eq!(rt; model.drop_entry(1, 2), Err(Refusal::EmptyModel));
    assert_eq!(rt; model.structure(&mut [], &mut []), Err(Refusal::EmptyModel));
}

#[test]
fn vertices_of_an_entry(rt: HostRuntime) {
    let mut vertices = [Vertex::new(); 3];
    let mut entries = [Entry::new(); 9];
    let mut model = make(3, &mut vertices, &mut entries);
    assert_eq!(rt;
        model.put(0, 4),
        Err(Refusal::VertexOutOfRange(Side::First))
    );
    assert_eq!(rt;
        model.put(4, 4),
        Err(Refusal::VertexOutOfRange(Side::First))
    );
    assert_eq!(rt;
        model.put(3, 4),
        Err(Refusal::VertexOutOfRange(Side::Second))
    );
    assert_eq!(rt; model.put(3, 3), Err(Refusal::EqualVertices));
    assert_eq!(rt; model.put(3, 1), Ok(1));
    assert_eq!(rt; model.put(1, 3), Err(Refusal::EntryHeld));
    assert_eq!(rt; model.drop_entry(2, 2), Err(Refusal::EqualVertices));
    assert_eq!(rt; model.drop_entry(1, 2), Err(Refusal::EntryNotHeld));
}

#[test]
fn capacity(rt: HostRuntime) {
    let mut vertices = [Vertex::new(); 3];
    let mut entries = [Entry::new(); 1];
    let mut model = make(3, &mut vertices, &mut entries);
    assert_eq!(rt; model.put(1, 2), Ok(1));
    assert_eq!(rt; model.put(2, 1), Err(Refusal::EntryHeld));
    assert_eq!(rt; model.put(2, 3), Err(Refusal::ModelFull));
    assert_eq!(rt; model.drop_entry(2, 1), Ok(0));
    assert_eq!(rt; model.put(2, 3), Ok(1));
    assert_eq!(rt; model.held(), 1);
}

#[test]
fn numbers(rt: HostRuntime) {
    assert_eq!(rt; Refusal::OrderOutOfRange.number(), 8);
    assert_eq!(rt; Refusal::SetsTooSmall.number(), 9);
    assert_eq!(rt; Refusal::VertexOutOfRange(Side::Second).number(), 10);
    assert_eq!(rt; Refusal::NotAnalysed.number(), 15);
    assert_eq!(rt; Refusal::ArraysTooShort.number(), 16);
}

#[test]
fn sets_too_small(rt: HostRuntime) {
    let mut vertices = [Vertex::new(); 3];
    let mut entries = [Entry::new(); 1];
    let mut numbers = [0; 2];
    let mut model = make(3, &mut vertices, &mut entries);
    let mut sets = HalvedLinks::new(&mut numbers);
    assert_eq!(rt; model.analyse(&mut sets), Err(Refusal::SetsTooSmall));
    assert_eq!(rt;
        model.parent(4),
        Err(Refusal::VertexOutOfRange(Side::First))
    );
    assert_eq!(rt; model.parent(3), Err(Refusal::NotAnalysed));
    assert_eq!(rt; model.total(), Err(Refusal::NotAnalysed));
}

// The pairs 1, 3 and 2, 3: eliminating 1 or 2 joins nothing, so the factor has the three diagonal places and two more.
#[test]
fn questions(rt: HostRuntime) {
    let mut vertices = [Vertex::new(); 3];
    let mut entries = [Entry::new(); 2];
    let mut numbers = [0; 3];
    let mut model = make(3, &mut vertices, &mut entries);
    let mut sets = HalvedLinks::new(&mut numbers);
    assert_eq!(rt; model.put(1, 3), Ok(1));
    assert_eq!(rt; model.put(3, 2), Ok(2));
    assert_eq!(rt; model.analyse(&mut sets), Ok(5));
    assert_eq!(rt; model.parent(1), Ok(3));
    assert_eq!(rt; model.put(2, 3), Err(Refusal::EntryHeld));
    assert_eq!(rt; model.row_count(3), Ok(3));
    assert_eq!(rt; model.drop_entry(2, 3), Ok(1));
    assert_eq!(rt; model.total(), Err(Refusal::NotAnalysed));
}

// Analysed already: the total is as it was, and other sets come to have the roots as tops, if they have room.
#[test]
fn analysed_again(rt: HostRuntime) {
    let mut vertices = [Vertex::new(); 4];
    let mut entries = [Entry::new(); 2];
    let mut numbers = [0; 3];
    let mut model = make(3, &mut vertices, &mut entries);
    let mut sets = HalvedLinks::new(&mut numbers);
    assert_eq!(rt; model.put(1, 3), Ok(1));
    assert_eq!(rt; model.analyse(&mut sets), Ok(4));
    let mut more_numbers = [0; 4];
    let mut more_sets = WrittenTops::new(&mut more_numbers);
    assert_eq!(rt; more_sets.start(4), Ok(()));
    assert_eq!(rt; more_sets.merge(3, 2), Ok(()));
    assert_eq!(rt; model.analyse(&mut more_sets), Ok(4));
    assert_eq!(rt; more_sets.find(1), Some(3));
    assert_eq!(rt; more_sets.find(2), Some(2));
    assert_eq!(rt; more_sets.find(3), Some(3));
    assert_eq!(rt; more_sets.find(4), None);
    let mut few_numbers = [0; 2];
    let mut few_sets = WrittenTops::new(&mut few_numbers);
    assert_eq!(rt; model.analyse(&mut few_sets), Err(Refusal::SetsTooSmall));
    assert_eq!(rt; few_sets.find(1), None);
    assert_eq!(rt; model.total(), Ok(4));
}

// The bay: parents 4 3 5 6 6 0. The arrays are longer than the structure, and keep what they hold after it.
#[test]
fn structure(rt: HostRuntime) {
    let mut vertices = [Vertex::new(); 6];
    let mut entries = [Entry::new(); 5];
    let mut numbers = [0; 6];
    let mut model = make(6, &mut vertices, &mut entries);
    let mut sets = HalvedLinks::new(&mut numbers);
    let mut starts = [90; 9];
    let mut rows = [80; 9];
    assert_eq!(rt; model.put(1, 4), Ok(1));
    assert_eq!(rt; model.put(3, 2), Ok(2));
    assert_eq!(rt; model.put(2, 5), Ok(3));
    assert_eq!(rt; model.put(6, 3), Ok(4));
    assert_eq!(rt; model.put(4, 6), Ok(5));
    assert_eq!(rt;
        model.structure(&mut starts[..6], &mut rows),
        Err(Refusal::NotAnalysed)
    );
    assert_eq!(rt; model.analyse(&mut sets), Ok(13));
    assert_eq!(rt;
        model.structure(&mut starts[..6], &mut rows),
        Err(Refusal::ArraysTooShort)
    );
    assert_eq!(rt;
        model.structure(&mut starts, &mut rows[..6]),
        Err(Refusal::ArraysTooShort)
    );
    assert_eq!(rt; rows, [80; 9]);
    assert_eq!(rt; model.structure(&mut starts[..7], &mut rows[..7]), Ok(()));
    assert_eq!(rt; starts, [0, 1, 3, 5, 6, 7, 7, 90, 90]);
    assert_eq!(rt; rows, [4, 3, 5, 5, 6, 6, 6, 80, 80]);
    let columns = Columns::new(&starts[..7], &rows);
    assert_eq!(rt; columns.column(0), None);
    assert_eq!(rt; columns.column(2), Some(&rows[1..3]));
    assert_eq!(rt; columns.column(6), Some(&rows[7..7]));
    assert_eq!(rt; columns.column(7), None);
}

// Starts that fall, or end after the rows, have no such column.
#[test]
fn strange_columns(rt: HostRuntime) {
    let starts = [2, 1, 3, 9];
    let rows = [1, 2, 3];
    let columns = Columns::new(&starts, &rows);
    assert_eq!(rt; columns.column(1), None);
    assert_eq!(rt; columns.column(2), Some(&rows[1..3]));
    assert_eq!(rt; columns.column(3), None);
    assert_eq!(rt; columns.column(4), None);
}
