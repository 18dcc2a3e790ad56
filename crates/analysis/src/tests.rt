// The worked frames, with values worked out by hand.
use crate::analyse;
use crate::records::{Entry, Vertex};
use crate::settling::settle;
use sets::{AncestorSets, HalvedLinks, NoRoom, WrittenTops};
use std::process::Abort;

fn check_vertex(rt: &impl Abort, vertex: Vertex, parent: u16, place: u16, rows: u16, columns: i64) {
    assert_eq!(rt; vertex.parent, parent);
    assert_eq!(rt; vertex.place, place);
    assert_eq!(rt; vertex.rows, rows);
    assert_eq!(rt; vertex.weight.0, columns);
}

#[test]
fn bay(rt: HostRuntime) {
    let mut numbers = [0u32; 6];
    let mut sets = WrittenTops::new(&mut numbers);
    let mut vertices = [Vertex::new(); 6];
    let mut entries = [
        Entry {
            low: 1,
            high: 4,
            lower: 0,
            upper: 0,
        },
        Entry {
            low: 2,
            high: 3,
            lower: 0,
            upper: 0,
        },
        Entry {
            low: 2,
            high: 5,
            lower: 0,
            upper: 0,
        },
        Entry {
            low: 3,
            high: 6,
            lower: 0,
            upper: 0,
        },
        Entry {
            low: 4,
            high: 6,
            lower: 0,
            upper: 0,
        },
    ];
    assert_eq!(rt; analyse(6, &mut vertices, &mut entries, &mut sets), Ok(13));
    check_vertex(&rt, vertices[0], 4, 1, 1, 2);
    check_vertex(&rt, vertices[1], 3, 3, 1, 3);
    check_vertex(&rt, vertices[2], 5, 4, 2, 3);
    check_vertex(&rt, vertices[3], 6, 2, 2, 2);
    check_vertex(&rt, vertices[4], 6, 5, 3, 2);
    check_vertex(&rt, vertices[5], 0, 6, 4, 1);
    assert_eq!(rt; vertices[4].first.0, 3, "the first place below 5");
    assert_eq!(rt;
        (vertices[5].deepest.0, vertices[5].level),
        (3, 0),
        "the height of 6 is 3"
    );
}

#[test]
fn several_trees(rt: HostRuntime) {
    let mut numbers = [0u32; 5];
    let mut sets = WrittenTops::new(&mut numbers);
    let mut vertices = [Vertex::new(); 5];
    let mut entries = [
        Entry {
            low: 1,
            high: 5,
            lower: 0,
            upper: 0,
        },
        Entry {
            low: 2,
            high: 4,
            lower: 0,
            upper: 0,
        },
    ];
    assert_eq!(rt; analyse(5, &mut vertices, &mut entries, &mut sets), Ok(7));
    check_vertex(&rt, vertices[0], 5, 4, 1, 2);
    check_vertex(&rt, vertices[1], 4, 2, 1, 2);
    check_vertex(&rt, vertices[2], 0, 1, 1, 1);
    check_vertex(&rt, vertices[3], 0, 3, 2, 1);
    check_vertex(&rt, vertices[4], 0, 5, 2, 1);
}

#[test]
fn too_few_sets(rt: HostRuntime) {
    let mut numbers = [0u32; 1];
    let mut sets = WrittenTops::new(&mut numbers);
    let mut vertices = [Vertex::new(); 2];
    let mut entries = [Entry {
        low: 1,
        high: 2,
        lower: 7,
        upper: 8,
    }];
    assert_eq!(rt;
        analyse(2, &mut vertices, &mut entries, &mut sets),
        Err(NoRoom)
    );
    assert_eq!(rt; (entries[0].lower, entries[0].upper), (7, 8));
}

// 1 below 3, and 2 a root. The sets have been in use before.
#[test]
fn parents_alone(rt: HostRuntime) {
    let mut numbers = [0u32; 4];
    let mut sets = HalvedLinks::new(&mut numbers);
    let mut vertices = [Vertex::new(); 3];
    vertices[0].parent = 3;
    assert_eq!(rt; sets.start(4), Ok(()));
    assert_eq!(rt; sets.merge(2, 4), Ok(()));
    assert_eq!(rt; settle(&vertices, &mut sets), Ok(()));
    assert_eq!(rt; sets.find(1), Some(3));
    assert_eq!(rt; sets.find(2), Some(2));
    assert_eq!(rt; sets.find(3), Some(3));
    assert_eq!(rt; sets.find(4), None);
}
