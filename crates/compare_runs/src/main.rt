// Two runs beside each other: the worked bay, and the bay with two members more. Prints what each call is replied, the
// tree, the counts and the structure that each run ends with, and how the counts compare.
#![tactic(auto)]

mod calls;
mod outcomes;
mod replies;

use analysis::records::{Entry, Vertex};
use model::Columns;
use outcomes::{print_comparison, print_joints};
use replies::Printer;
use runs::{Done, NoSets, Run, With, run_both};
use sets::{FollowedLinks, HalvedLinks, WrittenTops};
use std::io;

// Tables, sets and arrays are arrays of a fixed size: the program allocates nothing. Those of the first run are as
// small as they can be, and its second sets are too small.
fn main(rt: HostRuntime) -> io::Result<()> {
    let mut vertices = ([Vertex::new(); 6], [Vertex::new(); 8]);
    let mut entries = ([Entry::new(); 5], [Entry::new(); 16]);
    let mut numbers = ([0; 6], [0; 5], [0; 9]);
    let mut starts = ([0; 7], [0; 12]);
    let mut rows = ([0; 7], [0; 12]);
    let bay = Run {
        order: 6,
        vertices: &mut vertices.0,
        entries: &mut entries.0,
        calls: &calls::BAY,
        sets: With {
            sets: HalvedLinks::new(&mut numbers.0),
            more: With {
                sets: FollowedLinks::new(&mut numbers.1),
                more: NoSets,
            },
        },
        starts: &mut starts.0,
        rows: &mut rows.0,
        replies: Printer::new(&rt, "bay"),
    };
    let braced = Run {
        order: 6,
        vertices: &mut vertices.1,
        entries: &mut entries.1,
        calls: &calls::BRACED_BAY,
        sets: With {
            sets: WrittenTops::new(&mut numbers.2),
            more: NoSets,
        },
        starts: &mut starts.1,
        rows: &mut rows.1,
        replies: Printer::new(&rt, "braced bay"),
    };
    let (bay, braced) = run_both(bay, braced);
    let Done {
        model: before,
        starts,
        rows,
        replies,
        ..
    } = bay;
    replies.printed?;
    print_joints(&rt, "bay", &before, Columns::new(starts, rows))?;
    let Done {
        model: after,
        starts,
        rows,
        replies,
        ..
    } = braced;
    replies.printed?;
    print_joints(&rt, "braced bay", &after, Columns::new(starts, rows))?;
    print_comparison(&rt, &before, &after)
}
