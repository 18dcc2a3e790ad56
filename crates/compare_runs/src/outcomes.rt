// What two runs end with, and how their counts compare.
use model::{Columns, Model, Refusal};
use std::io;

// Prints a number that a model answers, or the number of its refusal.
fn print_number(rt: &HostRuntime, answer: Result<u32, Refusal>) -> io::Result<()> {
    match answer {
        Ok(number) => print!(rt; " {}", number),
        Err(refusal) => print!(rt; " refused, {}", refusal.number()),
    }
}

// Prints the rows of a column, if there is one.
fn print_column(rt: &HostRuntime, column: Option<&[u32]>) -> io::Result<()> {
    for row in column.unwrap_or(&[]) {
        print!(rt; " {}", *row)?;
    }
    println!(rt; "")
}

// Prints for each joint its parent, its counts and its column.
pub(crate) fn print_joints(
    rt: &HostRuntime,
    run: &str,
    model: &Model<'_>,
    columns: Columns<'_>,
) -> io::Result<()> {
    for v in 1..=model.order() {
        print!(rt; "{}: joint {}, parent", run, v)?;
        print_number(rt, model.parent(v))?;
        print!(rt; ", row count")?;
        print_number(rt, model.row_count(v))?;
        print!(rt; ", column count")?;
        print_number(rt, model.column_count(v))?;
        print!(rt; ", column")?;
        print_column(rt, columns.column(v))?;
    }
    Ok(())
}

// Whether the second answer is no smaller than the first.
fn no_smaller(before: Result<u32, Refusal>, after: Result<u32, Refusal>) -> bool {
    match (before, after) {
        (Ok(before), Ok(after)) => before <= after,
        _ => false,
    }
}

// Prints for each joint both counts before and after, and whether none is smaller after.
pub(crate) fn print_comparison(
    rt: &HostRuntime,
    before: &Model<'_>,
    after: &Model<'_>,
) -> io::Result<()> {
    let mut grown = true;
    for v in 1..=before.order() {
        let rows = (before.row_count(v), after.row_count(v));
        let columns = (before.column_count(v), after.column_count(v));
        print!(rt; "joint {}: row count", v)?;
        print_number(rt, rows.0)?;
        print_number(rt, rows.1)?;
        print!(rt; ", column count")?;
        print_number(rt, columns.0)?;
        print_number(rt, columns.1)?;
        println!(rt; "")?;
        grown = grown && no_smaller(rows.0, rows.1) && no_smaller(columns.0, columns.1);
    }
    if grown {
        println!(rt; "no count is smaller")
    } else {
        println!(rt; "a count is smaller")
    }
}
