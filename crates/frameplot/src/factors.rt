// The factor: a square for each joint on the diagonal, and one below it for each member and each pair of the fill.
ghost use Rattle.std.specs.Prelude.{◌≤◌, ◌^◌};

use crate::sheets::{CELL, MARGIN};
use model::{Columns, Model};
use std::io;
use std::io::Write;

// Where the square of a row or column begins.
fn begins(joint: u32) -> u64
    ensures { result ≤ 2 ^ 40 }
{
    MARGIN + u64::from(joint.saturating_sub(1)) * CELL
}

// Where a text stands that belongs to a row or column.
fn middle(joint: u32) -> u64
    ensures { result ≤ 2 ^ 41 }
{
    begins(joint) + 9
}

// A square of some kind, in a column and a row. Who points at it reads its row and column and what else is to be said.
fn draw_square<W: Write>(
    out: &mut W,
    kind: &str,
    (column, row): (u32, u32),
    cause: Option<u32>,
) -> io::Result<()> {
    let (x, y, side) = (begins(column), begins(row), CELL - 1);
    write!(
        out,
        "<rect class=\"{kind}\" x=\"{x}\" y=\"{y}\" width=\"{side}\" height=\"{side}\">"
    )?;
    write!(out, "<title>{row}, {column}: {kind}")?;
    if let Some(child) = cause {
        write!(
            out,
            ", as {row} is in the column of {child}, whose parent is {column}"
        )?;
    }
    writeln!(out, "</title></rect>")
}

// The first child of v that has u in its column: eliminating it, or one below it, joins v and u.
fn cause(model: &Model<'_>, columns: &Columns<'_>, v: u32, u: u32) -> Option<u32> {
    (1..v).find(|child| {
        model.parent(*child) == Ok(v) && columns.column(*child).unwrap_or(&[]).contains(&u)
    })
}

// The rows of a column below the diagonal, members or not.
fn draw_column<W: Write>(
    out: &mut W,
    model: &Model<'_>,
    columns: &Columns<'_>,
    v: u32,
) -> io::Result<()> {
    for u in columns.column(v).unwrap_or(&[]) {
        draw_square(out, "fill", (v, *u), cause(model, columns, v, *u))?;
    }
    Ok(())
}

// The members, over what is drawn already: what stays to be seen of that is the fill.
fn draw_members<W: Write>(out: &mut W, model: &Model<'_>) -> io::Result<()> {
    for k in 1..=model.held() {
        if let Some((low, high)) = model.entry(k) {
            draw_square(out, "member", (low, high), None)?;
        }
    }
    Ok(())
}

// The number of joint v before its row and over its column, and its counts after its row and under its column.
fn draw_numbers<W: Write>(out: &mut W, model: &Model<'_>, v: u32) -> io::Result<()> {
    let at = middle(v);
    let (before, after) = (MARGIN - 20, begins(model.order()) + CELL + 4);
    let (rows, columns) = (
        model.row_count(v).unwrap_or(0),
        model.column_count(v).unwrap_or(0),
    );
    let across = begins(v) + CELL / 2;
    writeln!(out, "<text x=\"{before}\" y=\"{at}\">{v}</text>")?;
    writeln!(out, "<text x=\"{after}\" y=\"{at}\">{rows}</text>")?;
    let (over, under) = (MARGIN - 4, after + 6);
    writeln!(
        out,
        "<text class=\"middle\" x=\"{across}\" y=\"{over}\">{v}</text>"
    )?;
    writeln!(
        out,
        "<text class=\"middle\" x=\"{across}\" y=\"{under}\">{columns}</text>"
    )
}

// The factor of an analysed model, of which these are the columns.
pub(crate) fn draw_factor<W: Write>(
    out: &mut W,
    model: &Model<'_>,
    columns: &Columns<'_>,
) -> io::Result<()> {
    for v in 1..=model.order() {
        draw_column(out, model, columns, v)?;
    }
    draw_members(out, model)?;
    for v in 1..=model.order() {
        draw_square(out, "joint", (v, v), None)?;
        draw_numbers(out, model, v)?;
    }
    Ok(())
}
