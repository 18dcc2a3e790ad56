// The elimination tree: each joint at its place in the walk, as far up as its height, and a line to its parent.
ghost use Rattle.std.specs.Prelude.{◌≤◌, ◌^◌};

use crate::sheets::Sheet;
use model::Model;
use std::io;
use std::io::Write;

// Where a joint of an analysed model stands.
fn position(model: &Model<'_>, sheet: Sheet, v: u32) -> (u64, u64)
    ensures { result.1 ≤ 2 ^ 40 }
{
    let place = model.place(v).unwrap_or(0);
    let height = model.height(v).unwrap_or(0);
    (sheet.across(place), sheet.down(height))
}

fn draw_step<W: Write>(out: &mut W, model: &Model<'_>, sheet: Sheet, v: u32) -> io::Result<()> {
    let parent = model.parent(v).unwrap_or(0);
    if parent == 0 {
        return Ok(());
    }
    let ((x, y), (above_x, above_y)) = (position(model, sheet, v), position(model, sheet, parent));
    writeln!(
        out,
        "<line x1=\"{x}\" y1=\"{y}\" x2=\"{above_x}\" y2=\"{above_y}\"/>"
    )
}

fn draw_joint<W: Write>(out: &mut W, model: &Model<'_>, sheet: Sheet, v: u32) -> io::Result<()> {
    let (x, y) = position(model, sheet, v);
    let (first, place) = (
        model.first_place(v).unwrap_or(0),
        model.place(v).unwrap_or(0),
    );
    writeln!(
        out,
        "<circle cx=\"{x}\" cy=\"{y}\" r=\"7\"><title>places {first} to {place}</title></circle>"
    )?;
    let base = y + 3;
    writeln!(
        out,
        "<text class=\"middle\" x=\"{x}\" y=\"{base}\">{v}</text>"
    )
}

// The tree of an analysed model: first the lines, then the joints over them.
pub(crate) fn draw_tree<W: Write>(out: &mut W, model: &Model<'_>, sheet: Sheet) -> io::Result<()> {
    for v in 1..=model.order() {
        draw_step(out, model, sheet, v)?;
    }
    for v in 1..=model.order() {
        draw_joint(out, model, sheet, v)?;
    }
    Ok(())
}
