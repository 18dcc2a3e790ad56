// Reads a frame file from standard input and draws the frame that it ends with, as an SVG picture on standard output:
// the factor with its members, its fill and its counts, and the elimination tree.
#![tactic(auto)]

mod factors;
mod refusals;
mod sheets;
mod trees;

use crate::factors::draw_factor;
use crate::refusals::Refused;
use crate::sheets::Sheet;
use crate::trees::draw_tree;
use analysis::records::{Entry, Vertex};
use frame_file::run_file;
use model::{Columns, Model, make};
use sets::HalvedLinks;
use std::alloc::Global;
use std::io;
use std::io::{BufWriter, Read, Write};

// The largest frame that is drawn, and the most members: those of framecount.
const JOINTS: usize = 512;

const MEMBERS: usize = 2048;

// A picture of one line of text, where there is nothing to draw.
fn draw_note<W: Write>(out: &mut W, text: &str) -> io::Result<()> {
    writeln!(
        out,
        "<svg xmlns=\"http://www.w3.org/2000/svg\" viewBox=\"0 0 400 40\">"
    )?;
    writeln!(out, "<text x=\"10\" y=\"25\">{text}</text>")?;
    writeln!(out, "</svg>")
}

// Draws an analysed model, whose factor takes so many places.
fn draw_frame<W: Write>(
    out: &mut W,
    alloc: Global,
    model: &Model<'_>,
    total: u64,
) -> io::Result<()> {
    let order = model.order();
    let mut starts = vec![in alloc; 0u32; order as usize + 1]?;
    let mut rows = vec![in alloc; 0u32; total.saturating_sub(u64::from(order)) as usize]?;
    if model.structure(&mut starts, &mut rows).is_err() {
        return draw_note(out, "The structure of the factor has no room.");
    }
    let sheet = Sheet::of(model);
    sheet.begin(out, total)?;
    draw_factor(out, model, &Columns::new(&starts, &rows))?;
    draw_tree(out, model, sheet)?;
    writeln!(out, "</svg>")
}

fn main(rt: HostRuntime) -> io::Result<()> {
    let alloc = rt.alloc();
    let mut file = Vec::new(alloc);
    rt.reader().read_to_end(&mut file)?;
    let mut vertices = vec![in alloc; Vertex::new(); JOINTS]?;
    let mut entries = vec![in alloc; Entry::new(); MEMBERS]?;
    let mut links = vec![in alloc; 0u32; JOINTS]?;
    let mut model = make(0, &mut vertices, &mut entries);
    let mut sets = HalvedLinks::new(&mut links);
    let mut refused = Refused::default();
    run_file(&file, &mut model, &mut sets, &mut refused);
    refused.report(&rt)?;
    let mut out = BufWriter::new(alloc, io::writer(&rt))?;
    match model.analyse(&mut sets) {
        Ok(total) => draw_frame(&mut out, alloc, &model, total)?,
        Err(_) => draw_note(&mut out, "The file makes no frame.")?,
    }
    out.flush()
}
