// The sheet that a frame is drawn on: the factor on the left, the elimination tree on the right.
ghost use Rattle.std.specs.Prelude.{◌≤◌, ◌^◌};

use model::Model;
use std::io;
use std::io::Write;

// The side of a square of the factor.
pub const CELL: u64 = 12;

// What stands around a drawing: numbers and counts.
pub const MARGIN: u64 = 48;

// From one place of the walk to the next, and from one height to the next.
const STEP: u64 = 18;

const FLOOR: u64 = 30;

const STYLE: &str =
    "text{font:7px sans-serif}.title{font-size:10px}.joint{fill:#3d405b}.member{fill:#81b29a}\
.fill{fill:#e07a5f}line{stroke:#3d405b}circle{fill:#f4f1de;stroke:#3d405b}.middle{text-anchor:middle}";

// What the sheet's size depends on.
#[derive(Clone, Copy)]
pub struct Sheet {
    order: u32,
    members: u32,
    // the greatest height of a joint
    tallest: u32,
}

impl Sheet {
    // The sheet for an analysed model.
    pub(crate) fn of(model: &Model<'_>) -> Sheet {
        let tallest = (1..=model.order())
            .map(|v| model.height(v).unwrap_or(0))
            .fold(0, |most, height| most.max(height));
        Sheet {
            order: model.order(),
            members: model.held(),
            tallest,
        }
    }

    // How far across a joint stands in the tree: by its place in the walk.
    pub(crate) fn across(self, place: u32) -> u64
        ensures { result ≤ 2 ^ 40 }
    {
        3 * MARGIN + u64::from(self.order) * CELL + u64::from(place) * STEP
    }

    // How far down it stands: the tallest at the top, and those with none below them on one line.
    pub(crate) fn down(self, height: u32) -> u64
        ensures { result ≤ 2 ^ 40 }
    {
        MARGIN + u64::from(self.tallest.saturating_sub(height)) * FLOOR
    }

    // Begins the picture, and says what is drawn.
    pub(crate) fn begin<W: Write>(self, out: &mut W, total: u64) -> io::Result<()> {
        let (order, members) = (self.order, self.members);
        let width = self.across(order) + MARGIN;
        let height = (2 * MARGIN + u64::from(order) * CELL).max(self.down(0) + MARGIN);
        let fill = total.saturating_sub(u64::from(order) + u64::from(members));
        writeln!(
            out,
            "<svg xmlns=\"http://www.w3.org/2000/svg\" viewBox=\"0 0 {width} {height}\">"
        )?;
        writeln!(out, "<style>{STYLE}</style>")?;
        writeln!(
            out,
            "<text class=\"title\" x=\"{MARGIN}\" y=\"14\">{order} joints, {members} members, {fill} pairs of fill: \
{total} places in the factor</text>"
        )
    }
}
