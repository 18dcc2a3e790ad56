//! Made-up patterns, by family: mostly of up to twelve vertices, and a few large ones.

use crate::generator::Generator;
use crate::tables::Numbers;
use std::alloc::{AllocError, Global};
use std::fmt;

/// The order up to which a family has each order many times.
const SMALL: u32 = 12;
/// The order up to which patterns are numbered anew.
const MIDDLE: u32 = 400;
/// The largest order.
pub const LARGE: u32 = 16_384;

/// Two different vertices that are joined.
#[derive(Clone, Copy, Debug, PartialEq, Eq, PartialOrd, Ord)]
pub struct Pair {
    pub i: u32,
    pub j: u32,
}

/// The vertices 1 to `order` and the pairs that are joined, each pair once and with its lower vertex first.
#[derive(Debug, Drop)]
pub struct Pattern {
    pub order: u32,
    pub pairs: Vec<Pair>,
}

impl Pattern {
    fn new(alloc: Global, order: u32) -> Pattern {
        Pattern {
            order,
            pairs: Vec::new(alloc),
        }
    }

    /// Joins two vertices, if they are two and both of this pattern.
    fn join(&mut self, i: u32, j: u32) -> Result<(), AllocError> {
        let (low, high) = (i.min(j), i.max(j));
        if low != 0 && low != high && high <= self.order {
            self.pairs.push(Pair { i: low, j: high })?;
        }
        Ok(())
    }
}

/// Where a pattern comes from.
#[derive(Clone, Copy, Debug, PartialEq, Eq)]
pub enum Family {
    /// All patterns of up to five vertices.
    Every,
    Random,
    Grid,
    Rack,
    Chain,
    Star,
    Arrow,
    Complete,
    Tree,
    /// Several components, their vertices mixed, and vertices that stand alone.
    Components,
    Band,
    /// Patterns of the families from random to band with the numbers from last to first.
    Reversed,
    /// Patterns of the families from random to band with shuffled numbers.
    Renumbered,
}

impl Family {
    pub const ALL: [Family; 13] = [
        Family::Every,
        Family::Random,
        Family::Grid,
        Family::Rack,
        Family::Chain,
        Family::Star,
        Family::Arrow,
        Family::Complete,
        Family::Tree,
        Family::Components,
        Family::Band,
        Family::Reversed,
        Family::Renumbered,
    ];

    pub(crate) fn patterns(
        self,
        alloc: Global,
        generator: &mut Generator,
    ) -> Result<Vec<Pattern>, AllocError> {
        match self {
            Family::Every => every(alloc),
            Family::Random => randoms(alloc, generator),
            Family::Grid => grids(alloc),
            Family::Rack => racks(alloc),
            Family::Chain => chains(alloc),
            Family::Star => stars(alloc),
            Family::Arrow => arrows(alloc),
            Family::Complete => completes(alloc),
            Family::Tree => trees(alloc, generator),
            Family::Components => components(alloc, generator),
            Family::Band => bands(alloc, generator),
            Family::Reversed => reversed(alloc, generator),
            Family::Renumbered => renumbered(alloc, generator),
        }
    }
}

impl fmt::Display for Family {
    fn fmt<W: fmt::Write>(&self, f: &mut fmt::Formatter<W>) -> fmt::Result {
        let name = match *self {
            Family::Every => "every small one",
            Family::Random => "random",
            Family::Grid => "grids",
            Family::Rack => "racks",
            Family::Chain => "chains",
            Family::Star => "stars",
            Family::Arrow => "arrows",
            Family::Complete => "complete",
            Family::Tree => "trees",
            Family::Components => "components",
            Family::Band => "bands",
            Family::Reversed => "reversed",
            Family::Renumbered => "renumbered",
        };
        f.write_str(name)
    }
}

/// All patterns of one to five vertices.
fn every(alloc: Global) -> Result<Vec<Pattern>, AllocError> {
    let mut patterns = Vec::new(alloc);
    for (order, subsets) in [(1, 1), (2, 2), (3, 8), (4, 64), (5, 1024)] {
        let whole = complete(alloc, order)?;
        for subset in 0..subsets {
            patterns.push(part(alloc, &whole, subset)?)?;
        }
    }
    Ok(patterns)
}

/// The pairs of a pattern whose binary digit in `subset` is 1.
fn part(alloc: Global, whole: &Pattern, subset: u32) -> Result<Pattern, AllocError> {
    let mut pattern = Pattern::new(alloc, whole.order);
    let mut digits = subset;
    for pair in &whole.pairs {
        if digits % 2 == 1 {
            pattern.join(pair.i, pair.j)?;
        }
        digits /= 2;
    }
    Ok(pattern)
}

fn randoms(alloc: Global, generator: &mut Generator) -> Result<Vec<Pattern>, AllocError> {
    let mut patterns = Vec::new(alloc);
    for order in 1..=SMALL {
        for sixteenths in [1, 2, 4, 6, 8, 11, 14] {
            for _ in 0..4 {
                patterns.push(random(alloc, order, sixteenths, generator)?)?;
            }
        }
    }
    for order in [20, 40, 80, 120] {
        for sixteenths in [1, 3, 8] {
            patterns.push(random(alloc, order, sixteenths, generator)?)?;
        }
    }
    for order in [60, 300, 2000, LARGE] {
        patterns.push(sparse(alloc, order, generator)?)?;
    }
    Ok(patterns)
}

/// Each pair is joined so many times of sixteen.
fn random(
    alloc: Global,
    order: u32,
    sixteenths: u32,
    generator: &mut Generator,
) -> Result<Pattern, AllocError> {
    let mut pattern = Pattern::new(alloc, order);
    for j in 1..=order {
        for i in 1..j {
            if generator.happens(sixteenths) {
                pattern.join(i, j)?;
            }
        }
    }
    Ok(pattern)
}

/// Each vertex is joined to any one.
fn sparse(alloc: Global, order: u32, generator: &mut Generator) -> Result<Pattern, AllocError> {
    let mut pattern = Pattern::new(alloc, order);
    for vertex in 1..=order {
        let other = generator.up_to(order);
        pattern.join(vertex, other)?;
    }
    pattern.pairs.sort_unstable();
    pattern.pairs.dedup();
    Ok(pattern)
}

fn grids(alloc: Global) -> Result<Vec<Pattern>, AllocError> {
    let mut patterns = Vec::new(alloc);
    for width in 1..=SMALL {
        for order in 1..=SMALL {
            if order % width == 0 {
                patterns.push(grid(alloc, order, width)?)?;
            }
        }
    }
    for (order, width) in [(35, 5), (100, 10), (1023, 31), (1000, 2), (LARGE, 128)] {
        patterns.push(grid(alloc, order, width)?)?;
    }
    Ok(patterns)
}

/// Rows of `width` vertices, each joined to the next in its row and to the same one in the next row.
fn grid(alloc: Global, order: u32, width: u32) -> Result<Pattern, AllocError> {
    let mut pattern = Pattern::new(alloc, order);
    for vertex in 1..=order {
        if vertex.checked_rem(width) != Some(0) {
            pattern.join(vertex, vertex.saturating_add(1))?;
        }
        pattern.join(vertex, vertex.saturating_add(width))?;
    }
    Ok(pattern)
}

/// A store of racks: aisles of bays between frames, with levels of beams, flat or with a front and a back side.
#[derive(Clone, Copy)]
struct Rack {
    aisles: u8,
    bays: u8,
    levels: u8,
    sides: u8,
    /// Whether each aisle is tied to the next at its top.
    tied: bool,
}

fn racks(alloc: Global) -> Result<Vec<Pattern>, AllocError> {
    let mut patterns = Vec::new(alloc);
    for (aisles, bays, levels, sides) in [
        (1, 1, 1, 1),
        (1, 2, 1, 1),
        (1, 1, 2, 1),
        (1, 2, 2, 1),
        (1, 1, 3, 1),
        (1, 3, 1, 1),
        (1, 3, 2, 1),
        (1, 2, 3, 1),
        (2, 1, 1, 1),
        (2, 2, 1, 1),
        (3, 1, 1, 1),
        (1, 1, 1, 2),
        (1, 2, 1, 2),
        (1, 1, 2, 2),
        (2, 1, 2, 2),
        (2, 5, 4, 2),
        (3, 10, 5, 2),
        (4, 40, 6, 1),
        (8, 63, 7, 2),
    ] {
        for tied in [false, true] {
            let rack = Rack {
                aisles,
                bays,
                levels,
                sides,
                tied,
            };
            patterns.push(rack.pattern(alloc)?)?;
        }
    }
    Ok(patterns)
}

impl Rack {
    /// The joints from a joint to the one above it, across it, beside it and in the next aisle.
    fn steps(self) -> [u32; 4] {
        let across = u32::from(self.levels) + 1;
        let beside = across.saturating_mul(u32::from(self.sides));
        let next_aisle = beside.saturating_mul(u32::from(self.bays) + 1);
        [1, across, beside, next_aisle]
    }

    fn pattern(self, alloc: Global) -> Result<Pattern, AllocError> {
        let [_, _, _, next_aisle] = self.steps();
        let order = next_aisle.saturating_mul(u32::from(self.aisles));
        let mut pattern = Pattern::new(alloc, order);
        let mut joint = 0u32;
        for _ in 0..self.aisles {
            for frame in 0..=self.bays {
                for side in 0..self.sides {
                    for level in 0..=self.levels {
                        joint = joint.saturating_add(1);
                        self.add_joint(&mut pattern, joint, Position { frame, side, level })?;
                    }
                }
            }
        }
        Ok(pattern)
    }

    /// Joins a joint to those above, across, beside and in the next aisle.
    fn add_joint(
        self,
        pattern: &mut Pattern,
        joint: u32,
        position: Position,
    ) -> Result<(), AllocError> {
        let [above, across, beside, next_aisle] = self.steps();
        let has_above = position.level < self.levels;
        let has_across = position.side.saturating_add(1) < self.sides;
        let has_beside = position.frame < self.bays;
        if has_above {
            pattern.join(joint, joint.saturating_add(above))?;
        }
        if has_across {
            pattern.join(joint, joint.saturating_add(across))?;
        }
        if has_beside && position.level != 0 {
            pattern.join(joint, joint.saturating_add(beside))?;
        }
        if has_above && has_across {
            pattern.join(joint, joint.saturating_add(across).saturating_add(above))?;
        }
        if has_above && has_beside && position.frame % 2 == position.level % 2 {
            pattern.join(joint, joint.saturating_add(beside).saturating_add(above))?;
        }
        if self.tied && !has_above {
            pattern.join(joint, joint.saturating_add(next_aisle))?;
        }
        Ok(())
    }
}

/// Where a joint stands in its aisle.
#[derive(Clone, Copy)]
struct Position {
    frame: u8,
    side: u8,
    level: u8,
}

fn chains(alloc: Global) -> Result<Vec<Pattern>, AllocError> {
    let mut patterns = Vec::new(alloc);
    for order in 1..=SMALL {
        patterns.push(chain(alloc, order)?)?;
    }
    for order in [50, 333, 4096, LARGE] {
        patterns.push(chain(alloc, order)?)?;
    }
    Ok(patterns)
}

fn chain(alloc: Global, order: u32) -> Result<Pattern, AllocError> {
    let mut pattern = Pattern::new(alloc, order);
    for vertex in 1..order {
        pattern.join(vertex, vertex + 1)?;
    }
    Ok(pattern)
}

fn stars(alloc: Global) -> Result<Vec<Pattern>, AllocError> {
    let mut patterns = Vec::new(alloc);
    for order in 1..=SMALL {
        for centre in 1..=order {
            patterns.push(star(alloc, order, centre)?)?;
        }
    }
    for (order, centre) in [(300, 1), (300, 150), (LARGE, 16_300), (LARGE, LARGE)] {
        patterns.push(star(alloc, order, centre)?)?;
    }
    Ok(patterns)
}

fn star(alloc: Global, order: u32, centre: u32) -> Result<Pattern, AllocError> {
    let mut pattern = Pattern::new(alloc, order);
    for vertex in 1..=order {
        pattern.join(vertex, centre)?;
    }
    Ok(pattern)
}

fn arrows(alloc: Global) -> Result<Vec<Pattern>, AllocError> {
    let mut patterns = Vec::new(alloc);
    for order in 1..=SMALL {
        for width in 1..=3 {
            patterns.push(arrow(alloc, order, width)?)?;
        }
    }
    for (order, width) in [(100, 4), (500, 5), (8192, 3)] {
        patterns.push(arrow(alloc, order, width)?)?;
    }
    Ok(patterns)
}

/// The last `width` vertices are joined to all.
fn arrow(alloc: Global, order: u32, width: u32) -> Result<Pattern, AllocError> {
    let mut pattern = Pattern::new(alloc, order);
    for vertex in 1..=order {
        for before_last in 0..width {
            let tip = order.saturating_sub(before_last);
            if vertex < tip {
                pattern.join(vertex, tip)?;
            }
        }
    }
    Ok(pattern)
}

fn completes(alloc: Global) -> Result<Vec<Pattern>, AllocError> {
    let mut patterns = Vec::new(alloc);
    for order in 1..=SMALL {
        patterns.push(complete(alloc, order)?)?;
    }
    for order in [30, 100] {
        patterns.push(complete(alloc, order)?)?;
    }
    Ok(patterns)
}

fn complete(alloc: Global, order: u32) -> Result<Pattern, AllocError> {
    let mut pattern = Pattern::new(alloc, order);
    for j in 1..=order {
        for i in 1..j {
            pattern.join(i, j)?;
        }
    }
    Ok(pattern)
}

fn trees(alloc: Global, generator: &mut Generator) -> Result<Vec<Pattern>, AllocError> {
    let mut patterns = Vec::new(alloc);
    for order in 1..=SMALL {
        for _ in 0..5 {
            patterns.push(hung_on_lower(alloc, order, generator)?)?;
            patterns.push(hung_on_higher(alloc, order, order, generator)?)?;
            patterns.push(hung_on_higher(alloc, order, 3, generator)?)?;
        }
    }
    patterns.push(hung_on_lower(alloc, 200, generator)?)?;
    patterns.push(hung_on_lower(alloc, 400, generator)?)?;
    for (order, window) in [(300, 300), (400, 10), (LARGE, 50), (LARGE, LARGE)] {
        patterns.push(hung_on_higher(alloc, order, window, generator)?)?;
    }
    Ok(patterns)
}

/// Each vertex but 1 hangs on any lower one.
fn hung_on_lower(
    alloc: Global,
    order: u32,
    generator: &mut Generator,
) -> Result<Pattern, AllocError> {
    let mut pattern = Pattern::new(alloc, order);
    for vertex in 2..=order {
        let other = generator.up_to(vertex - 1);
        pattern.join(vertex, other)?;
    }
    Ok(pattern)
}

/// Each vertex but the last hangs on any of the next `window`.
fn hung_on_higher(
    alloc: Global,
    order: u32,
    window: u32,
    generator: &mut Generator,
) -> Result<Pattern, AllocError> {
    let mut pattern = Pattern::new(alloc, order);
    for vertex in 1..order {
        let ahead = generator.up_to(window.min(order - vertex));
        pattern.join(vertex, vertex.saturating_add(ahead))?;
    }
    Ok(pattern)
}

fn components(alloc: Global, generator: &mut Generator) -> Result<Vec<Pattern>, AllocError> {
    let mut patterns = Vec::new(alloc);
    for order in 1..=SMALL {
        for groups in 1..=3 {
            for sixteenths in [6, 10, 16] {
                patterns.push(grouped(alloc, order, groups, sixteenths, generator)?)?;
            }
        }
    }
    for (order, groups, sixteenths) in [(60, 4, 3), (150, 20, 8), (300, 10, 2), (1000, 90, 16)] {
        patterns.push(grouped(alloc, order, groups, sixteenths, generator)?)?;
    }
    Ok(patterns)
}

/// Each vertex stands alone or in one of the groups, and two of a group are joined so many times of sixteen.
fn grouped(
    alloc: Global,
    order: u32,
    groups: u32,
    sixteenths: u32,
    generator: &mut Generator,
) -> Result<Pattern, AllocError> {
    let mut group_of = Numbers::new(alloc, order)?;
    for vertex in 1..=order {
        group_of.set(vertex, generator.up_to(groups.saturating_add(1)));
    }
    let mut pattern = Pattern::new(alloc, order);
    for j in 1..=order {
        for i in 1..j {
            let group = group_of.of(i);
            if group <= groups && group == group_of.of(j) && generator.happens(sixteenths) {
                pattern.join(i, j)?;
            }
        }
    }
    Ok(pattern)
}

fn bands(alloc: Global, generator: &mut Generator) -> Result<Vec<Pattern>, AllocError> {
    let mut patterns = Vec::new(alloc);
    for order in 1..=SMALL {
        for width in 1..=4 {
            for sixteenths in [9, 16] {
                patterns.push(band(alloc, order, width, sixteenths, generator)?)?;
            }
        }
    }
    for (order, width, sixteenths) in [(90, 6, 5), (300, 8, 16), (1000, 20, 4), (8192, 3, 14)] {
        patterns.push(band(alloc, order, width, sixteenths, generator)?)?;
    }
    Ok(patterns)
}

/// Each vertex is joined to each of the next `width` so many times of sixteen.
fn band(
    alloc: Global,
    order: u32,
    width: u32,
    sixteenths: u32,
    generator: &mut Generator,
) -> Result<Pattern, AllocError> {
    let mut pattern = Pattern::new(alloc, order);
    for vertex in 1..=order {
        for ahead in 1..=width {
            if generator.happens(sixteenths) {
                pattern.join(vertex, vertex.saturating_add(ahead))?;
            }
        }
    }
    Ok(pattern)
}

fn reversed(alloc: Global, generator: &mut Generator) -> Result<Vec<Pattern>, AllocError> {
    let mut patterns = Vec::new(alloc);
    for pattern in &middle_ones(alloc, generator)? {
        patterns.push(mirrored(alloc, pattern)?)?;
    }
    let store = Rack {
        aisles: 8,
        bays: 31,
        levels: 7,
        sides: 2,
        tied: true,
    };
    patterns.push(mirrored(alloc, &store.pattern(alloc)?)?)?;
    Ok(patterns)
}

fn renumbered(alloc: Global, generator: &mut Generator) -> Result<Vec<Pattern>, AllocError> {
    let mut patterns = Vec::new(alloc);
    for pattern in &middle_ones(alloc, generator)? {
        patterns.push(shuffled(alloc, pattern, generator)?)?;
    }
    patterns.push(shuffled(alloc, &chain(alloc, LARGE)?, generator)?)?;
    Ok(patterns)
}

/// The patterns of all families from random to band but for the largest.
fn middle_ones(alloc: Global, generator: &mut Generator) -> Result<Vec<Pattern>, AllocError> {
    let mut patterns = Vec::new(alloc);
    for family in [
        randoms(alloc, generator)?,
        grids(alloc)?,
        racks(alloc)?,
        chains(alloc)?,
        stars(alloc)?,
        arrows(alloc)?,
        completes(alloc)?,
        trees(alloc, generator)?,
        components(alloc, generator)?,
        bands(alloc, generator)?,
    ] {
        for pattern in family {
            if pattern.order <= MIDDLE {
                patterns.push(pattern)?;
            }
        }
    }
    Ok(patterns)
}

fn mirrored(alloc: Global, pattern: &Pattern) -> Result<Pattern, AllocError> {
    let mut names = Numbers::new(alloc, pattern.order)?;
    for vertex in 1..=pattern.order {
        names.set(vertex, pattern.order - vertex + 1);
    }
    renamed(alloc, pattern, &names)
}

fn shuffled(
    alloc: Global,
    pattern: &Pattern,
    generator: &mut Generator,
) -> Result<Pattern, AllocError> {
    let mut draws = Vec::new(alloc);
    for vertex in 1..=pattern.order {
        draws.push((generator.number(), vertex))?;
    }
    draws.sort_unstable();
    let mut names = Numbers::new(alloc, pattern.order)?;
    let mut vertex = 0u32;
    for (_, name) in draws {
        vertex = vertex.saturating_add(1);
        names.set(vertex, name);
    }
    renamed(alloc, pattern, &names)
}

fn renamed(alloc: Global, pattern: &Pattern, names: &Numbers) -> Result<Pattern, AllocError> {
    let mut renamed = Pattern::new(alloc, pattern.order);
    for pair in &pattern.pairs {
        renamed.join(names.of(pair.i), names.of(pair.j))?;
    }
    Ok(renamed)
}
