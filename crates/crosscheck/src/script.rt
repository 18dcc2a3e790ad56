//! Puts and drops whose net effect is a pattern.

use crate::generator::Generator;
use crate::patterns::{Pair, Pattern};
use std::alloc::{AllocError, Global};

/// How often an entry that is not of the pattern is tried, to be put and dropped again.
const EXTRA_TRIES: u32 = 6;

#[derive(Clone, Copy, Debug, PartialEq, Eq)]
pub enum Step {
    Put(u32, u32),
    Drop(u32, u32),
}

/// Steps in the order in which they are taken.
#[derive(Debug, Drop)]
pub struct Script {
    pub steps: Vec<Step>,
    /// The most entries that are held at any time.
    pub most_held: usize,
}

impl Script {
    /// Each entry of the pattern is put at any time, some are dropped and put once more, and a few others are put
    /// and dropped again. Each entry is named from either end.
    pub(crate) fn new(
        alloc: Global,
        pattern: &Pattern,
        generator: &mut Generator,
    ) -> Result<Script, AllocError> {
        let mut timed = Vec::new(alloc);
        for pair in &pattern.pairs {
            add_pair(&mut timed, *pair, pattern.order, generator)?;
        }
        for pair in &extras(alloc, pattern, generator)? {
            let [first, second, _] = times(generator);
            timed.push((first, put(*pair, generator)))?;
            timed.push((second, drop_of(*pair, generator)))?;
        }
        timed.sort_by_key(|(time, _)| *time)?;
        let mut steps = Vec::new(alloc);
        for (_, step) in timed {
            steps.push(step)?;
        }
        let most_held = most_held(&steps);
        Ok(Script { steps, most_held })
    }
}

/// Puts an entry of the pattern; about one of eight in small patterns, and fewer in large ones, goes and comes again.
fn add_pair(
    timed: &mut Vec<(u64, Step)>,
    pair: Pair,
    order: u32,
    generator: &mut Generator,
) -> Result<(), AllocError> {
    let [first, second, third] = times(generator);
    timed.push((first, put(pair, generator)))?;
    if generator.up_to((order / 8).saturating_add(8)) == 1 {
        timed.push((second, drop_of(pair, generator)))?;
        timed.push((third, put(pair, generator)))?;
    }
    Ok(())
}

/// Three times, ascending.
fn times(generator: &mut Generator) -> [u64; 3] {
    let mut times = [generator.number(), generator.number(), generator.number()];
    times.sort_unstable();
    times
}

fn put(pair: Pair, generator: &mut Generator) -> Step {
    if generator.happens(8) {
        Step::Put(pair.i, pair.j)
    } else {
        Step::Put(pair.j, pair.i)
    }
}

fn drop_of(pair: Pair, generator: &mut Generator) -> Step {
    if generator.happens(8) {
        Step::Drop(pair.i, pair.j)
    } else {
        Step::Drop(pair.j, pair.i)
    }
}

/// A few entries that the pattern has not, each once.
fn extras(
    alloc: Global,
    pattern: &Pattern,
    generator: &mut Generator,
) -> Result<Vec<Pair>, AllocError> {
    let mut extras = Vec::new(alloc);
    for _ in 0..EXTRA_TRIES {
        let (i, j) = (
            generator.up_to(pattern.order),
            generator.up_to(pattern.order),
        );
        let pair = Pair {
            i: i.min(j),
            j: i.max(j),
        };
        if i != j && !pattern.pairs.contains(&pair) && !extras.contains(&pair) {
            extras.push(pair)?;
        }
    }
    Ok(extras)
}

fn most_held(steps: &[Step]) -> usize {
    let mut held = 0usize;
    let mut most = 0;
    for step in steps {
        held = match *step {
            Step::Put(_, _) => held.saturating_add(1),
            Step::Drop(_, _) => held.saturating_sub(1),
        };
        most = held.max(most);
    }
    most
}
