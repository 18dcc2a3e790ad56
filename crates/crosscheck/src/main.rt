// Compares the library's answers, on made-up patterns, with what one equation says of the factor's columns.
#![tactic(auto)]

mod compare;
mod generator;
mod limits;
mod patterns;
mod reference;
mod script;
mod tables;

use compare::{Difference, Tables};
use generator::Generator;
use patterns::{Family, Pattern};
use reference::Structure;
use script::Script;
use std::alloc::{AllocError, Global};
use std::io;

const SEED: u64 = 20_231;

/// How many patterns were compared, how many of them differ, and the smallest that does.
#[derive(Drop)]
struct Outcome {
    compared: usize,
    differing: usize,
    smallest: Option<Counterexample>,
}

#[derive(Debug, Drop)]
struct Counterexample {
    difference: Difference,
    pattern: Pattern,
}

impl Outcome {
    fn new() -> Outcome {
        Outcome {
            compared: 0,
            differing: 0,
            smallest: None,
        }
    }

    /// Compares the answers on one more pattern.
    fn add(
        &mut self,
        alloc: Global,
        pattern: Pattern,
        generator: &mut Generator,
    ) -> Result<(), AllocError> {
        self.compared = self.compared.saturating_add(1);
        if let Some(difference) = difference(alloc, &pattern, generator)? {
            self.differing = self.differing.saturating_add(1);
            self.keep_smallest(Counterexample {
                difference,
                pattern,
            });
        }
        Ok(())
    }

    /// Adds what came of other patterns.
    fn join(&mut self, other: Outcome) {
        self.compared = self.compared.saturating_add(other.compared);
        self.differing = self.differing.saturating_add(other.differing);
        if let Some(found) = other.smallest {
            self.keep_smallest(found);
        }
    }

    fn keep_smallest(&mut self, found: Counterexample) {
        let is_smaller = match &self.smallest {
            None => true,
            Some(smallest) => found.size() < smallest.size(),
        };
        if is_smaller {
            self.smallest = Some(found);
        }
    }
}

impl Counterexample {
    fn size(&self) -> (u32, usize) {
        (self.pattern.order, self.pattern.pairs.len())
    }
}

/// Where the library and the equation first differ on a pattern, if they do.
fn difference(
    alloc: Global,
    pattern: &Pattern,
    generator: &mut Generator,
) -> Result<Option<Difference>, AllocError> {
    let structure = Structure::new(alloc, pattern.order, &pattern.pairs)?;
    let script = Script::new(alloc, pattern, generator)?;
    let mut tables = Tables::new(alloc, &structure, script.most_held)?;
    Ok(tables.compare(pattern, &script, &structure).err())
}

fn compare_family(
    alloc: Global,
    family: Family,
    generator: &mut Generator,
) -> Result<Outcome, AllocError> {
    let mut outcome = Outcome::new();
    for pattern in family.patterns(alloc, generator)? {
        outcome.add(alloc, pattern, generator)?;
    }
    Ok(outcome)
}

fn yes_or_no(holds: bool) -> &'static str {
    if holds { "yes" } else { "no" }
}

fn compare_limits(rt: &(impl Print + AllocGlobal)) -> io::Result<()> {
    let largest = yes_or_no(limits::takes_largest_order(rt.alloc())?);
    let larger = yes_or_no(limits::refuses_larger_order(rt.alloc())?);
    let one = yes_or_no(limits::takes_one_entry_after_another(rt.alloc())?);
    println!(rt; "order 16384 is taken: {largest}")?;
    println!(rt; "order 16385 is refused by number 8: {larger}")?;
    println!(rt; "a put, its drop and another put, where one entry has room: {one}")
}

fn main(rt: HostRuntime) -> io::Result<()> {
    let mut generator = Generator::new(SEED);
    let mut all = Outcome::new();
    for family in Family::ALL {
        let outcome = compare_family(rt.alloc(), family, &mut generator)?;
        let (compared, differing) = (outcome.compared, outcome.differing);
        println!(rt; "{family}: {compared} patterns compared, {differing} differ")?;
        all.join(outcome);
    }
    if let Some(found) = &all.smallest {
        println!(rt; "the smallest that differs: {found:?}")?;
    }
    compare_limits(&rt)?;
    let (compared, differing) = (all.compared, all.differing);
    println!(rt; "in all: {compared} patterns compared, {differing} differ")
}
