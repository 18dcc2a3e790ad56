// The analysis of what a model holds.
ghost use Rattle.std.specs.Prelude.{◌≤◌, MatchResult};
ghost use Rattle.pattern.specs.Elimination.{total};
ghost use Rattle.analysis.specs.Analysed.{Answered};
ghost use Rattle.model.specs.Analysing.{Analysed, Refused, Settled, Unsettled};
ghost use Rattle.model.specs.Asked.{pattern_held};
ghost use Rattle.model.specs.Meaning.{meaning, Outcome};
ghost use Rattle.model.specs.SetsAfter.{SameSets, sets_after};
ghost use Rattle.model.specs.States.{Analyse, pattern_in};
ghost use Rattle.model.specs.Stored.{means};

use crate::models::Model;
use crate::refusals::Refusal;
use crate::stores::Store;
use analysis::analyse;
use analysis::settling::settle;
use sets::{AncestorSets, NoRoom};

impl Store<'_> {
    // Analyses the entries held, into the vertex table; answers the sum of the column counts. Refused, with nothing
    // changed, if the sets have no room for the order.
    pub(crate) fn analyse<S: AncestorSets>(&mut self, sets: &mut S) -> Result<u64, NoRoom>
        requires { 1 ≤ self.old.order }
        ensures { MatchResult result
            (Analysed self.old self.new (S.meaning sets.old) (S.meaning sets.new))
            (λ _. Refused self.old self.new (S.meaning sets.old) (S.meaning sets.new)) }
    {
        let entries = &mut self.entries[..self.held as usize];
        let total = analyse(self.order, self.vertices, entries, sets)?;
        self.total = Some(total);
        Ok(total)
    }

    // Puts each vertex of an analysed store below its parent in the sets. Refused, with nothing changed, if the sets
    // have no room for the order.
    fn settle<S: AncestorSets>(&self, sets: &mut S) -> Result<(), NoRoom>
        requires { Answered (pattern_in (means self.now)) self.now.vertices.now }
        ensures { MatchResult result
            (λ _. Settled self.now (S.meaning sets.old) (S.meaning sets.new))
            (λ _. Unsettled self.now (S.meaning sets.old) (S.meaning sets.new)) }
    {
        settle(&self.vertices[..self.order as usize], sets)
    }
}

impl Model<'_> {
    // Analyses the model with ancestor sets lent for it; answers the sum of all column counts. A model that is analysed
    // already only sets the sets.
    pub fn analyse<S: AncestorSets>(&mut self, sets: &mut S) -> Result<u64, Refusal>
        ensures outcome { Outcome (Analyse (S.meaning sets.old).size)
            self.old self.new (total (pattern_held self.old)) result }
        ensures sets { SameSets
            (sets_after (meaning self.old) (Analyse (S.meaning sets.old).size) (S.meaning sets.old))
            (S.meaning sets.new) }
    {
        self.judge_made()?;
        if let Some(total) = self.store.total {
            self.store.settle(sets)?;
            return Ok(total);
        }
        Ok(self.store.analyse(sets)?)
    }
}
