// Putting and dropping entries.
ghost use Rattle.std.specs.Prelude.{length};
ghost use Rattle.model.specs.Meaning.{meaning, Outcome};
ghost use Rattle.model.specs.States.{Put, Drop, step};

use crate::models::Model;
use crate::refusals::Refusal;

impl Model<'_> {
    // Puts an entry, either way round. Answers how many are then held.
    pub fn put(&mut self, i: u32, j: u32) -> Result<u32, Refusal>
        ensures { Outcome (Put i j) self.old self.new
            (length (step (meaning self.old) (Put i j)).entries) result }
    {
        let pair = self.judge_entry(i, j)?;
        if self.store.find(pair).is_some() {
            return Err(Refusal::EntryHeld);
        }
        if self.store.held == self.capacity() {
            return Err(Refusal::ModelFull);
        }
        self.store.push(pair);
        Ok(self.store.held)
    }

    // Drops an entry, either way round; the others stay in their order. Answers how many are then held.
    pub fn drop_entry(&mut self, i: u32, j: u32) -> Result<u32, Refusal>
        ensures { Outcome (Drop i j) self.old self.new
            (length (step (meaning self.old) (Drop i j)).entries) result }
    {
        let pair = self.judge_entry(i, j)?;
        let at = self.store.find(pair).ok_or(Refusal::EntryNotHeld)?;
        self.store.remove(at);
        Ok(self.store.held)
    }
}
