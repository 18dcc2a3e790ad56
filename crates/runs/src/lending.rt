// The ancestor sets that a run is lent: one after another, each of its own kind and size.
ghost use Rattle.std.specs.Prelude.{◌≡◌, List, [], ◌∷◌};
ghost use Rattle.sets.specs.Meaning.{Sets};
ghost use Rattle.model.specs.Asked.{pattern_held};
ghost use Rattle.model.specs.Meaning.{meaning, Outcome};
ghost use Rattle.model.specs.States.{Analyse};
ghost use Rattle.pattern.specs.Elimination.{total};
ghost use Rattle.runs.specs.Lending.{analysed_at, size_at};

use model::{Model, Refusal};
use sets::{AncestorSets, WrittenTops};

pub trait LentSets {
    // what they mean, in their order
    ghost meanings: { Self → List Sets };

    // Analyses the model with the sets at an index, or with sets of no room where none stand there.
    fn analyse(&mut self, index: usize, model: &mut Model<'_>) -> Result<u64, Refusal>
        ensures outcome { Outcome (Analyse (size_at (meanings self.old) index)) model.old model.new
            (total (pattern_held model.old)) result }
        ensures sets { meanings self.new ≡ analysed_at (meaning model.old) (meanings self.old) index };
}

// No more sets.
#[derive(Drop)]
pub struct NoSets;

// Sets, and more after them.
#[derive(Drop)]
pub struct With<S, R> {
    pub sets: S,
    pub more: R,
}

impl LentSets for NoSets {
    ghost meanings = { λ _. [] };

    fn analyse(&mut self, _index: usize, model: &mut Model<'_>) -> Result<u64, Refusal> {
        model.analyse(&mut WrittenTops::new(&mut []))
    }
}

impl<S: AncestorSets, R: LentSets> LentSets for With<S, R> {
    ghost meanings = { λ s. S.meaning s.sets ∷ R.meanings s.more };

    fn analyse(&mut self, index: usize, model: &mut Model<'_>) -> Result<u64, Refusal> {
        if index == 0 {
            return model.analyse(&mut self.sets);
        }
        self.more.analyse(index - 1, model)
    }
}
