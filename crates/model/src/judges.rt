// Whether a call is refused, and why: one rule at a time, and then those of a call in their order.
ghost use Rattle.std.specs.Prelude.{◌≡◌, [], ◌∷◌};
ghost use Rattle.pattern.specs.Elimination.{total};
ghost use Rattle.model.specs.Asked.{pattern_held, told};
ghost use Rattle.model.specs.Meaning.{meaning};
ghost use Rattle.model.specs.States.{Question, Structure, answer, empty, entry_rules, first_of};
ghost use Rattle.model.specs.States.{outside, unanalysed};
ghost use Rattle.model.specs.Tables.{sorted};

use crate::models::Model;
use crate::pairs::Pair;
use crate::refusals::{Refusal, Side};

impl Model<'_> {
    // Whether this is not the empty model.
    pub(crate) fn judge_made(&self) -> Result<(), Refusal>
        ensures { result ≡ answer (first_of (empty (meaning self.now) ∷ [])) tt }
    {
        if self.store.order == 0 {
            return Err(Refusal::EmptyModel);
        }
        Ok(())
    }

    // Whether v is one of the vertices, 1 to the order.
    pub(crate) fn judge_vertex(&self, v: u32, side: Side) -> Result<(), Refusal>
        ensures { result ≡ answer (first_of (outside (meaning self.now) side v ∷ [])) tt }
    {
        if (1..=self.store.order).contains(&v) {
            return Ok(());
        }
        Err(Refusal::VertexOutOfRange(side))
    }

    // Whether the model is analysed; answers the sum of all column counts.
    pub(crate) fn judge_analysed(&self) -> Result<u64, Refusal>
        ensures { result ≡ answer (first_of (unanalysed (meaning self.now) ∷ [])) (total (pattern_held self.now)) }
    {
        self.store.total.ok_or(Refusal::NotAnalysed)
    }

    // Whether these can be the two vertices of an entry; answers them with the lower one first.
    pub(crate) fn judge_entry(&self, i: u32, j: u32) -> Result<Pair, Refusal>
        ensures { result ≡ answer (first_of (entry_rules (meaning self.now) i j)) (sorted i j) }
    {
        self.judge_made()?;
        self.judge_vertex(i, Side::First)?;
        self.judge_vertex(j, Side::Second)?;
        if i == j {
            return Err(Refusal::EqualVertices);
        }
        Ok(Pair::of(i, j))
    }

    // Whether v can be asked of.
    pub(crate) fn judge_question(&self, v: u32) -> Result<(), Refusal>
        ensures { result ≡ told self.now (Question v) tt }
    {
        self.judge_made()?;
        self.judge_vertex(v, Side::First)?;
        self.judge_analysed()?;
        Ok(())
    }

    // Whether arrays of these lengths can take the structure.
    pub(crate) fn judge_structure(&self, starts: usize, rows: usize) -> Result<(), Refusal>
        ensures { result ≡ told self.now (Structure starts rows) tt }
    {
        self.judge_made()?;
        let total = self.judge_analysed()?;
        let order = self.store.order;
        if starts <= order as usize || (rows as u64) < total - order as u64 {
            return Err(Refusal::ArraysTooShort);
        }
        Ok(())
    }
}
