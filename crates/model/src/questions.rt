// Questions of an analysed model.
ghost use Rattle.std.specs.Prelude.{◌≡◌};
ghost use Rattle.pattern.specs.Analysis.{first_place_of, height_of, place_of};
ghost use Rattle.pattern.specs.Elimination.{col_count, parent, row_count, total};
ghost use Rattle.model.specs.Asked.{asked, numbers_of, pattern_held, told};
ghost use Rattle.model.specs.States.{Total};

use crate::models::Model;
use crate::numbers::Numbers;
use crate::refusals::Refusal;

impl Model<'_> {
    // What the analysis answers of v. Each question of a vertex below is a call that users have; all six share this.
    fn ask(&self, v: u32) -> Result<Numbers, Refusal>
        ensures { result ≡ asked numbers_of self.now v }
    {
        self.judge_question(v)?;
        let found = self.store.vertices[v as usize - 1];
        Ok(Numbers {
            parent: found.parent as u32,
            place: found.place as u32,
            first: found.first.0 as u32,
            height: (found.deepest.0 - found.level) as u32,
            rows: found.rows as u32,
            columns: found.weight.0 as u32,
        })
    }

    // The parent of v in the elimination tree, 0 at a root.
    pub fn parent(&self, v: u32) -> Result<u32, Refusal>
        ensures { result ≡ asked parent self.now v }
    {
        Ok(self.ask(v)?.parent)
    }

    // The place of v: its position in the postorder, from 1.
    pub fn place(&self, v: u32) -> Result<u32, Refusal>
        ensures { result ≡ asked place_of self.now v }
    {
        Ok(self.ask(v)?.place)
    }

    // The first place in the subtree of v.
    pub fn first_place(&self, v: u32) -> Result<u32, Refusal>
        ensures { result ≡ asked first_place_of self.now v }
    {
        Ok(self.ask(v)?.first)
    }

    // The height of v: how many levels its subtree reaches below it.
    pub fn height(&self, v: u32) -> Result<u32, Refusal>
        ensures { result ≡ asked height_of self.now v }
    {
        Ok(self.ask(v)?.height)
    }

    // How many entries row v of the factor has.
    pub fn row_count(&self, v: u32) -> Result<u32, Refusal>
        ensures { result ≡ asked row_count self.now v }
    {
        Ok(self.ask(v)?.rows)
    }

    // How many entries column v of the factor has.
    pub fn column_count(&self, v: u32) -> Result<u32, Refusal>
        ensures { result ≡ asked col_count self.now v }
    {
        Ok(self.ask(v)?.columns)
    }

    // How many entries the factor has: the sum of all column counts.
    pub fn total(&self) -> Result<u64, Refusal>
        ensures { result ≡ told self.now Total (total (pattern_held self.now)) }
    {
        self.judge_made()?;
        self.judge_analysed()
    }
}
