// The structure of an analysed model, for arrays lent by the caller.
ghost use Rattle.std.specs.Prelude.{◌≡◌, length, take};
ghost use Rattle.pattern.specs.Structure as structure;
ghost use Rattle.pattern.specs.Structure.{over};
ghost use Rattle.analysis.specs.declared.records.End.TheVariants.{High};
ghost use Rattle.analysis.specs.Analysed.{Answered};
ghost use Rattle.analysis.specs.Links.{Listed};
ghost use Rattle.analysis.specs.Structure.{Room};
ghost use Rattle.model.specs.Asked.{told};
ghost use Rattle.model.specs.Meaning.{meaning};
ghost use Rattle.model.specs.States.{Structure, pattern_in};
ghost use Rattle.model.specs.Stored.{held_by, means};
ghost use Rattle.model.specs.Written.{rows_after, starts_after};

use crate::models::Model;
use crate::refusals::Refusal;
use crate::stores::Store;
use analysis::structure::structure;

impl Store<'_> {
    // Writes the structure of an analysed store into arrays that have places for it.
    fn structure(&self, starts: &mut [u32], rows: &mut [u32])
        requires answered { Answered (pattern_in (means self.now)) self.now.vertices.now }
        requires lists { Listed High (take self.now.order self.now.vertices.now) (held_by self.now) }
        requires room { Room (pattern_in (means self.now)) (length starts.old) (length rows.old) }
        ensures starts { starts.new ≡ over (structure.starts (pattern_in (means self.now))) starts.old }
        ensures rows { rows.new ≡ over (structure.rows (pattern_in (means self.now))) rows.old }
    {
        let vertices = &self.vertices[..self.order as usize];
        let entries = &self.entries[..self.held as usize];
        structure(vertices, entries, starts, rows);
    }
}

impl Model<'_> {
    // Writes where each column of the factor starts, the first at 0, and at last where the rows end; and the rows of
    // the columns, one column after the other, each without its own vertex. What stands behind them stays.
    pub fn structure(&self, starts: &mut [u32], rows: &mut [u32]) -> Result<(), Refusal>
        ensures answer { result ≡ told self.now (Structure (length starts.old) (length rows.old)) tt }
        ensures starts { starts.new
            ≡ starts_after (meaning self.now) (Structure (length starts.old) (length rows.old)) starts.old }
        ensures rows { rows.new
            ≡ rows_after (meaning self.now) (Structure (length starts.old) (length rows.old)) rows.old }
    {
        self.judge_structure(starts.len(), rows.len())?;
        self.store.structure(starts, rows);
        Ok(())
    }
}
