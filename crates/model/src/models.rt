// The model: a pattern held in lent tables, with its analysis.
ghost use Rattle.std.specs.Prelude.{◌≡◌, take};
ghost use Rattle.std.specs.Option.{ForSome};
ghost use Rattle.analysis.specs.declared.records.End.TheVariants.{High};
ghost use Rattle.analysis.specs.Analysed.{Answered};
ghost use Rattle.analysis.specs.Links.{Listed};
ghost use Rattle.pattern.specs.Elimination.{total};
ghost use Rattle.model.specs.States.{pattern_in};
ghost use Rattle.model.specs.Stored.{held_by, means};

use crate::stores::Store;

#[derive(Drop)]
pub struct Model<'a> {
    pub(crate) store: Store<'a>,
    // once analysed, the tables have of the entries held what eliminating the vertices defines, and lists of them
    ghost answered: { ForSome store.total (λ sum. Answered (pattern_in (means store)) store.vertices.now) },
    ghost listed: { ForSome store.total (λ _. Listed High (take store.order store.vertices.now) (held_by store)) },
    ghost sums: { ForSome store.total (λ sum. sum ≡ total (pattern_in (means store))) },
}
