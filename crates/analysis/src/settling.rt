// The ancestor sets of a table that has its parents already.
ghost use Rattle.std.specs.Prelude.{MatchResult};
ghost use Rattle.analysis.specs.Order.{Forest};
ghost use Rattle.analysis.specs.Settling.{Settled, Unsettled};

use crate::records::Vertex;
use sets::{AncestorSets, NoRoom};

// Puts each vertex below its parent, or refuses, changing nothing, if the sets have no room for the vertices.
pub fn settle<S: AncestorSets>(vertices: &[Vertex], sets: &mut S) -> Result<(), NoRoom>
    requires { Forest vertices.now }
    ensures { MatchResult result
        (λ _. Settled vertices.now (S.meaning sets.old) (S.meaning sets.new))
        (λ _. Unsettled vertices.now (S.meaning sets.old) (S.meaning sets.new)) }
{
    sets.start(vertices.len() as u32)?;
    for (i, vertex) in vertices.iter().enumerate() {
        if vertex.parent != 0 {
            sets.merge(i as u32 + 1, vertex.parent as u32).unwrap();
        }
    }
    Ok(())
}
