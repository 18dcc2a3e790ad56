// What is gathered up the tree: the vertex record as a node that holds a weight, and a least place with a greatest
// level.
ghost use Rattle.analysis.specs.Tables.{no_vertex, with_weight, with_reach};
ghost use Rattle.std.proofs.Common.{rules};

use crate::records::Vertex;
use gather::joining::{Child, Node};
use gather::kinds::{GreatestLevel, LeastPlace, Weight};

impl<J> Child<J> for Vertex {
    ghost blank = { no_vertex };

    ghost above = { λ x. x.parent };

    fn parent(&self) -> u32 {
        self.parent as u32
    }
}

impl Node<Weight> for Vertex {
    ghost held = { λ x. x.weight };

    ghost holding = { with_weight };

    ghost laws = { Prim.search rules };

    fn value(&self) -> Weight {
        // Made anew, not copied: a number that is read here is known to fit its type.
        Weight(self.weight.0)
    }

    fn set_value(&mut self, value: Weight) {
        self.weight = value;
    }
}

// What a subtree reaches: the least of its places, and the greatest of its levels.
pub type Reach = (LeastPlace, GreatestLevel);

impl Node<Reach> for Vertex {
    ghost held = { λ x. (x.first, x.deepest) };

    ghost holding = { with_reach };

    ghost laws = { Prim.search rules };

    fn value(&self) -> Reach {
        (
            LeastPlace::from(self.first.0),
            GreatestLevel::from(self.deepest.0),
        )
    }

    fn set_value(&mut self, value: Reach) {
        self.first = value.0;
        self.deepest = value.1;
    }
}
