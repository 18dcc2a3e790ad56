// The walk of a forest in postorder: theorems over every order and every parent function that rises.
ghost use Rattle.pattern.specs.Walks.{WalkTakesEachOnce, SubtreesAreIntervals, SiblingsAscend};
ghost use Rattle.pattern.specs.Meets.{MeetingVertexIsLowest};

/// The walk takes each vertex once: the places are the numbers 1 to n, each the place of one vertex.
pub fn walk_takes_each_once()
    ensures { WalkTakesEachOnce }
{}

/// The places of a subtree are those from its first place to the place of its root, as many as it has vertices.
pub fn subtrees_are_intervals()
    ensures { SubtreesAreIntervals }
{}

/// Of two children of one parent the smaller has its whole subtree placed before the subtree of the greater.
pub fn siblings_ascend()
    ensures { SiblingsAscend }
{}

/// The meeting vertex of two vertices is the one of greatest level that has both in its subtree; 0 if none has both.
pub fn meeting_vertex_is_lowest()
    ensures { MeetingVertexIsLowest }
{}
