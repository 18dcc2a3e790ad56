// Theorems on the fill, the tree of its parents, and its rows and columns.
ghost use Rattle.pattern.specs.Paths.{FillIsPaths};
ghost use Rattle.pattern.specs.Structure.{StructureInColumns};
ghost use Rattle.pattern.specs.Fill.{BelowIsPaths, RowsAreSubtrees, ColumnsByChildren};
ghost use Rattle.pattern.specs.Fill.{TotalByRows, MoreEntriesKeep};

/// The fill joins v to the higher u exactly when a path leads from v to u through vertices under v.
pub fn fill_is_paths()
    ensures { FillIsPaths }
{}

/// v lies below u exactly when a path leads from v to u whose vertices but u are all under u.
pub fn below_is_paths()
    ensures { BelowIsPaths }
{}

/// v is in the row of the higher u exactly when a vertex of v's subtree shares an entry with u.
pub fn rows_are_subtrees()
    ensures { RowsAreSubtrees }
{}

/// A column, but for its own vertex, is the vertex's higher neighbours and the columns of its children.
pub fn columns_by_children()
    ensures { ColumnsByChildren }
{}

/// The total is the sum of the row counts, as it is that of the column counts.
pub fn total_by_rows()
    ensures { TotalByRows }
{}

/// With more entries the fill, the counts and the total only grow, and what lies above stays above.
pub fn more_entries_keep()
    ensures { MoreEntriesKeep }
{}

/// The structure holds the columns one after the other, each from its start to the next.
pub fn structure_in_columns()
    ensures { StructureInColumns }
{}
