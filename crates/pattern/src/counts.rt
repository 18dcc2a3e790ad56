// Theorems on the row and column counts: what one pass over the vertices by place has to add up.
ghost use Rattle.pattern.specs.Counts.{RowCountsByPaths, ColumnCountsByWeights};

/// The row count of u is one and, for each lower neighbour by place, the climb to where the next one's path joins.
pub fn row_counts_by_paths()
    ensures { RowCountsByPaths }
{}

/// The column count of v is the sum of the weights of its subtree, and the weights are counted row by row.
pub fn column_counts_by_weights()
    ensures { ColumnCountsByWeights }
{}
