// The calls of a run, and what they are answered.

// What is asked of a vertex.
#[derive(Clone, Copy)]
pub enum Question {
    Parent,
    Place,
    FirstPlace,
    Height,
    RowCount,
    ColumnCount,
}

#[derive(Clone, Copy)]
pub enum Call {
    Put { i: u32, j: u32 },
    Drop { i: u32, j: u32 },
    // an analysis with the sets at this index of those that are lent; where none stand there, with sets of no room
    Analyse { sets: usize },
    Ask { question: Question, vertex: u32 },
    Total,
    // the structure into the first places of the arrays that are lent, this many of each, or all if there are fewer
    Structure { starts: usize, rows: usize },
}

// What an accepted call is answered.
#[derive(Clone, Copy)]
pub enum Reply {
    // how many entries are held after a put or a drop
    Held(u32),
    // the sum of all column counts, of an analysis or asked for
    Total(u64),
    // what is asked of a vertex
    Number(u32),
    // the structure is written
    Written,
}
