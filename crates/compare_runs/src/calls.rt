// The calls of the two runs.
use runs::{Call, Question};

// The worked bay, with refusals of many kinds on the way.
pub(crate) const BAY: [Call; 28] = [
    Call::Put { i: 1, j: 4 },
    Call::Put { i: 3, j: 2 },
    Call::Put { i: 2, j: 5 },
    Call::Put { i: 6, j: 3 },
    Call::Put { i: 4, j: 6 },
    // held already
    Call::Put { i: 2, j: 3 },
    // as many are held as there is room for
    Call::Put { i: 5, j: 6 },
    Call::Put { i: 7, j: 1 },
    Call::Put { i: 4, j: 4 },
    Call::Drop { i: 1, j: 5 },
    // not analysed yet
    Call::Ask {
        question: Question::Parent,
        vertex: 3,
    },
    Call::Structure { starts: 7, rows: 7 },
    // sets of five, and none
    Call::Analyse { sets: 1 },
    Call::Analyse { sets: 2 },
    Call::Analyse { sets: 0 },
    Call::Ask {
        question: Question::Parent,
        vertex: 3,
    },
    Call::Drop { i: 6, j: 4 },
    // no longer analysed
    Call::Total,
    Call::Put { i: 4, j: 6 },
    Call::Analyse { sets: 0 },
    Call::Ask {
        question: Question::Place,
        vertex: 2,
    },
    Call::Ask {
        question: Question::FirstPlace,
        vertex: 5,
    },
    Call::Ask {
        question: Question::Height,
        vertex: 6,
    },
    Call::Ask {
        question: Question::RowCount,
        vertex: 6,
    },
    Call::Ask {
        question: Question::ColumnCount,
        vertex: 7,
    },
    Call::Total,
    // one row short, and then as many places as there are
    Call::Structure { starts: 7, rows: 6 },
    Call::Structure { starts: 9, rows: 9 },
];

// The bay with the members 5-6 and 1-5.
pub(crate) const BRACED_BAY: [Call; 15] = [
    // nothing to analyse is no refusal: every joint is a tree
    Call::Analyse { sets: 0 },
    Call::Put { i: 4, j: 1 },
    Call::Put { i: 6, j: 5 },
    Call::Put { i: 3, j: 2 },
    Call::Put { i: 2, j: 5 },
    Call::Put { i: 3, j: 6 },
    // this one by mistake
    Call::Put { i: 1, j: 6 },
    Call::Put { i: 6, j: 4 },
    Call::Analyse { sets: 1 },
    Call::Drop { i: 1, j: 6 },
    Call::Put { i: 5, j: 1 },
    Call::Analyse { sets: 0 },
    // one start short
    Call::Structure {
        starts: 6,
        rows: 12,
    },
    Call::Structure {
        starts: 12,
        rows: 12,
    },
    Call::Drop { i: 1, j: 2 },
];
