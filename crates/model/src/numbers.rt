// What an analysis answers of one vertex.

#[derive(Clone, Copy)]
pub struct Numbers {
    // The parent in the elimination tree, 0 at a root: the number that is answered.
    pub parent: u32,
    // The place, which is the position in the postorder, from 1, and the first place in the subtree.
    pub place: u32,
    pub first: u32,
    // How many levels the subtree reaches below the vertex.
    pub height: u32,
    // How many entries the row and the column of the factor have.
    pub rows: u32,
    pub columns: u32,
}
