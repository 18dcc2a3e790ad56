// The refusals of ancestor sets: a plain no each, without a number.

// A start with more vertices than there is room for.
#[derive(Clone, Copy, PartialEq, Eq, Debug)]
pub struct NoRoom;

// A merge of what aren't two different tops.
#[derive(Clone, Copy, PartialEq, Eq, Debug)]
pub struct NotTops;
