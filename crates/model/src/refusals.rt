// Why a call is refused. A refused call changes nothing.
ghost use Rattle.std.specs.Prelude.{◌≡◌};
ghost use Rattle.model.specs.Refusals.{number_of};

use sets::NoRoom;

// Which of the vertices that a call was given, in the order in which it was given them.
#[derive(Clone, Copy, PartialEq, Eq, Debug)]
pub enum Side {
    First,
    Second,
}

#[derive(Clone, Copy, PartialEq, Eq, Debug)]
pub enum Refusal {
    // the order is 0 or above the largest
    OrderOutOfRange,
    // the model is the empty one
    EmptyModel,
    // the vertex table is shorter than the order
    TableTooShort,
    // the ancestor sets given to an analysis are smaller than the order
    SetsTooSmall,
    // a vertex is 0 or above the order
    VertexOutOfRange(Side),
    // the two vertices of an entry are equal
    EqualVertices,
    // the entry to put is held already
    EntryHeld,
    // as many entries are held as the capacity allows
    ModelFull,
    // the entry to drop is not held
    EntryNotHeld,
    // a question or a structure call while the model is unanalysed
    NotAnalysed,
    // the arrays lent for the structure have too few places
    ArraysTooShort,
}

impl Refusal {
    // The refusal's number, by which every answer names it: a call that users have. Two refusals share a number, so
    // that it is no discriminant, and no refusal could be made of one.
    pub fn number(self) -> u8
        ensures { result ≡ number_of self }
    {
        match self {
            Refusal::OrderOutOfRange | Refusal::EmptyModel => 8,
            Refusal::TableTooShort | Refusal::SetsTooSmall => 9,
            Refusal::VertexOutOfRange(_) => 10,
            Refusal::EqualVertices => 11,
            Refusal::EntryHeld => 12,
            Refusal::ModelFull => 13,
            Refusal::EntryNotHeld => 14,
            Refusal::NotAnalysed => 15,
            Refusal::ArraysTooShort => 16,
        }
    }
}

impl From<NoRoom> for Refusal {
    ghost use Rattle.model.specs.declared.refusals.Refusal.TheVariants.{SetsTooSmall};

    ghost from_gives = { λ _ refusal. refusal ≡ SetsTooSmall };

    fn from(_: NoRoom) -> Refusal {
        Refusal::SetsTooSmall
    }
}
