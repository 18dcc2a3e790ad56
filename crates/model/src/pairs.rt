// The two vertices of an entry.
ghost use Rattle.std.specs.Prelude.{◌≡◌, ◌≤◌, min, max};
ghost use Rattle.model.specs.States.{largest_order};

// Two vertices, the lower one first, in as many bits as an entry has for them: a search compares them as they stand.
#[derive(Clone, Copy)]
pub(crate) struct Pair {
    pub(crate) low: u16,
    pub(crate) high: u16,
}

impl Pair {
    // The pair of these two vertices, given either way round. Neither is past the largest order, so that the casts are
    // exact.
    pub(crate) fn of(i: u32, j: u32) -> Pair
        requires first { i ≤ largest_order }
        requires second { j ≤ largest_order }
        ensures low { result.low ≡ min i j }
        ensures high { result.high ≡ max i j }
    {
        Pair {
            low: i.min(j) as u16,
            high: i.max(j) as u16,
        }
    }
}
