// Sets by links: each vertex in use has one, a top to itself. A find goes along them to their end.
ghost use Rattle.std.specs.Prelude.{◌≡◌, true, length};
ghost use Rattle.sets.specs.Links.{linked_sets, Ended, Ends};
ghost use Rattle.sets.specs.Meaning.{among, Made};
ghost use Rattle.sets.specs.Soundness.{sound_linked};
ghost use Rattle.sets.specs.Tables.{number};

use super::table::Table;
use super::{AncestorSets, NoRoom, NotTops};
use std::marker::PhantomData;

// How a find goes to the end of the links. It may relink its way, so long as all ways end as before. Kept inside the
// crate, since it requires what only the types of sets keep.
pub trait Way {
    // The end of the links from v.
    fn end(table: &mut Table<'_>, v: u32) -> u32
        requires ends { Ends table.old.used (number table.old.numbers.now) }
        requires has { among table.old.used v ≡ true }
        ensures kept { table.new.used ≡ table.old.used }
        ensures ended { Ended table.old.numbers.now table.old.used v result table.new.numbers.now };
}

// The links do not run in a circle.
#[derive(Drop)]
pub struct Links<'a, W> {
    table: Table<'a>,
    way: PhantomData<W>,
    ghost ends: { Ends table.used (number table.numbers.now) },
}

impl<'a, W: Way> Links<'a, W> {
    // Sets over the numbers lent, with none in use yet.
    pub fn new(numbers: &'a mut [u32]) -> Self
        ensures { Made (length numbers.old) (linked_sets result.table.numbers.now result.table.used) }
    {
        Links {
            table: Table::new(numbers),
            way: PhantomData,
        }
    }
}

impl<'a, W: Way> AncestorSets for Links<'a, W> {
    ghost meaning = { λ s. linked_sets s.table.numbers.now s.table.used };

    ghost sound = { λ s. sound_linked s.table.numbers.now s.table.used s.table.fits s.table.stays s.ends };

    fn start(&mut self, n: u32) -> Result<(), NoRoom> {
        self.table.start(n)
    }

    fn find(&mut self, v: u32) -> Option<u32> {
        if !self.table.has(v) {
            return None;
        }
        Some(W::end(&mut self.table, v))
    }

    fn merge(&mut self, v: u32, p: u32) -> Result<(), NotTops> {
        self.table.hang(v, p)
    }
}
