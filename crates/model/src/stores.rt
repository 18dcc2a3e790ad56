// The tables that a model holds its entries and its analysis in.
ghost use Rattle.std.specs.Prelude.{◌≡◌, ◌≤◌, min, take, true, length};
ghost use Rattle.analysis.specs.Tables.{Sound, pairs_of};
ghost use Rattle.model.specs.States.{largest_order, most_entries};
ghost use Rattle.model.specs.Tables.{distinct};

use crate::pairs::Pair;
use analysis::records::{Entry, Vertex};

#[derive(Drop)]
pub struct Store<'a> {
    // 0 of the empty model: the number that is answered, so that an option would be no plainer
    pub order: u32,
    // how many are held at the start of the entry table, which is lent whole: nothing is allocated
    pub held: u32,
    // the sum of all column counts, once analysed
    pub total: Option<u64>,
    pub vertices: &'a mut [Vertex],
    pub entries: &'a mut [Entry],
    ghost small: { order ≤ largest_order },
    ghost placed: { order ≤ length vertices.now },
    // no more entries are held than the capacity, the length of the entry table or 262,144 if that is less
    ghost room: { held ≤ min (length entries.now) most_entries },
    // the two vertices of each entry are of the order, the lower one first; so the empty store, of order 0, holds none
    ghost sound: { Sound order (pairs_of (take held entries.now)) },
    // no entry is held twice, either way round
    ghost apart: { distinct (pairs_of (take held entries.now)) ≡ true },
}

impl Store<'_> {
    ghost use Rattle.std.specs.Prelude.{◌<◌};
    ghost use Rattle.model.specs.Stored.{Fresh, Pushed, Removed, held_by};
    ghost use Rattle.model.specs.Tables.{index_of};

    // Where the entry of these two vertices stands, if it does. An entry has slots that a pair has not, so that the
    // two vertices are compared, here, and written, in `push`, one by one.
    pub(crate) fn find(&self, pair: Pair) -> Option<usize>
        ensures { result ≡ index_of pair (held_by self.now) }
    {
        self.entries[..self.held as usize]
            .iter()
            .position(|entry| entry.low == pair.low && entry.high == pair.high)
    }

    // Holds one more entry, after the others.
    pub(crate) fn push(&mut self, pair: Pair)
        requires { Fresh pair self.old }
        ensures { Pushed pair self.old self.new }
    {
        self.entries[self.held as usize] = Entry {
            low: pair.low,
            high: pair.high,
            lower: 0,
            upper: 0,
        };
        self.held += 1;
        self.total = None;
    }

    // Takes out the entry that stands at an index; those after it move down by one.
    pub(crate) fn remove(&mut self, at: usize)
        requires stands { at < self.old.held }
        ensures { Removed at self.old self.new }
    {
        self.entries[..self.held as usize].copy_within(at + 1.., at);
        self.held -= 1;
        self.total = None;
    }
}
