// Pairs of vertices as a caller lends them, either way round, and as an analysis takes them, the lower vertex first.
ghost use Rattle.std.specs.Prelude.{◌≡◌, ℕ, ◌<◌, max, map, length};
ghost use Rattle.analysis.specs.Tables.{pair_of, pairs_of};
ghost use Rattle.downskillet_c.specs.Pairs.{ends_of, turned, given, Narrow};

use analysis::records::Entry;

#[derive(Clone, Copy)]
#[repr(C)]
pub struct Pair {
    pub first: u32,
    pub second: u32,
}

// What names two vertices: a pair of a list, or an entry of a table.
pub trait Ends {
    ghost ends: { Self → ℕ × ℕ };

    fn first(&self) -> u32
        ensures { result ≡ (ends self.now).0 };

    fn second(&self) -> u32
        ensures { result ≡ (ends self.now).1 };
}

impl Ends for Pair {
    ghost ends = { ends_of };

    fn first(&self) -> u32 {
        self.first
    }

    fn second(&self) -> u32 {
        self.second
    }
}

impl Ends for Entry {
    ghost ends = { pair_of };

    fn first(&self) -> u32 {
        self.low as u32
    }

    fn second(&self) -> u32 {
        self.high as u32
    }
}

// Makes these the two vertices of an entry, the lower one first.
fn set_ends(entry: &mut Entry, first: u32, second: u32)
    requires { max first second < 65536 }
    ensures { pair_of entry.new ≡ turned (first, second) }
{
    entry.low = first.min(second) as u16;
    entry.high = first.max(second) as u16;
}

// Makes the pairs those of the entries.
pub(crate) fn load(pairs: &[Pair], entries: &mut [Entry])
    requires room { length pairs.now ≡ length entries.old }
    requires narrow { Narrow (map turned (given pairs.now)) }
    ensures { pairs_of entries.new ≡ map turned (given pairs.now) }
{
    for (k, entry) in entries.iter_mut().enumerate() {
        let pair = pairs[k];
        set_ends(entry, pair.first, pair.second);
    }
}

// Turns each entry so that its lower vertex comes first.
pub(crate) fn turn(entries: &mut [Entry])
    ensures { pairs_of entries.new ≡ map turned (pairs_of entries.old) }
{
    for entry in entries.iter_mut() {
        let (first, second) = (entry.low as u32, entry.high as u32);
        set_ends(entry, first, second);
    }
}
