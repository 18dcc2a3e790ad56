// What can be read of any model, the empty one too.
ghost use Rattle.std.specs.Prelude.{◌≡◌, ◌≤◌, length};
ghost use Rattle.model.specs.Meaning.{meaning};
ghost use Rattle.model.specs.States.{entry_at};

use crate::models::Model;

// The most entries that any model holds.
pub const MOST_ENTRIES: usize = 262_144;

impl Model<'_> {
    // The order, 0 of the empty model.
    pub fn order(&self) -> u32
        ensures { result ≡ (meaning self.now).order }
    {
        self.store.order
    }

    // How many entries are held.
    pub fn held(&self) -> u32
        ensures count { result ≡ length (meaning self.now).entries }
        ensures fits { result ≤ (meaning self.now).capacity }
        ensures empty { (meaning self.now).order ≡ 0 → result ≡ 0 }
    {
        self.store.held
    }

    // The k-th of the entries held, counted from 1 in the order in which they were put, the lower vertex first.
    pub fn entry(&self, k: u32) -> Option<(u32, u32)>
        ensures { result ≡ entry_at (meaning self.now) k }
    {
        let index = k.checked_sub(1)? as usize;
        let entry = self.store.entries[..self.store.held as usize].get(index)?;
        Some((entry.low as u32, entry.high as u32))
    }

    // How many entries can be held.
    pub fn capacity(&self) -> u32
        ensures { result ≡ (meaning self.now).capacity }
    {
        self.store.entries.len().min(MOST_ENTRIES) as u32
    }

    pub fn is_analysed(&self) -> bool
        ensures { result ≡ (meaning self.now).analysed }
    {
        self.store.total.is_some()
    }
}
