// A number for each vertex in use, in numbers that are lent: what the kinds of sets have in common. That the number in
// use stays has to be said by each call that leaves it, since a caller sees only its clauses.
ghost use Rattle.std.specs.Prelude.{◌≡◌, ◌-◌, ◌≤◌, true, is_ok, length, nat_le, slice_set};
ghost use Rattle.sets.specs.Meaning.{among};
ghost use Rattle.sets.specs.Tables.{number, room, own, two_tops, Begun, Hung, Stays};

use super::{NoRoom, NotTops};

// The most vertices that sets have room for.
const LIMIT: u32 = 16_384;

// Each vertex in use has room, and a number that is a vertex in use.
#[derive(Drop)]
pub struct Table<'a> {
    pub numbers: &'a mut [u32],
    // how many of the numbers are in use: they are lent whole, and nothing is allocated
    pub used: u32,
    ghost fits: { used ≤ room numbers.now },
    ghost stays: { Stays used (number numbers.now) },
}

impl<'a> Table<'a> {
    // A table over the numbers lent, with none in use yet.
    pub(crate) fn new(numbers: &'a mut [u32]) -> Self
        ensures lent { result.numbers.now ≡ numbers.old }
        ensures none { result.used ≡ 0 }
    {
        Table { numbers, used: 0 }
    }
}

impl Table<'_> {
    // Refuses n if there is no room for it.
    fn judge_start(&self, n: u32) -> Result<(), NoRoom>
        ensures { is_ok result ≡ nat_le n (room self.now.numbers.now) }
    {
        if n > LIMIT || n as usize > self.numbers.len() {
            return Err(NoRoom);
        }
        Ok(())
    }

    // Has 1 to n in use, each with itself as its number. Refused if there is no room for n.
    pub(crate) fn start(&mut self, n: u32) -> Result<(), NoRoom>
        ensures { Begun self.old.numbers.now self.old.used n (is_ok result)
            self.new.numbers.now self.new.used }
    {
        self.judge_start(n)?;
        for (i, number) in self.numbers[..n as usize].iter_mut().enumerate() {
            *number = i as u32 + 1;
        }
        self.used = n;
        Ok(())
    }

    // Whether v is in use.
    pub(crate) fn has(&self, v: u32) -> bool
        ensures { result ≡ among self.now.used v }
    {
        1 <= v && v <= self.used
    }

    // The number of v.
    pub(crate) fn get(&self, v: u32) -> u32
        requires { among self.now.used v ≡ true }
        ensures { result ≡ number self.now.numbers.now v }
    {
        self.numbers[v as usize - 1]
    }

    // Makes w the number of v.
    pub(crate) fn put(&mut self, v: u32, w: u32)
        requires has { among self.old.used v ≡ true }
        requires has_number { among self.old.used w ≡ true }
        ensures kept { self.new.used ≡ self.old.used }
        ensures stored { self.new.numbers.now ≡ slice_set self.old.numbers.now (v - 1) w }
    {
        self.numbers[v as usize - 1] = w;
    }

    // Whether v is in use and its number is v itself.
    fn owns(&self, v: u32) -> bool
        ensures { result ≡ own self.now.used (number self.now.numbers.now) v }
    {
        self.has(v) && self.get(v) == v
    }

    // Refuses v and p unless they are two different own tops.
    pub(crate) fn judge_merge(&self, v: u32, p: u32) -> Result<(), NotTops>
        ensures { is_ok result ≡ two_tops self.now.used (number self.now.numbers.now) v p }
    {
        if self.owns(v) && self.owns(p) && v != p {
            return Ok(());
        }
        Err(NotTops)
    }

    // Links v to p. Refused unless they are two different own tops.
    pub(crate) fn hang(&mut self, v: u32, p: u32) -> Result<(), NotTops>
        ensures kept { self.new.used ≡ self.old.used }
        ensures hung { Hung self.old.numbers.now self.old.used v p (is_ok result) self.new.numbers.now }
    {
        self.judge_merge(v, p)?;
        self.put(v, p);
        Ok(())
    }
}
