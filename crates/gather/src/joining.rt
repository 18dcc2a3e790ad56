// Values that can be joined, and vertex records that hold one.
ghost use Rattle.std.specs.Prelude.{◌≡◌, ℕ};
ghost use Rattle.std.proofs.Common.{ap₂};
ghost use Rattle.gather.specs.Joinings.{JoiningLaws, joined_both};
ghost use Rattle.gather.specs.Gatherings.{NodeLaws};

// Values that can be joined, in any order and any grouping.
pub trait Joining: Sized {
    // The neutral value.
    ghost nothing: { Self };

    ghost joined: { Self → Self → Self };

    // A clause's number has no bound: this says which of them the type holds.
    ghost fits: { Self → Type 0 };

    fn neutral() -> Self
        ensures { result ≡ nothing };

    fn join(self, other: Self) -> Self
        ensures { result ≡ joined self other };

    ghost laws: { JoiningLaws nothing joined fits };
}

// Two values that are joined at once, each with its own kind: one pass then gathers both.
impl<A: Joining, B: Joining> Joining for (A, B) {
    ghost nothing = { (A.nothing, B.nothing) };

    ghost joined = { joined_both A.joined B.joined };

    ghost fits = { λ x. A.fits x.0 × B.fits x.1 };

    ghost laws = { record {
      commutes = λ x y. ap₂ (λ a b. (a, b)) (A.laws.commutes x.0 y.0) (B.laws.commutes x.1 y.1);
      regroups = λ x y z. ap₂ (λ a b. (a, b)) (A.laws.regroups x.0 y.0 z.0) (B.laws.regroups x.1 y.1 z.1);
      keeps = λ x fits. ap₂ (λ a b. (a, b)) (A.laws.keeps x.0 fits.0) (B.laws.keeps x.1 fits.1);
      begins = (A.laws.begins, B.laws.begins);
    } };

    fn neutral() -> (A, B) {
        (A::neutral(), B::neutral())
    }

    fn join(self, other: (A, B)) -> (A, B) {
        (self.0.join(other.0), self.1.join(other.1))
    }
}

// A vertex's record that says who its parent is, where values of the kind J are gathered. Most records have one parent
// whatever is gathered, and say it once, by an impl for every J.
pub trait Child<J>: Sized {
    // What is read where a table has no record.
    ghost blank: { Self };

    // The parent, 0 at a root.
    ghost above: { Self → ℕ };

    fn parent(&self) -> u32
        ensures { result ≡ above self.now };
}

// Such a record with a value of the kind J in one of its fields.
pub trait Node<J: Joining>: Child<J> {
    ghost held: { Self → J };

    // The record with its value set, and nothing else changed.
    ghost holding: { Self → J → Self };

    fn value(&self) -> J
        ensures is { result ≡ held self.now }
        ensures fitting { J.fits result };

    fn set_value(&mut self, value: J)
        ensures { self.new ≡ holding self.old value };

    ghost laws: { NodeLaws Self.above held holding };
}
