// Three kinds of values that are joined.
ghost use Rattle.std.specs.Prelude.{◌≡◌, ◌+ℤ◌, FitsSigned};
ghost use Rattle.std.proofs.Common.{sym, ap, ◌∙◌, Fits, arith, rules};
ghost use Rattle.gather.specs.Kinds.{no_weight, summed, weight};
ghost use Rattle.gather.specs.Kinds.{least_place, no_place, lesser};
ghost use Rattle.gather.specs.Kinds.{greatest_level, no_level, greater};
ghost use Rattle.std.proofs.Math.IntN.{+ℤ_assoc, +ℤ_idr};
ghost use Rattle.std.specs.Int.{int_wrap, w16, w64};
ghost use Rattle.std.proofs.lemmas.Int.{ints, int_wrap-add_left, int_wrap-add_right, int_wrap_fits};

use crate::joining::Joining;

// A share of a sum that wraps.
#[derive(Clone, Copy, Default)]
#[repr(C)]
pub struct Weight(pub i64);

impl Joining for Weight {
    ghost nothing = { no_weight };

    ghost joined = { summed };

    ghost fits = { λ x. FitsSigned w64 x.0 };

    ghost laws = { record {
      commutes = λ x y. ap (λ z. weight (int_wrap w64 z)) (omega (arith, ints));
      regroups = λ x y z.
          ap weight
          (int_wrap-add_left w64 (x.0 +ℤ y.0) z.0
          ∙ ap (int_wrap w64) (+ℤ_assoc x.0 y.0 z.0)
          ∙ sym (int_wrap-add_right w64 x.0 (y.0 +ℤ z.0)));
      keeps = λ x fits. ap weight (ap (int_wrap w64) (+ℤ_idr x.0) ∙ int_wrap_fits w64 x.0 fits);
      begins = Prim.search rules;
    } };

    fn neutral() -> Weight {
        Weight(0)
    }

    fn join(self, other: Weight) -> Weight {
        Weight(self.0.wrapping_add(other.0))
    }
}

// A place, of which the least is sought: 16 bits hold the largest order, 16,384. One type for this and the next would
// be no plainer: min or max, and what is neutral to it, are all that they are.
#[derive(Clone, Copy, Default)]
#[repr(C)]
pub struct LeastPlace(pub u16);

impl From<u16> for LeastPlace {
    // A clause's number has no bound: that the place fits is said here, for the records that hold one.
    ghost from_gives = { λ place given. (given ≡ least_place place) × Fits w16 place };

    fn from(place: u16) -> LeastPlace {
        LeastPlace(place)
    }
}

impl Joining for LeastPlace {
    ghost nothing = { no_place };

    ghost joined = { lesser };

    ghost fits = { λ x. Fits w16 x.0 };

    ghost laws = { Prim.search rules };

    fn neutral() -> LeastPlace {
        LeastPlace(u16::MAX)
    }

    fn join(self, other: LeastPlace) -> LeastPlace {
        LeastPlace(self.0.min(other.0))
    }
}

// A level, of which the greatest is sought.
#[derive(Clone, Copy, Default)]
#[repr(C)]
pub struct GreatestLevel(pub u16);

impl From<u16> for GreatestLevel {
    // As for a place, that the level fits is said here.
    ghost from_gives = { λ level given. (given ≡ greatest_level level) × Fits w16 level };

    fn from(level: u16) -> GreatestLevel {
        GreatestLevel(level)
    }
}

impl Joining for GreatestLevel {
    ghost nothing = { no_level };

    ghost joined = { greater };

    ghost fits = { λ x. Fits w16 x.0 };

    ghost laws = { Prim.search rules };

    fn neutral() -> GreatestLevel {
        GreatestLevel(0)
    }

    fn join(self, other: GreatestLevel) -> GreatestLevel {
        GreatestLevel(self.0.max(other.0))
    }
}
