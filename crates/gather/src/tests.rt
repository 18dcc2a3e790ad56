// The gathering over small forests, with values worked out by hand.
ghost use Rattle.std.specs.Prelude.{◌≡◌, pos};
ghost use Rattle.pattern.specs.Forest.{Grows};
ghost use Rattle.gather.specs.Gatherings.{field_of};
ghost use Rattle.gather.specs.Kinds.{weight, least_place, greatest_level};
ghost use Rattle.std.proofs.Common.{rules};

use crate::gathering::{gather, gather_from};
use crate::joining::{Child, Node};
use crate::kinds::*;

#[derive(Clone, Copy)]
struct Vertex {
    parent: u32,
    weight: i64,
    place: u16,
    level: u16,
}

impl<J> Child<J> for Vertex {
    ghost blank = { record { parent = 0; weight = pos 0; place = 0; level = 0 } };

    ghost above = { λ x. x.parent };

    fn parent(&self) -> u32 {
        self.parent
    }
}

// One impl for each field: they differ in the field alone, and the gate refuses impls that a macro writes.
impl Node<Weight> for Vertex {
    ghost held = { λ x. weight x.weight };

    ghost holding = { λ x value. record x { weight = value.0 } };

    ghost laws = { Prim.search rules };

    fn value(&self) -> Weight {
        Weight(self.weight)
    }

    fn set_value(&mut self, value: Weight) {
        self.weight = value.0;
    }
}

impl Node<LeastPlace> for Vertex {
    ghost held = { λ x. least_place x.place };

    ghost holding = { λ x value. record x { place = value.0 } };

    ghost laws = { Prim.search rules };

    fn value(&self) -> LeastPlace {
        LeastPlace::from(self.place)
    }

    fn set_value(&mut self, value: LeastPlace) {
        self.place = value.0;
    }
}

impl Node<GreatestLevel> for Vertex {
    ghost held = { λ x. greatest_level x.level };

    ghost holding = { λ x value. record x { level = value.0 } };

    ghost laws = { Prim.search rules };

    fn value(&self) -> GreatestLevel {
        GreatestLevel::from(self.level)
    }

    fn set_value(&mut self, value: GreatestLevel) {
        self.level = value.0;
    }
}

impl Node<(LeastPlace, GreatestLevel)> for Vertex {
    ghost held = { λ x. (least_place x.place, greatest_level x.level) };

    ghost holding = { λ x value. record x { place = value.0.0; level = value.1.0 } };

    ghost laws = { Prim.search rules };

    fn value(&self) -> (LeastPlace, GreatestLevel) {
        (
            LeastPlace::from(self.place),
            GreatestLevel::from(self.level),
        )
    }

    fn set_value(&mut self, value: (LeastPlace, GreatestLevel)) {
        self.place = value.0.0;
        self.level = value.1.0;
    }
}

fn made(parent: u32, weight: i64, place: u16, level: u16) -> Vertex
    ensures { result ≡ record { parent = parent; weight = weight; place = place; level = level } }
{
    Vertex {
        parent,
        weight,
        place,
        level,
    }
}

// 6 is the root; 1 lies below 4, and 2 below 3 below 5.
fn tree() -> [Vertex; 6]
    ensures { Grows 6 (field_of ⟦<Vertex as Child<Weight>>⟧.blank ⟦<Vertex as Child<Weight>>⟧.above result) }
{
    [
        made(4, 1, 4, 3),
        made(3, 10, 2, 5),
        made(5, 100, 6, 1),
        made(6, -1000, 1, 2),
        made(6, 10000, 3, 0),
        made(0, 100000, 5, 4),
    ]
}

#[test]
fn sums_over_a_tree(rt: HostRuntime) {
    let mut tree = tree();
    gather::<Weight, Vertex>(&mut tree);
    assert_eq!(rt;
        tree.map(|vertex| vertex.weight),
        [1, 10, 110, -999, 10110, 109111]
    );
}

#[test]
fn least_over_a_tree(rt: HostRuntime) {
    let mut tree = tree();
    gather::<LeastPlace, Vertex>(&mut tree);
    assert_eq!(rt; tree.map(|vertex| vertex.place), [4, 2, 2, 1, 2, 1]);
}

#[test]
fn greatest_over_a_tree(rt: HostRuntime) {
    let mut tree = tree();
    gather::<GreatestLevel, Vertex>(&mut tree);
    assert_eq!(rt; tree.map(|vertex| vertex.level), [3, 5, 5, 3, 5, 5]);
}

#[test]
fn both_over_a_tree(rt: HostRuntime) {
    let mut tree = tree();
    gather::<(LeastPlace, GreatestLevel), Vertex>(&mut tree);
    assert_eq!(rt; tree.map(|vertex| vertex.place), [4, 2, 2, 1, 2, 1]);
    assert_eq!(rt; tree.map(|vertex| vertex.level), [3, 5, 5, 3, 5, 5]);
}

#[test]
fn sizes_of_a_tree(rt: HostRuntime) {
    let mut tree = tree();
    gather_from(&mut tree, |_| Weight(1));
    assert_eq!(rt; tree.map(|vertex| vertex.weight), [1, 1, 2, 2, 3, 6]);
}

// 2 and 4 are roots; the fifth record is no vertex of the forest.
fn forest() -> [Vertex; 5]
    ensures { Grows 4 (field_of ⟦<Vertex as Child<Weight>>⟧.blank ⟦<Vertex as Child<Weight>>⟧.above result) }
{
    [
        made(2, i64::MAX, 0, 0),
        made(0, 1, 0, 0),
        made(4, 5, 0, 0),
        made(0, 6, 0, 0),
        made(1, 7, 0, 0),
    ]
}

#[test]
fn wraps_over_a_forest(rt: HostRuntime) {
    let mut forest = forest();
    gather::<Weight, Vertex>(&mut forest[..4]);
    assert_eq!(rt;
        forest.map(|vertex| vertex.weight),
        [i64::MAX, i64::MIN, 5, 11, 7]
    );
}

// A record that lies in two forests: in one for its weight, and in another for its level.
#[derive(Clone, Copy)]
struct Twofold {
    heavier: u32,
    higher: u32,
    weight: i64,
    level: u16,
}

impl Child<Weight> for Twofold {
    ghost blank = { record { heavier = 0; higher = 0; weight = pos 0; level = 0 } };

    ghost above = { λ x. x.heavier };

    fn parent(&self) -> u32 {
        self.heavier
    }
}

impl Node<Weight> for Twofold {
    ghost held = { λ x. weight x.weight };

    ghost holding = { λ x value. record x { weight = value.0 } };

    ghost laws = { Prim.search rules };

    fn value(&self) -> Weight {
        Weight(self.weight)
    }

    fn set_value(&mut self, value: Weight) {
        self.weight = value.0;
    }
}

impl Child<GreatestLevel> for Twofold {
    ghost blank = { record { heavier = 0; higher = 0; weight = pos 0; level = 0 } };

    ghost above = { λ x. x.higher };

    fn parent(&self) -> u32 {
        self.higher
    }
}

impl Node<GreatestLevel> for Twofold {
    ghost held = { λ x. greatest_level x.level };

    ghost holding = { λ x value. record x { level = value.0 } };

    ghost laws = { Prim.search rules };

    fn value(&self) -> GreatestLevel {
        GreatestLevel::from(self.level)
    }

    fn set_value(&mut self, value: GreatestLevel) {
        self.level = value.0;
    }
}

#[test]
fn a_parent_for_each_kind(rt: HostRuntime) {
    let mut nodes = [
        Twofold {
            heavier: 2,
            higher: 3,
            weight: 1,
            level: 9,
        },
        Twofold {
            heavier: 0,
            higher: 0,
            weight: 10,
            level: 5,
        },
        Twofold {
            heavier: 0,
            higher: 0,
            weight: 100,
            level: 7,
        },
    ];
    gather::<Weight, Twofold>(&mut nodes);
    gather::<GreatestLevel, Twofold>(&mut nodes);
    assert_eq!(rt; nodes.map(|node| node.weight), [1, 11, 100]);
    assert_eq!(rt; nodes.map(|node| node.level), [9, 5, 9]);
}
