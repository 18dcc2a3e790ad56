// The same calls to all kinds of sets, each with the answer that was worked out by hand.
use super::{AncestorSets, FollowedLinks, HalvedLinks, WrittenTops};
use std::process::Abort;

// A call and its answer.
#[derive(Clone, Copy)]
enum Call {
    Start(u32, bool),
    Find(u32, Option<u32>),
    Merge(u32, u32, bool),
}

use Call::{Find, Merge, Start};

fn run<S: AncestorSets>(rt: &impl Abort, sets: &mut S, calls: &[Call]) {
    for call in calls {
        match *call {
            Start(n, answer) => assert_eq!(rt; sets.start(n).is_ok(), answer),
            Find(v, answer) => assert_eq!(rt; sets.find(v), answer),
            Merge(v, p, answer) => assert_eq!(rt; sets.merge(v, p).is_ok(), answer),
        }
    }
}

// Each kind over numbers of its own, which hold anything before.
fn run_all(rt: &impl Abort, numbers: [u32; 6], calls: &[Call]) {
    let mut followed = numbers;
    run(rt, &mut FollowedLinks::new(&mut followed), calls);
    let mut halved = numbers;
    run(rt, &mut HalvedLinks::new(&mut halved), calls);
    let mut written = numbers;
    run(rt, &mut WrittenTops::new(&mut written), calls);
}

#[test]
fn nothing_in_use(rt: HostRuntime) {
    run_all(
        &rt,
        [2, 3, 4, 5, 6, 1],
        &[
            Find(0, None),
            Find(1, None),
            Merge(1, 2, false),
            Start(7, false),
            Find(1, None),
        ],
    );
}

// 1 and 2 below 3, 3 below 5: then all but 4 have the top 5.
#[test]
fn merges_and_refusals(rt: HostRuntime) {
    let calls = [
        Start(5, true),
        Merge(1, 3, true),
        Merge(2, 3, true),
        Find(1, Some(3)),
        Merge(3, 5, true),
        Merge(1, 4, false),
        Merge(4, 1, false),
        Merge(4, 4, false),
        Merge(0, 4, false),
        Merge(4, 0, false),
        Merge(6, 4, false),
        Merge(4, 6, false),
        Find(0, None),
        Find(1, Some(5)),
        Find(2, Some(5)),
        Find(3, Some(5)),
        Find(4, Some(4)),
        Find(5, Some(5)),
        Find(6, None),
        Merge(5, 4, true),
        Find(1, Some(4)),
        Find(5, Some(4)),
        Find(4, Some(4)),
    ];
    run_all(&rt, [0, 0, 0, 0, 0, 0], &calls);
}

// A way through all six vertices, found twice; then starts with fewer vertices, with too many and with all.
#[test]
fn a_long_way_and_new_starts(rt: HostRuntime) {
    let calls = [
        Start(6, true),
        Merge(2, 1, true),
        Merge(1, 3, true),
        Merge(3, 6, true),
        Merge(6, 5, true),
        Merge(5, 4, true),
        Find(2, Some(4)),
        Find(2, Some(4)),
        Find(1, Some(4)),
        Find(6, Some(4)),
        Start(2, true),
        Find(2, Some(2)),
        Find(3, None),
        Merge(2, 1, true),
        Merge(1, 3, false),
        Start(7, false),
        Find(2, Some(1)),
        Find(3, None),
        Start(6, true),
        Find(2, Some(2)),
        Find(6, Some(6)),
    ];
    run_all(&rt, [6, 5, 4, 3, 2, 1], &calls);
}

// Sets over no numbers, and over more than they have room for.
#[test]
fn least_and_most(rt: HostRuntime) {
    let calls = [
        Start(1, false),
        Start(0, true),
        Find(0, None),
        Find(1, None),
        Merge(0, 0, false),
    ];
    run(&rt, &mut FollowedLinks::new(&mut []), &calls);
    run(&rt, &mut HalvedLinks::new(&mut []), &calls);
    run(&rt, &mut WrittenTops::new(&mut []), &calls);
    let most = [
        Start(16_385, false),
        Start(16_384, true),
        Merge(1, 16_384, true),
        Find(1, Some(16_384)),
        Find(16_385, None),
    ];
    let mut numbers = [0; 16_385];
    run(&rt, &mut FollowedLinks::new(&mut numbers), &most);
    run(&rt, &mut HalvedLinks::new(&mut numbers), &most);
    run(&rt, &mut WrittenTops::new(&mut numbers), &most);
}
