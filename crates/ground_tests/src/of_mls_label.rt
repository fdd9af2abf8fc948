use crate::checks::{holds, same};
use mls_label::*;
use std::process::Abort;

type Runs = &'static [(u16, u16)];

fn add_all(rt: &impl Abort, set: &mut CatSet, runs: &[(u16, u16)]) {
    for (first, last) in runs {
        assert!(rt; *first <= *last && *last < 65535);
        set.add_run(*first, *last).expect(rt, "room");
    }
}

/// What is added, and the runs then.
const JOINED: &[(Runs, Runs)] = &[
    (&[(3, 5)], &[(3, 5)]),
    (&[(3, 5), (6, 6)], &[(3, 6)]),
    (&[(3, 5), (2, 2)], &[(2, 5)]),
    (&[(3, 5), (7, 9)], &[(3, 5), (7, 9)]),
    (&[(7, 9), (3, 5)], &[(3, 5), (7, 9)]),
    (&[(3, 5), (7, 9), (6, 6)], &[(3, 9)]),
    (&[(5, 5), (4, 4), (3, 3), (4, 4)], &[(3, 5)]),
    (
        &[(0, 0), (2, 2), (4, 4), (6, 6), (2, 4)],
        &[(0, 0), (2, 4), (6, 6)],
    ),
    (&[(0, 0), (2, 2), (4, 4), (6, 6), (1, 5)], &[(0, 6)]),
    (&[(10, 20), (0, 5), (30, 40), (4, 31)], &[(0, 40)]),
    (&[(65534, 65534), (0, 0)], &[(0, 0), (65534, 65534)]),
    (&[(7, 9), (0, 65534), (5, 7)], &[(0, 65534)]),
];

fn has_runs(rt: &impl Abort, set: &CatSet, runs: &[(u16, u16)], added: &[(u16, u16)]) {
    assert_eq!(rt; set.runs(), runs.len(), "after {added:?}");
    for (i, run) in runs.iter().enumerate() {
        same(rt, added, set.run(i), *run);
    }
}

// Runs that meet or stand side by side are one; the runs on the right are worked by hand.
#[test]
fn joins_runs(rt: HostRuntime) {
    for (added, wanted) in JOINED {
        let mut set = CatSet::empty();
        add_all(&rt, &mut set, added);
        has_runs(&rt, &set, wanted, added);
    }
}

/// How many runs and categories there are, and the highest.
fn sizes(set: &CatSet) -> (usize, u32, Option<u16>) {
    (set.runs(), set.count(), set.highest())
}

#[test]
fn keeps_1952_runs(rt: HostRuntime) {
    let mut set = CatSet::empty();
    for k in 0..1952u16 {
        set.add(2 * k).expect(&rt, "room");
    }
    same(&rt, "runs", set.runs(), 1952);
    same(&rt, "one more", set.add(3904), Err(TooManyRuns));
    let found = set.add_run(3904, 4000);
    same(&rt, "a longer one", found, Err(TooManyRuns));
    same(&rt, "full", sizes(&set), (1952, 1952, Some(3902)));
    for category in [3903, 1, 4000] {
        set.add(category).expect(&rt, "room");
    }
    same(&rt, "joined", sizes(&set), (1952, 1955, Some(4000)));
}

#[test]
fn copies_labels(rt: HostRuntime) {
    let mut cats = CatSet::empty();
    add_all(&rt, &mut cats, &[(3, 5), (9, 9)]);
    let low = Label {
        level: 2,
        cats: cats.copy(),
    };
    add_all(&rt, &mut cats, &[(4000, 4000)]);
    let high = Label { level: 2, cats };
    holds(&rt, "same", low.copy().same(&low) && !low.same(&high));
    holds(
        &rt,
        "dominates",
        high.dominates(&low) && !low.dominates(&high),
    );
    let kept = KeptLabel::of(rt.alloc(), &high).expect(&rt, "memory");
    holds(&rt, "kept", kept.label().same(&high));
}

const ODD: [(u16, u16); 9] = [
    (1, 1),
    (3, 3),
    (5, 5),
    (7, 7),
    (9, 9),
    (11, 11),
    (13, 13),
    (15, 15),
    (17, 20),
];

// One place keeps labels of few runs and of many in turn.
#[test]
fn packs_labels(rt: HostRuntime) {
    let cases: [(u8, &[(u16, u16)]); 5] = [
        (7, &ODD),
        (6, &ODD[..8]),
        (0, &[]),
        (255, &[(0, 65534)]),
        (5, &ODD),
    ];
    let mut packed = PackedLabel::lowest(rt.alloc());
    let mut shown = Label::lowest();
    for (level, runs) in cases {
        let mut label = Label::lowest();
        label.level = level;
        add_all(&rt, &mut label.cats, runs);
        packed.keep(&label).expect(&rt, "memory");
        packed.show(&mut shown);
        holds(&rt, level, shown.same(&label));
    }
}
