use crate::checks::same;
use label_commands::*;
use mls_label::Label;
use std::alloc::Global;
use std::process::Abort;

type Levels = &'static [(u8, u32)];

type Cats = &'static [(u16, u32)];

fn reading(
    rt: &impl Abort,
    alloc: Global,
    levels: &[(u8, u32)],
    cats: &[(u16, u32)],
) -> Result<Reading, ReadingFault> {
    assert!(rt; cats.iter().all(|pair| pair.0 < 65535));
    Reading::of(alloc, levels, cats)
}

// What is named, and the fault. The meanings of levels from 0 on have to increase.
const REFUSED: &[(&str, Levels, Cats, ReadingFault)] = &[
    (
        "level 0 above 1",
        &[(0, 5)],
        &[],
        ReadingFault::NotIncreasing,
    ),
    (
        "level 1 like 2",
        &[(1, 2)],
        &[],
        ReadingFault::NotIncreasing,
    ),
    (
        "255 below 254",
        &[(255, 254)],
        &[],
        ReadingFault::NotIncreasing,
    ),
    (
        "twice, the first counts",
        &[(7, 9), (7, 7)],
        &[],
        ReadingFault::NotIncreasing,
    ),
    (
        "twice, the last counts for nothing",
        &[(7, 7), (7, 9)],
        &[],
        ReadingFault::NotDistinct,
    ),
    (
        "a category twice",
        &[],
        &[(1, 5), (1, 6)],
        ReadingFault::NotDistinct,
    ),
    (
        "one meaning for two",
        &[],
        &[(1, 70000), (2, 70000)],
        ReadingFault::NotDistinct,
    ),
    (
        "a meaning of an unnamed one",
        &[],
        &[(1, 5)],
        ReadingFault::NotDistinct,
    ),
    (
        "that of the last category",
        &[],
        &[(1, 65534)],
        ReadingFault::NotDistinct,
    ),
    (
        "levels come first",
        &[(0, 5)],
        &[(1, 5), (1, 6)],
        ReadingFault::NotIncreasing,
    ),
];

#[test]
fn refuses_by_the_first_fault(rt: HostRuntime) {
    for &(name, levels, cats, wanted) in REFUSED {
        let found = reading(&rt, rt.alloc(), levels, cats);
        same(&rt, name, found.err(), Some(wanted));
    }
}

const LEVELS: Levels = &[(255, 4_294_967_295), (254, 1000), (253, 253)];

const CATS: Cats = &[
    (7, 1),
    (8, 3),
    (1, 7),
    (3, 8),
    (65534, 65535),
    (0, 4_294_967_295),
];

fn named(rt: &impl Abort, alloc: Global) -> Reading {
    reading(rt, alloc, LEVELS, CATS).expect(rt, "a reading")
}

#[test]
fn names_levels(rt: HostRuntime) {
    let found = named(&rt, rt.alloc());
    for (level, meaning) in [(0, 0), (253, 253), (254, 1000), (255, 4_294_967_295)] {
        same(&rt, level, found.level(level), meaning);
    }
}

fn means(rt: &impl Abort, found: &Reading, category: u16, meaning: u32) {
    assert!(rt; category < 65535);
    same(rt, category, found.category(category), meaning);
}

#[test]
fn names_categories(rt: HostRuntime) {
    let found = named(&rt, rt.alloc());
    for &(category, meaning) in CATS {
        means(&rt, &found, category, meaning);
    }
    means(&rt, &found, 2, 2);
    means(&rt, &found, 65533, 65533);
    lists(&rt, &found);
}

fn lists(rt: &impl Abort, found: &Reading) {
    assert_eq!(rt; found.named_categories(), 6);
    same(rt, "the second", found.named_category(1), (8, 3));
}

/// Meanings, and the categories that have them.
const MEANT: &[(u32, Option<u16>)] = &[
    (1, Some(7)),
    (65535, Some(65534)),
    (2, Some(2)),
    (65533, Some(65533)),
    (0, None),
    (65534, None),
    (65536, None),
];

#[test]
fn finds_categories(rt: HostRuntime) {
    let found = named(&rt, rt.alloc());
    for &(meaning, category) in MEANT {
        same(&rt, meaning, found.find_category(meaning), category);
    }
}

#[test]
fn names_nothing(rt: HostRuntime) {
    let found = Reading::identity(rt.alloc()).expect(&rt, "memory");
    same(&rt, "level", found.level(255), 255);
    same(&rt, "category", found.category(65534), 65534);
    same(&rt, "named", found.named_categories(), 0);
}

fn many(rt: &impl Abort, alloc: Global) -> Vec<(u16, u32)> {
    let mut cats = Vec::new(alloc);
    for c in 0..60000u16 {
        cats.push((c, u32::from(c) + 100_000)).expect(rt, "memory");
    }
    cats
}

// Sixty thousand pairs, which is about what one line of a script has room for.
#[test]
fn takes_as_many_pairs_as_a_line_has(rt: HostRuntime) {
    let cats = many(&rt, rt.alloc());
    let found = reading(&rt, rt.alloc(), &[], &cats).expect(&rt, "a reading");
    means(&rt, &found, 59999, 159_999);
    means(&rt, &found, 60000, 60000);
}

type Runs = &'static [(u16, u16)];

// What a node names, and the level and the runs of a label there.
type Side = (Levels, Cats, u8, Runs);

fn label(rt: &impl Abort, level: u8, runs: &[(u16, u16)]) -> Label {
    let mut label = Label::lowest();
    label.level = level;
    for (first, last) in runs {
        assert!(rt; *first <= *last && *last < 65535);
        label.cats.add_run(*first, *last).expect(rt, "room");
    }
    label
}

/// The reading of a side, and its label.
fn read_side(
    rt: &impl Abort,
    alloc: Global,
    (levels, cats, level, runs): Side,
) -> (Reading, Label) {
    let read = reading(rt, alloc, levels, cats).expect(rt, "a reading");
    (read, label(rt, level, runs))
}

fn dominates(rt: &impl Abort, alloc: Global, here: Side, there: Side) -> bool {
    let (own_reading, own) = read_side(rt, alloc, here);
    let (other_reading, other) = read_side(rt, alloc, there);
    meaning_dominates(&own_reading, &own, &other_reading, &other)
}

// Two labels, each at its node, and whether the first one's meaning dominates the second one's.
const ROWS: &[(&str, Side, Side, bool)] = &[
    (
        "numbers mean themselves",
        (&[], &[], 2, &[(0, 5)]),
        (&[], &[], 2, &[(0, 0), (5, 5)]),
        true,
    ),
    (
        "a level too low",
        (&[], &[], 1, &[(0, 5)]),
        (&[], &[], 2, &[(0, 5)]),
        false,
    ),
    (
        "a category too few in front",
        (&[], &[], 2, &[(1, 5)]),
        (&[], &[], 2, &[(0, 5)]),
        false,
    ),
    (
        "a category too few behind",
        (&[], &[], 2, &[(0, 4)]),
        (&[], &[], 2, &[(0, 5)]),
        false,
    ),
    (
        "all categories",
        (&[], &[], 0, &[(0, 65534)]),
        (&[], &[], 0, &[(0, 65534)]),
        true,
    ),
    (
        "the last one is missing",
        (&[], &[], 0, &[(0, 65533)]),
        (&[], &[], 0, &[(0, 65534)]),
        false,
    ),
    (
        "a level that means more",
        (&[(254, 255), (255, 256)], &[], 254, &[]),
        (&[], &[], 255, &[]),
        true,
    ),
    (
        "a level that means less than it is",
        (&[], &[], 255, &[]),
        (&[(255, 256)], &[], 255, &[]),
        false,
    ),
    (
        "two categories change places here",
        (&[], &[(8, 3), (3, 8)], 0, &[(8, 8)]),
        (&[], &[], 0, &[(3, 3)]),
        true,
    ),
    (
        "and the number itself means another",
        (&[], &[(8, 3), (3, 8)], 0, &[(8, 8)]),
        (&[], &[], 0, &[(8, 8)]),
        false,
    ),
    (
        "two change places there",
        (&[], &[], 0, &[(3, 3)]),
        (&[], &[(8, 3), (3, 8)], 0, &[(8, 8)]),
        true,
    ),
    (
        "both by the same name",
        (&[], &[(7, 70000)], 0, &[(7, 7)]),
        (&[], &[(9, 70000)], 0, &[(9, 9)]),
        true,
    ),
    (
        "a name that none has here",
        (&[], &[(7, 70000)], 0, &[(0, 65534)]),
        (&[], &[(9, 70001)], 0, &[(9, 9)]),
        false,
    ),
    (
        "a number that means another here, though the number is in the label",
        (&[], &[(7, 70000)], 0, &[(0, 65534)]),
        (&[], &[], 0, &[(7, 7)]),
        false,
    ),
    (
        "the second run counts",
        (&[], &[], 0, &[(0, 1), (4, 4)]),
        (&[], &[], 0, &[(0, 1), (4, 5)]),
        false,
    ),
    (
        "no category is asked for",
        (&[], &[(0, 70000)], 0, &[]),
        (&[], &[(0, 70001)], 0, &[]),
        true,
    ),
];

#[test]
fn compares_what_labels_mean(rt: HostRuntime) {
    for &(shown, here, there, wanted) in ROWS {
        same(&rt, shown, dominates(&rt, rt.alloc(), here, there), wanted);
    }
}
