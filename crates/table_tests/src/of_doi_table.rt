use crate::checks::same;
use doi_table::*;
use mls_label::{Label, Tag};
use std::alloc::Global;
use std::process::Abort;

type Levels = &'static [(u8, u8)];

type Cats = &'static [(u16, u16)];

fn listed<T: Copy>(rt: &impl Abort, alloc: Global, items: &[T]) -> Listed<T> {
    Listed::from_vec(Vec::from_slice(alloc, items).expect(rt, "memory"))
}

fn plan_of(rt: &impl Abort, alloc: Global, levels: &[(u8, u8)], cats: &[(u16, u16)]) -> DoiPlan {
    DoiPlan {
        trans: true,
        tags: listed(rt, alloc, &[Tag::One]),
        levels: listed(rt, alloc, levels),
        cats: listed(rt, alloc, cats),
    }
}

// Adds a definition, which the table answers so.
fn answers(
    rt: &impl Abort,
    table: &mut DoiTable,
    (proto, doi): (Proto, u32),
    plan: &DoiPlan,
    wanted: Result<(), DoiFault>,
) {
    assert!(rt; 0 < doi && plan.is_plan());
    same(rt, doi, table.add(proto, doi, plan), wanted);
}

fn label_of(rt: &impl Abort, (level, cats): (u8, &[u16])) -> Label {
    let mut label = Label::lowest();
    label.level = level;
    for c in cats {
        assert!(rt; *c < 65535);
        label.cats.add(*c).expect(rt, "few runs");
    }
    label
}

// Definitions: the DOI, the pairs of levels, then those of categories.
const DEFINITIONS: &[(u32, Levels, Cats)] = &[
    (8, &[(0, 5), (1, 3)], &[(0, 1), (1, 0)]),
    (9, &[(2, 7)], &[(1, 0), (4, 3000)]),
    (
        10,
        &[(0, 10), (1, 11), (2, 12)],
        &[(3, 4), (1, 5), (65534, 0)],
    ),
];

type Numbers = (u8, &'static [u16]);

// A definition's place, whether the label goes out, its level and its categories; then what it becomes, worked by hand.
type Row = (usize, bool, Numbers, Result<Numbers, Unmapped>);

const ROWS: &[Row] = &[
    (0, true, (0, &[0]), Ok((5, &[1]))),
    (0, false, (3, &[0]), Ok((1, &[1]))),
    (0, false, (3, &[]), Ok((1, &[]))),
    (0, false, (4, &[]), Err(Unmapped::Level)),
    (0, false, (4, &[9]), Err(Unmapped::Level)),
    (0, false, (3, &[0, 2, 9]), Err(Unmapped::Category(2))),
    (0, false, (3, &[0, 1, 2]), Err(Unmapped::Category(2))),
    (1, false, (7, &[0]), Ok((2, &[1]))),
    (1, true, (2, &[1]), Ok((7, &[0]))),
    (1, true, (3, &[]), Err(Unmapped::Level)),
    (1, true, (2, &[1, 4]), Ok((7, &[0, 3000]))),
    (1, true, (2, &[1, 3, 4]), Err(Unmapped::Category(3))),
    (2, true, (2, &[1, 3]), Ok((12, &[4, 5]))),
    (2, false, (12, &[4, 5]), Ok((2, &[1, 3]))),
    (2, true, (0, &[65534]), Ok((10, &[0]))),
];

// Whether the label is translated to the one that is wanted.
fn is_translated(
    rt: &impl Abort,
    def: &DoiDef,
    out: bool,
    label: &Label,
    wanted: Result<Numbers, Unmapped>,
) -> bool {
    let found = if out {
        to_wire(def, label)
    } else {
        to_local(def, label)
    };
    match (found, wanted) {
        (Ok(found), Ok(wanted)) => found.same(&label_of(rt, wanted)),
        (Err(found), Err(wanted)) => found == wanted,
        _ => false,
    }
}

fn defined(rt: &impl Abort, alloc: Global) -> DoiTable {
    let mut table = DoiTable::empty(alloc);
    for &(doi, levels, cats) in DEFINITIONS {
        let plan = plan_of(rt, alloc, levels, cats);
        answers(rt, &mut table, (Proto::Cipso, doi), &plan, Ok(()));
    }
    table
}

fn translates(rt: &impl Abort, table: &DoiTable, row: usize, (by, out, label, wanted): Row) {
    assert!(rt; by < table.count());
    let (_, _, def) = table.entry(by);
    let label = label_of(rt, label);
    assert!(rt; is_translated(rt, def, out, &label, wanted), "row {row}");
}

#[test]
fn translates_labels_by_their_pairs(rt: HostRuntime) {
    let table = defined(&rt, rt.alloc());
    for (i, row) in ROWS.iter().enumerate() {
        translates(&rt, &table, i, *row);
    }
}

// Pairs of the categories 0, 2, 4 and so on, each with its half.
fn halved(rt: &impl Abort, alloc: Global, count: u16) -> Vec<(u16, u16)> {
    assert!(rt; count < 2000);
    let mut pairs = Vec::new(alloc);
    for k in 0..count {
        pairs.push((2 * k, k)).expect(rt, "memory");
    }
    pairs
}

fn answers_halved(
    rt: &impl Abort,
    alloc: Global,
    table: &mut DoiTable,
    count: u16,
    wanted: Result<(), DoiFault>,
) {
    let plan = plan_of(rt, alloc, &[(0, 0)], &halved(rt, alloc, count));
    answers(rt, table, (Proto::Cipso, 3), &plan, wanted);
}

// The wire label with categories 0 to 1,951 becomes one of 1,952 runs.
fn translates_1952_runs(rt: &impl Abort, def: &DoiDef) {
    let mut wire = Label::lowest();
    wire.cats.add_run(0, 1951).expect(rt, "one run");
    let local = to_local(def, &wire).expect(rt, "each has a pair");
    same(rt, "runs", local.cats.runs(), 1952);
    same(rt, "highest", local.cats.highest(), Some(3902));
    let back = to_wire(def, &local).expect(rt, "each has a pair");
    assert!(rt; back.same(&wire));
}

#[test]
fn takes_1952_pairs_and_no_more(rt: HostRuntime) {
    let mut table = DoiTable::empty(rt.alloc());
    answers_halved(
        &rt,
        rt.alloc(),
        &mut table,
        1953,
        Err(DoiFault::TooManyPairs),
    );
    answers_halved(&rt, rt.alloc(), &mut table, 1952, Ok(()));
    translates_1952_runs(&rt, table.find(Proto::Cipso, 3).expect(&rt, "added"));
}

fn passes_all(rt: &impl Abort, def: &DoiDef) {
    let label = label_of(rt, (255, &[0, 65534]));
    let mut into = label_of(rt, (1, &[7]));
    to_wire_into(def, &label, &mut into).expect(rt, "passes");
    assert!(rt; into.same(&label));
    same(rt, "level", def.local_level(255), Some(255));
    same(rt, "category", def.local_category(65534), Some(65534));
}

#[test]
fn leaves_labels_where_all_numbers_pass(rt: HostRuntime) {
    let mut plan = plan_of(&rt, rt.alloc(), &[], &[]);
    plan.trans = false;
    let mut table = DoiTable::empty(rt.alloc());
    answers(&rt, &mut table, (Proto::Calipso, 9), &plan, Ok(()));
    passes_all(&rt, table.find(Proto::Calipso, 9).expect(&rt, "added"));
}

// Plans that aren't one-to-one: equal local levels, equal remote levels, one pair twice, equal categories of either kind.
const TWICE: &[(Levels, Cats)] = &[
    (&[(0, 5), (0, 6)], &[]),
    (&[(0, 5), (1, 5)], &[]),
    (&[(0, 5), (0, 5)], &[]),
    (&[(0, 5)], &[(4, 1), (2, 3), (9, 1)]),
    (&[(0, 5)], &[(4, 1), (2, 3), (4, 2)]),
];

// A table with all the definitions of a protocol that it takes.
fn full(rt: &impl Abort, alloc: Global, plan: &DoiPlan) -> DoiTable {
    let mut table = DoiTable::empty(alloc);
    for doi in 1..65u32 {
        answers(rt, &mut table, (Proto::Cipso, doi), plan, Ok(()));
    }
    table
}

fn refuses_many(rt: &impl Abort, alloc: Global, table: &mut DoiTable) {
    let many = plan_of(rt, alloc, &[(0, 5), (1, 5)], &halved(rt, alloc, 1953));
    answers(rt, table, (Proto::Cipso, 64), &many, Err(DoiFault::Exists));
    answers(
        rt,
        table,
        (Proto::Cipso, 65),
        &many,
        Err(DoiFault::TooManyPairs),
    );
}

fn refuses_twice(rt: &impl Abort, alloc: Global, table: &mut DoiTable) {
    for &(levels, cats) in TWICE {
        let plan = plan_of(rt, alloc, levels, cats);
        answers(
            rt,
            table,
            (Proto::Cipso, 65),
            &plan,
            Err(DoiFault::NotOneToOne),
        );
    }
}

// The first fault of several, in the order: defined, too many pairs, not one-to-one, full.
#[test]
fn refuses_plans_by_the_first_fault(rt: HostRuntime) {
    let good = plan_of(&rt, rt.alloc(), &[(0, 5)], &[(4, 1), (1, 4)]);
    let mut table = full(&rt, rt.alloc(), &good);
    refuses_many(&rt, rt.alloc(), &mut table);
    refuses_twice(&rt, rt.alloc(), &mut table);
    answers(
        &rt,
        &mut table,
        (Proto::Cipso, 65),
        &good,
        Err(DoiFault::Full),
    );
    answers(&rt, &mut table, (Proto::Calipso, 64), &good, Ok(()));
    same(&rt, "count", table.count(), 65);
}

const CAME: &[(Proto, u32)] = &[
    (Proto::Cipso, 9),
    (Proto::Calipso, 9),
    (Proto::Cipso, 4_294_967_295),
];

// What is there once the first of them has gone and come again.
const STANDING: &[(Proto, u32)] = &[
    (Proto::Calipso, 9),
    (Proto::Cipso, 4_294_967_295),
    (Proto::Cipso, 9),
];

fn goes(rt: &impl Abort, table: &mut DoiTable) {
    assert!(rt; table.del(Proto::Calipso, 8).is_err());
    assert!(rt; table.del(Proto::Cipso, 9).is_ok());
    assert!(rt; table.find(Proto::Cipso, 9).is_none());
}

fn stands(rt: &impl Abort, table: &DoiTable, i: usize, name: (Proto, u32)) {
    assert!(rt; i < table.count());
    let (proto, doi, def) = table.entry(i);
    same(rt, i, (proto, doi), name);
    assert!(rt; def.levels_by_wire() == [(3, 1), (5, 0)].as_slice());
    assert!(rt; def.plan().levels.as_slice() == [(0, 5), (1, 3)].as_slice());
}

fn come_and_gone(rt: &impl Abort, alloc: Global) -> DoiTable {
    let plan = plan_of(rt, alloc, &[(0, 5), (1, 3)], &[(0, 1)]);
    let mut table = DoiTable::empty(alloc);
    for &name in CAME {
        answers(rt, &mut table, name, &plan, Ok(()));
    }
    goes(rt, &mut table);
    answers(rt, &mut table, (Proto::Cipso, 9), &plan, Ok(()));
    table.copy().expect(rt, "memory")
}

// Entries stay in order of insertion, also in a copy.
#[test]
fn keeps_the_order_of_insertion(rt: HostRuntime) {
    let copy = come_and_gone(&rt, rt.alloc());
    same(&rt, "count", copy.count(), 3);
    for (i, name) in STANDING.iter().enumerate() {
        stands(&rt, &copy, i, *name);
    }
}
