use crate::checks::{holds, same};
use arrayvec::ArrayVec;
use cipso_tags::*;
use mls_label::{CatSet, Label, Tag, WireFault, WireKind};
use std::process::Abort;

const OCTET: WireKind = WireKind::Octet;

const END: WireKind = WireKind::End;

type Runs = &'static [(u16, u16)];

// Worked by hand from the bounds: a type that is none, a length below, above and odd, an alignment octet, each length
// cut short, each number out of its bounds on either side at its first and at its second octet, and both orders.
const FAULTS: &[(&[u8], usize, WireKind)] = &[
    (&[], 0, END),
    (&[0], 0, OCTET),
    (&[3], 0, OCTET),
    (&[4], 0, OCTET),
    (&[6], 0, OCTET),
    (&[255], 0, OCTET),
    // A bitmap: every octet may stand in it, so it can only end.
    (&[1], 1, END),
    (&[1, 3], 1, OCTET),
    (&[1, 35], 1, OCTET),
    (&[1, 4], 2, END),
    (&[1, 34], 2, END),
    (&[1, 5, 1], 2, OCTET),
    (&[1, 5, 0], 3, END),
    (&[1, 5, 0, 255], 4, END),
    (&[1, 6, 0, 2, 0x50], 5, END),
    // An enumeration: its length.
    (&[2], 1, END),
    (&[2, 2], 1, OCTET),
    (&[2, 3], 1, OCTET),
    (&[2, 5], 1, OCTET),
    (&[2, 35], 1, OCTET),
    (&[2, 36], 1, OCTET),
    (&[2, 34], 2, END),
    (&[2, 6, 1], 2, OCTET),
    (&[2, 6, 0], 3, END),
    (&[2, 6, 0, 9], 4, END),
    (&[2, 6, 0, 9, 0], 5, END),
    // One category, up to 65534.
    (&[2, 6, 0, 9, 0xff], 5, END),
    (&[2, 6, 0, 9, 0xff, 0xff], 5, OCTET),
    // The first of two is at most 65533, of three 65532, of fifteen 65520.
    (&[2, 8, 0, 9, 0xff, 0xfe], 5, OCTET),
    (&[2, 8, 0, 9, 0xff, 0xfd], 6, END),
    (&[2, 10, 0, 9, 0xff, 0xfd], 5, OCTET),
    (&[2, 10, 0, 9, 0xff, 0xfc], 6, END),
    (&[2, 34, 0, 9, 0xff, 0xf1], 5, OCTET),
    (&[2, 34, 0, 9, 0xff, 0xf0], 6, END),
    // The second is above the first and at most 65534.
    (&[2, 8, 0, 2, 0, 1, 0, 1], 7, OCTET),
    (&[2, 8, 0, 2, 0, 1, 0, 0], 7, OCTET),
    (&[2, 8, 0, 2, 0, 1, 1], 7, END),
    (&[2, 8, 0, 2, 1, 0, 0], 6, OCTET),
    (&[2, 8, 0, 2, 1, 0, 1, 0], 7, OCTET),
    (&[2, 8, 0, 2, 0, 255, 0], 6, OCTET),
    (&[2, 8, 0, 2, 0xff, 0xfd, 0xfe], 6, OCTET),
    (&[2, 8, 0, 2, 0xff, 0xfd, 0xff, 0xfd], 7, OCTET),
    (&[2, 8, 0, 2, 0xff, 0xfd, 0xff, 0xff], 7, OCTET),
    (&[2, 8, 0, 2, 0, 1, 0xff, 0xff], 7, OCTET),
    // Ranges: their length.
    (&[5], 1, END),
    (&[5, 2], 1, OCTET),
    (&[5, 3], 1, OCTET),
    (&[5, 7], 1, OCTET),
    (&[5, 33], 1, OCTET),
    (&[5, 34], 1, OCTET),
    (&[5, 32], 2, END),
    (&[5, 6, 1], 2, OCTET),
    (&[5, 6, 0], 3, END),
    (&[5, 6, 0, 1], 4, END),
    // One range without its bottom.
    (&[5, 6, 0, 1, 0xff], 5, END),
    (&[5, 6, 0, 1, 0xff, 0xff], 5, OCTET),
    // One whole range: the bottom is at most the top.
    (&[5, 8, 0, 1, 0xff, 0xff], 5, OCTET),
    (&[5, 8, 0, 1, 0, 9], 6, END),
    (&[5, 8, 0, 1, 0, 9, 0], 7, END),
    (&[5, 8, 0, 1, 0, 9, 1], 6, OCTET),
    (&[5, 8, 0, 1, 0, 9, 0, 10], 7, OCTET),
    (&[5, 8, 0, 1, 1, 0, 1, 1], 7, OCTET),
    // Two ranges, the second without its bottom: the first lies from 1 up, the second below it.
    (&[5, 10, 0, 1, 0, 0], 5, OCTET),
    (&[5, 10, 0, 1, 0, 9, 0, 0], 7, OCTET),
    (&[5, 10, 0, 1, 0, 9, 0, 1], 8, END),
    (&[5, 10, 0, 1, 0, 9, 0, 1, 0, 1], 9, OCTET),
    (&[5, 10, 0, 1, 0, 9, 0, 1, 1], 8, OCTET),
    (&[5, 10, 0, 1, 1, 0, 1, 0, 1], 8, OCTET),
    // Two whole ranges: descending, apart, and the second in order.
    (&[5, 12, 0, 1, 2, 0x58, 1, 0xf4, 1, 0xf4], 9, OCTET),
    (&[5, 12, 0, 1, 0, 9, 0, 5, 0, 20], 9, OCTET),
    (&[5, 12, 0, 1, 0, 9, 0, 5, 0, 3], 10, END),
    (&[5, 12, 0, 1, 0, 9, 0, 5, 0, 3, 0, 4], 11, OCTET),
    (&[5, 12, 0, 1, 0, 9, 0, 5, 0, 3, 1], 10, OCTET),
    // Seven ranges: six lie below the first, five below the second.
    (&[5, 32, 0, 1, 0, 5], 5, OCTET),
    (&[5, 30, 0, 1, 0, 5], 5, OCTET),
    (&[5, 32, 0, 1, 0, 6, 0, 5], 7, OCTET),
    (&[5, 32, 0, 1, 0, 6, 0, 6], 8, END),
    (&[5, 32, 0, 1, 0, 6, 0, 6, 0, 4], 9, OCTET),
    (&[5, 32, 0, 1, 0, 6, 0, 6, 0, 6], 9, OCTET),
    (&[5, 32, 0, 1, 0, 6, 0, 6, 0, 5], 10, END),
];

#[test]
fn each_fault_stands_at_its_octet(rt: HostRuntime) {
    for &(octets, octet, kind) in FAULTS {
        let fault = WireFault { octet, kind };
        same(&rt, octets, read_tag(octets).err(), Some(fault));
    }
}

fn has_runs(cats: &CatSet, runs: &[(u16, u16)]) -> bool {
    if cats.runs() != runs.len() {
        return false;
    }
    for (i, run) in runs.iter().enumerate() {
        if cats.run(i) != *run {
            return false;
        }
    }
    true
}

/// The octets of a tag, its type, level and runs, and the octets as it is written.
type Row = (&'static [u8], Tag, u8, Runs, &'static [u8]);

// Each of these is read whole, and written as the octets behind it, which are fewer where zero octets or a bottom of 0
// were there.
const TAGS: &[Row] = &[
    (&[1, 4, 0, 7], Tag::One, 7, &[], &[1, 4, 0, 7]),
    (
        &[1, 5, 0, 2, 0x50],
        Tag::One,
        2,
        &[(1, 1), (3, 3)],
        &[1, 5, 0, 2, 0x50],
    ),
    (
        &[1, 14, 0, 2, 0x50, 0, 0, 0, 0, 0, 0, 0, 0, 0],
        Tag::One,
        2,
        &[(1, 1), (3, 3)],
        &[1, 5, 0, 2, 0x50],
    ),
    (
        &[1, 6, 0, 255, 0x01, 0xff],
        Tag::One,
        255,
        &[(7, 15)],
        &[1, 6, 0, 255, 0x01, 0xff],
    ),
    (
        &[1, 5, 0, 0, 0xff],
        Tag::One,
        0,
        &[(0, 7)],
        &[1, 5, 0, 0, 0xff],
    ),
    (&[2, 4, 0, 0], Tag::Two, 0, &[], &[2, 4, 0, 0]),
    (
        &[2, 8, 0, 2, 0, 1, 1, 0x2c],
        Tag::Two,
        2,
        &[(1, 1), (300, 300)],
        &[2, 8, 0, 2, 0, 1, 1, 0x2c],
    ),
    (
        &[2, 8, 0, 2, 0, 0, 0, 1],
        Tag::Two,
        2,
        &[(0, 1)],
        &[2, 8, 0, 2, 0, 0, 0, 1],
    ),
    (
        &[2, 6, 0, 2, 0xff, 0xfe],
        Tag::Two,
        2,
        &[(65534, 65534)],
        &[2, 6, 0, 2, 0xff, 0xfe],
    ),
    (&[5, 4, 0, 7], Tag::Five, 7, &[], &[5, 4, 0, 7]),
    (
        &[5, 6, 0, 1, 0, 0],
        Tag::Five,
        1,
        &[(0, 0)],
        &[5, 6, 0, 1, 0, 0],
    ),
    (
        &[5, 8, 0, 1, 0, 0, 0, 0],
        Tag::Five,
        1,
        &[(0, 0)],
        &[5, 6, 0, 1, 0, 0],
    ),
    (
        &[5, 6, 0, 1, 0xff, 0xfe],
        Tag::Five,
        1,
        &[(0, 65534)],
        &[5, 6, 0, 1, 0xff, 0xfe],
    ),
    (
        &[5, 10, 0, 1, 2, 0x58, 1, 0xf4, 0, 100],
        Tag::Five,
        1,
        &[(0, 100), (500, 600)],
        &[5, 10, 0, 1, 2, 0x58, 1, 0xf4, 0, 100],
    ),
    (
        &[5, 12, 0, 1, 2, 0x58, 1, 0xf4, 0, 100, 0, 0],
        Tag::Five,
        1,
        &[(0, 100), (500, 600)],
        &[5, 10, 0, 1, 2, 0x58, 1, 0xf4, 0, 100],
    ),
    (
        &[5, 12, 0, 1, 0, 9, 0, 5, 0, 4, 0, 1],
        Tag::Five,
        1,
        &[(1, 9)],
        &[5, 8, 0, 1, 0, 9, 0, 1],
    ),
];

fn is_read_and_written(rt: &impl Abort, row: &Row) {
    let (octets, kind, level, runs, text) = *row;
    let (tag, label, length) = read_tag(octets).expect(rt, "a tag");
    let found = (length, tag, label.level);
    same(rt, octets, found, (octets.len(), kind, level));
    holds(rt, octets, has_runs(&label.cats, runs));
    assert!(rt; can_express(tag, &label), "{octets:?}");
    let mut out = ArrayVec::new();
    write_tag(tag, &label, &mut out);
    same(rt, octets, out.as_slice(), text);
}

#[test]
fn each_tag_is_read_and_written_again(rt: HostRuntime) {
    for row in TAGS {
        is_read_and_written(&rt, row);
    }
}

const FOLLOWED: &[(&[u8], usize)] = &[
    (&[1, 4, 0, 7, 1, 4], 4),
    (&[1, 5, 0, 2, 0x50, 0xff], 5),
    (&[2, 6, 0, 9, 0, 3, 0, 4], 6),
    (&[5, 6, 0, 1, 0, 9, 0, 4], 6),
];

// What stands behind a tag isn't its own.
#[test]
fn a_tag_ends_where_its_length_says(rt: HostRuntime) {
    for &(octets, ends) in FOLLOWED {
        let (_tag, _label, length) = read_tag(octets).expect(&rt, "a tag");
        same(&rt, octets, length, ends);
    }
}

fn label_of(rt: &impl Abort, runs: &[(u16, u16)]) -> Label {
    let mut label = Label::lowest();
    for (first, last) in runs {
        assert!(rt; first <= last && *last < 65535);
        label.cats.add_run(*first, *last).expect(rt, "room");
    }
    label
}

const SEVEN: Runs = &[(0, 0), (2, 2), (4, 4), (6, 6), (8, 8), (10, 10), (12, 12)];

const EIGHT: Runs = &[
    (0, 0),
    (2, 2),
    (4, 4),
    (6, 6),
    (8, 8),
    (10, 10),
    (12, 12),
    (14, 14),
];

// Worked by hand: the highest category of a bitmap, 15 categories, 7 runs, and one more of each.
const EXPRESSED: &[(Runs, bool, bool, bool)] = &[
    (&[], true, true, true),
    (&[(239, 239)], true, true, true),
    (&[(240, 240)], false, true, true),
    (&[(0, 14)], true, true, true),
    (&[(0, 15)], true, false, true),
    (&[(0, 300)], false, false, true),
    (SEVEN, true, true, true),
    (EIGHT, true, true, false),
];

/// Whether a tag of each type can express a label.
fn can_express_by(label: &Label) -> (bool, bool, bool) {
    let one = can_express(Tag::One, label);
    let two = can_express(Tag::Two, label);
    (one, two, can_express(Tag::Five, label))
}

#[test]
fn a_tag_expresses_what_it_has_room_for(rt: HostRuntime) {
    for &(runs, one, two, five) in EXPRESSED {
        let label = label_of(&rt, runs);
        same(&rt, runs, can_express_by(&label), (one, two, five));
    }
}
