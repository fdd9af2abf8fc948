ghost use Rattle.std.specs.Prelude.{◌<◌, ◌≤◌};

use crate::checks::{holds, same};
use arrayvec::ArrayVec;
use cipso_option::*;
use cipso_tags::can_express;
use mls_label::{CatSet, Label, Tag, WireFault, WireKind};
use std::process::Abort;

const OCTET: WireKind = WireKind::Octet;

const END: WireKind = WireKind::End;

/// What is no option, and its first fault: worked by hand from the bounds, for the option's own octets, and for the tag's counted
/// from the option's first.
const FAULTS: &[(&[u8], usize, WireKind)] = &[
    (&[], 0, END),
    (&[133], 0, OCTET),
    (&[135], 0, OCTET),
    (&[134], 1, END),
    (&[134, 9], 1, OCTET),
    (&[134, 41], 1, OCTET),
    (&[134, 10], 2, END),
    (&[134, 40], 2, END),
    // The DOI: only four zero octets are refused, at the last of them.
    (&[134, 10, 0], 3, END),
    (&[134, 10, 0, 0], 4, END),
    (&[134, 10, 0, 0, 0], 5, END),
    (&[134, 10, 0, 0, 0, 0], 5, OCTET),
    (&[134, 10, 0, 0, 0, 1], 6, END),
    (&[134, 10, 1, 0, 0, 0], 6, END),
    // A tag type that is none, or has no tag that fills the option.
    (&[134, 10, 0, 0, 0, 16, 0], 6, OCTET),
    (&[134, 10, 0, 0, 0, 16, 3], 6, OCTET),
    (&[134, 10, 0, 0, 0, 16, 4], 6, OCTET),
    (&[134, 10, 0, 0, 0, 16, 6], 6, OCTET),
    (&[134, 11, 0, 0, 0, 16, 2], 6, OCTET),
    (&[134, 11, 0, 0, 0, 16, 5], 6, OCTET),
    (&[134, 11, 0, 0, 0, 16, 1], 7, END),
    (&[134, 40, 0, 0, 0, 16, 5], 6, OCTET),
    (&[134, 39, 0, 0, 0, 16, 5], 6, OCTET),
    (&[134, 38, 0, 0, 0, 16, 5], 7, END),
    (&[134, 39, 0, 0, 0, 16, 2], 6, OCTET),
    (&[134, 40, 0, 0, 0, 16, 2], 7, END),
    (&[134, 40, 0, 0, 0, 16, 1], 7, END),
    // The tag's length is what the option's leaves.
    (&[134, 11, 0, 0, 0, 16, 1, 4], 7, OCTET),
    (&[134, 11, 0, 0, 0, 16, 1, 6], 7, OCTET),
    (&[134, 12, 0, 0, 0, 16, 2, 8], 7, OCTET),
    (&[134, 11, 0, 0, 0, 16, 1, 5], 8, END),
    (&[134, 11, 0, 0, 0, 16, 1, 5, 1], 8, OCTET),
    (&[134, 11, 0, 0, 0, 16, 1, 5, 0], 9, END),
    (&[134, 11, 0, 0, 0, 16, 1, 5, 0, 2], 10, END),
    // Faults of the tag.
    (&[134, 14, 0, 0, 0, 16, 2, 8, 0, 2, 0, 1, 0, 1], 13, OCTET),
    (&[134, 14, 0, 0, 0, 16, 2, 8, 0, 2, 0, 1, 1], 13, END),
    (&[134, 14, 0, 0, 0, 16, 2, 8, 0, 2, 1, 0, 0, 1], 12, OCTET),
    (
        &[134, 16, 0, 0, 0, 16, 5, 10, 0, 1, 2, 0x58, 1, 0xf4, 1, 0xf4],
        15,
        OCTET,
    ),
    (
        &[134, 16, 0, 0, 0, 16, 5, 10, 0, 1, 2, 0x58, 1, 0xf4, 2, 0],
        14,
        OCTET,
    ),
    (&[134, 12, 0, 0, 0, 16, 5, 6, 0, 0, 0xff], 11, END),
    (&[134, 12, 0, 0, 0, 16, 5, 6, 0, 0, 0xff, 0xff], 11, OCTET),
    (&[134, 10, 0, 0, 0, 16, 5, 4, 0], 9, END),
];

#[test]
fn each_fault_stands_at_its_octet(rt: HostRuntime) {
    for &(octets, octet, kind) in FAULTS {
        let fault = WireFault { octet, kind };
        same(&rt, octets, read_cipso(octets).err(), Some(fault));
    }
}

fn has_runs(cats: &CatSet, runs: &[(u16, u16)]) -> bool {
    if cats.runs() != runs.len() {
        return false;
    }
    for (i, run) in runs.iter().enumerate() {
        if cats.run(i) != *run {
            return false;
        }
    }
    true
}

const HIGHEST: [u8; 40] = [
    134, 40, 0, 0, 0, 1, 1, 34, 0, 0, 0, 0, 0, 0, 0, 0, 0, 0, 0, 0, 0, 0, 0, 0, 0, 0, 0, 0, 0, 0,
    0, 0, 0, 0, 0, 0, 0, 0, 0, 1,
];

const RANGES: &[u8] = &[134, 16, 0, 0, 0, 16, 5, 10, 0, 1, 2, 0x58, 1, 0xf4, 0, 100];

/// The octets of an option, its DOI, tag, level and runs, and the octets as it is written.
type Row = (
    &'static [u8],
    u32,
    Tag,
    u8,
    &'static [(u16, u16)],
    &'static [u8],
);

const OPTIONS: &[Row] = &[
    (
        &[134, 10, 0, 0, 0, 16, 5, 4, 0, 7],
        16,
        Tag::Five,
        7,
        &[],
        &[134, 10, 0, 0, 0, 16, 5, 4, 0, 7],
    ),
    (
        &[134, 14, 0, 0, 0, 16, 2, 8, 0, 2, 0, 1, 1, 0x2c],
        16,
        Tag::Two,
        2,
        &[(1, 1), (300, 300)],
        &[134, 14, 0, 0, 0, 16, 2, 8, 0, 2, 0, 1, 1, 0x2c],
    ),
    (RANGES, 16, Tag::Five, 1, &[(0, 100), (500, 600)], RANGES),
    (
        &[
            134, 18, 0, 0, 0, 16, 5, 12, 0, 1, 2, 0x58, 1, 0xf4, 0, 100, 0, 0,
        ],
        16,
        Tag::Five,
        1,
        &[(0, 100), (500, 600)],
        RANGES,
    ),
    (
        &[134, 16, 0, 0, 0, 16, 5, 10, 0, 1, 2, 0x58, 1, 0xf4, 1, 0xf3],
        16,
        Tag::Five,
        1,
        &[(0, 600)],
        &[134, 12, 0, 0, 0, 16, 5, 6, 0, 1, 2, 0x58],
    ),
    (
        &[
            134, 20, 0, 0, 0, 16, 1, 14, 0, 2, 0x50, 0, 0, 0, 0, 0, 0, 0, 0, 0,
        ],
        16,
        Tag::One,
        2,
        &[(1, 1), (3, 3)],
        &[134, 11, 0, 0, 0, 16, 1, 5, 0, 2, 0x50],
    ),
    (&HIGHEST, 1, Tag::One, 0, &[(239, 239)], &HIGHEST),
    (
        &[134, 10, 0xff, 0xfe, 0xfd, 0xfc, 1, 4, 0, 255],
        0xfffe_fdfc,
        Tag::One,
        255,
        &[],
        &[134, 10, 0xff, 0xfe, 0xfd, 0xfc, 1, 4, 0, 255],
    ),
];

fn is_read_and_written(rt: &impl Abort, row: &Row) {
    let (octets, doi, tag, level, runs, text) = *row;
    let (cipso, length) = read_cipso(octets).expect(rt, "an option");
    let found = (length, cipso.doi, cipso.tag, cipso.label.level);
    same(rt, octets, found, (octets.len(), doi, tag, level));
    holds(rt, octets, has_runs(&cipso.label.cats, runs));
    assert!(rt; doi > 0 && can_express(tag, &cipso.label), "{octets:?}");
    let mut out = ArrayVec::new();
    write_cipso(doi, tag, &cipso.label, &mut out);
    same(rt, octets, out.as_slice(), text);
}

// Each of these is read, and written as the octets behind it.
#[test]
fn each_option_is_read_and_written_again(rt: HostRuntime) {
    for row in OPTIONS {
        is_read_and_written(&rt, row);
    }
}

fn label_of(rt: &impl Abort, first: u16, last: u16) -> Label
    requires order { first ≤ last }
    requires categories { last < 65535 }
{
    let mut cats = CatSet::empty();
    cats.add_run(first, last).expect(rt, "room");
    Label { level: 0, cats }
}

#[test]
fn the_first_tag_that_can_express_a_label_is_taken(rt: HostRuntime) {
    let one: &[Tag] = &[Tag::One, Tag::Two];
    let two: &[Tag] = &[Tag::Two, Tag::One];
    let all: &[Tag] = &[Tag::One, Tag::Two, Tag::Five];
    let highest = label_of(&rt, 239, 239);
    same(&rt, "239, two", first_tag(two, &highest), Some(Tag::Two));
    same(&rt, "239, one", first_tag(one, &highest), Some(Tag::One));
    let higher = label_of(&rt, 240, 240);
    same(&rt, "240, one alone", first_tag(&[Tag::One], &higher), None);
    same(&rt, "240, one", first_tag(one, &higher), Some(Tag::Two));
    same(&rt, "240, none", first_tag(&[], &higher), None);
    let many = label_of(&rt, 0, 300);
    same(&rt, "301, all", first_tag(all, &many), Some(Tag::Five));
    same(&rt, "301, one", first_tag(one, &many), None);
}
