//! Worked packets and options, and one step either side of each border: of rooms, runs, categories, levels, DOIs and tags.

use super::*;
use std::test::Fail;
use worked_values::octets_of;
use worked_values::packets::{
    ALERT_6, BEHIND_4, BITMAP_8, BITMAP_16, CALIPSO_9, CUT_4, LABELLED_4, LIST_10, MISALIGNED_4,
    PLAIN_4, PLAIN_6, WRONG_SUM_4,
};

const DONE: u32 = 0;

const BAD_HEADER: u32 = 1;

const BAD_OPTION: u32 = 2;

const NO_ROOM: u32 = 3;

const BAD_RUNS: u32 = 4;

const BAD_DOI: u32 = 5;

const BAD_TAG: u32 = 6;

const INEXPRESSIBLE: u32 = 7;

/// What buffers hold before a call: nothing that a call puts there.
const EMPTY_RUN: NetlabelRun = NetlabelRun { first: 9, last: 8 };

const EMPTY_OCTET: u8 = 0xee;

const EMPTY_LABEL: NetlabelLabel = NetlabelLabel {
    octet: 77,
    length: 77,
    runs: 77,
    doi: 77,
    kind: 77,
    tag: 77,
    level: 77,
};

fn label(octet: usize, doi: u32, kind: u8, tag: u8, level: u8, runs: usize) -> NetlabelLabel {
    NetlabelLabel {
        octet,
        length: 0,
        runs,
        doi,
        kind,
        tag,
        level,
    }
}

fn fault(octet: usize) -> NetlabelLabel {
    label(octet, 0, 0, 0, 0, 0)
}

fn run(first: u16, last: u16) -> NetlabelRun {
    NetlabelRun { first, last }
}

/// What a buffer holds that has these runs in front.
fn runs_in(items: &[NetlabelRun]) -> [NetlabelRun; 3] {
    let mut buffer = [EMPTY_RUN; 3];
    for (place, item) in items.iter().enumerate() {
        if place < 3 {
            buffer[place] = *item;
        }
    }
    buffer
}

/// What a buffer holds that has these octets in front.
fn octets_in(items: &[u8]) -> [u8; 41] {
    let mut buffer = [EMPTY_OCTET; 41];
    for (place, item) in items.iter().enumerate() {
        if place < 41 {
            buffer[place] = *item;
        }
    }
    buffer
}

/// Status, struct and buffer of a call that reads.
type Told = (u32, NetlabelLabel, [NetlabelRun; 3]);

/// Status, length and buffer of a call that writes.
type Written = (u32, usize, [u8; 41]);

fn packet_told(octets: &[u8], room: usize) -> Told {
    let mut runs = [EMPTY_RUN; 3];
    let mut said = EMPTY_LABEL;
    let status = netlabel_read_packet(octets, &mut runs[..room.min(3)], &mut said);
    (status, said, runs)
}

fn cipso_told(octets: &[u8]) -> Told {
    let mut runs = [EMPTY_RUN; 3];
    let mut said = EMPTY_LABEL;
    let status = netlabel_read_cipso(octets, &mut runs, &mut said);
    (status, said, runs)
}

fn calipso_told(octets: &[u8]) -> Told {
    let mut runs = [EMPTY_RUN; 3];
    let mut said = EMPTY_LABEL;
    let status = netlabel_read_calipso(octets, &mut runs, &mut said);
    (status, said, runs)
}

fn cipso_written(doi: u32, tag: u8, level: u8, runs: &[NetlabelRun], room: usize) -> Written {
    let mut out = [EMPTY_OCTET; 41];
    let mut length = 77;
    let buffer = &mut out[..room.min(41)];
    let status = netlabel_write_cipso(doi, tag, level, runs, buffer, &mut length);
    (status, length, out)
}

fn calipso_written(doi: u32, level: u8, runs: &[NetlabelRun], room: usize) -> Written {
    let mut out = [EMPTY_OCTET; 41];
    let mut length = 77;
    let buffer = &mut out[..room.min(41)];
    let status = netlabel_write_calipso(doi, level, runs, buffer, &mut length);
    (status, length, out)
}

#[test]
fn packets_are_told(rt: HostRuntime) -> Result<(), Fail> {
    let pair = [run(1, 1), run(3, 3)];
    let list = [run(4, 5)];
    let cases: [(&str, u32, NetlabelLabel, &[NetlabelRun]); 12] = [
        (PLAIN_4, DONE, fault(0), &[]),
        (BITMAP_16, DONE, label(20, 16, 1, 1, 2, 2), &pair),
        (BITMAP_8, DONE, label(20, 8, 1, 1, 2, 2), &pair),
        (LIST_10, DONE, label(20, 10, 1, 2, 12, 1), &list),
        (LABELLED_4, DONE, label(20, 16, 1, 1, 2, 2), &pair),
        (BEHIND_4, DONE, label(21, 16, 1, 1, 2, 2), &pair),
        (WRONG_SUM_4, BAD_HEADER, fault(10), &[]),
        (CUT_4, BAD_HEADER, fault(2), &[]),
        (MISALIGNED_4, BAD_OPTION, fault(28), &[]),
        (PLAIN_6, DONE, fault(0), &[]),
        (CALIPSO_9, DONE, label(42, 9, 2, 0, 2, 2), &pair),
        (ALERT_6, DONE, fault(0), &[]),
    ];
    for (digits, status, told, wanted) in cases {
        let octets = octets_of(rt.alloc(), digits)?;
        assert_eq!(rt;
            packet_told(&octets, 3),
            (status, told, runs_in(wanted)),
            "{digits}"
        );
    }
    Ok(())
}

// A buffer of one run less than there are, of as many, and of one more.
#[test]
fn runs_are_told_whole_or_not_at_all(rt: HostRuntime) -> Result<(), Fail> {
    let octets = octets_of(rt.alloc(), BITMAP_16)?;
    let told = label(20, 16, 1, 1, 2, 2);
    for (room, status, wanted) in [
        (0, NO_ROOM, runs_in(&[])),
        (1, NO_ROOM, runs_in(&[])),
        (2, DONE, runs_in(PAIR)),
        (3, DONE, runs_in(PAIR)),
    ] {
        assert_eq!(rt;
            packet_told(&octets, room),
            (status, told, wanted),
            "at {room}"
        );
    }
    Ok(())
}

/// An option, its length, DOI, tag, level and runs, and the option that is written of them.
type Row = (
    &'static [u8],
    usize,
    u32,
    u8,
    u8,
    &'static [NetlabelRun],
    &'static [u8],
);

const HIGHEST: [u8; 40] = [
    134, 40, 0, 0, 0, 1, 1, 34, 0, 0, 0, 0, 0, 0, 0, 0, 0, 0, 0, 0, 0, 0, 0, 0, 0, 0, 0, 0, 0, 0,
    0, 0, 0, 0, 0, 0, 0, 0, 0, 1,
];

const EMPTY: &[u8] = &[134, 10, 0, 0, 0, 16, 5, 4, 0, 7];

const LIST: &[u8] = &[134, 14, 0, 0, 0, 16, 2, 8, 0, 2, 0, 1, 0xff, 0xfe];

const RANGES: &[u8] = &[134, 16, 0, 0, 0, 16, 5, 10, 0, 1, 2, 0x58, 1, 0xf4, 0, 100];

const PLAIN: &[u8] = &[134, 10, 0xff, 0xfe, 0xfd, 0xfc, 1, 4, 0, 255];

const ENDS: &[NetlabelRun] = &[
    NetlabelRun { first: 1, last: 1 },
    NetlabelRun {
        first: 65534,
        last: 65534,
    },
];

const TWO_RUNS: &[NetlabelRun] = &[
    NetlabelRun {
        first: 0,
        last: 100,
    },
    NetlabelRun {
        first: 500,
        last: 600,
    },
];

const PAIR: &[NetlabelRun] = &[
    NetlabelRun { first: 1, last: 1 },
    NetlabelRun { first: 3, last: 3 },
];

const LAST: &[NetlabelRun] = &[NetlabelRun {
    first: 239,
    last: 239,
}];

const CIPSO_OPTIONS: [Row; 7] = [
    (EMPTY, 10, 16, 5, 7, &[], EMPTY),
    (LIST, 14, 16, 2, 2, ENDS, LIST),
    (RANGES, 16, 16, 5, 1, TWO_RUNS, RANGES),
    (
        &[
            134, 18, 0, 0, 0, 16, 5, 12, 0, 1, 2, 0x58, 1, 0xf4, 0, 100, 0, 0,
        ],
        18,
        16,
        5,
        1,
        TWO_RUNS,
        RANGES,
    ),
    (
        &[
            134, 20, 0, 0, 0, 16, 1, 14, 0, 2, 0x50, 0, 0, 0, 0, 0, 0, 0, 0, 0, 9,
        ],
        20,
        16,
        1,
        2,
        PAIR,
        &[134, 11, 0, 0, 0, 16, 1, 5, 0, 2, 0x50],
    ),
    (&HIGHEST, 40, 1, 1, 0, LAST, &HIGHEST),
    (PLAIN, 10, 0xfffe_fdfc, 1, 255, &[], PLAIN),
];

#[test]
fn cipso_options_are_told_and_written(rt: HostRuntime) {
    for (octets, length, doi, tag, level, runs, text) in CIPSO_OPTIONS {
        let mut told = label(0, doi, 1, tag, level, runs.len());
        told.length = length;
        assert_eq!(rt;
            cipso_told(octets),
            (DONE, told, runs_in(runs)),
            "{octets:?}"
        );
        let written = (DONE, text.len(), octets_in(text));
        assert_eq!(rt;
            cipso_written(doi, tag, level, runs, 41),
            written,
            "{octets:?}"
        );
    }
}

/// DOI 16, level 2, no category.
const CALIPSO_EMPTY: &[u8] = &[7, 8, 0, 0, 0, 16, 0, 2, 0xbf, 0xd9];

/// DOI 16, level 2, categories 1 and 3.
const CALIPSO_PAIR: &[u8] = &[7, 12, 0, 0, 0, 16, 1, 2, 0xb7, 0x7e, 0x50, 0, 0, 0];

const CALIPSO_WIDE: &[u8] = &[
    7, 16, 255, 255, 255, 255, 2, 255, 0xe4, 0x2a, 0, 0, 0, 1, 0x80, 0, 0, 0,
];

const WIDE: &[NetlabelRun] = &[NetlabelRun {
    first: 31,
    last: 32,
}];

const CALIPSO_OPTIONS: [Row; 4] = [
    (CALIPSO_EMPTY, 10, 16, 0, 2, &[], CALIPSO_EMPTY),
    (CALIPSO_PAIR, 14, 16, 0, 2, PAIR, CALIPSO_PAIR),
    (CALIPSO_WIDE, 18, 0xffff_ffff, 0, 255, WIDE, CALIPSO_WIDE),
    (
        &[
            7, 16, 0, 0, 0, 16, 2, 2, 0xeb, 0x15, 0x50, 0, 0, 0, 0, 0, 0, 0, 1, 2,
        ],
        18,
        16,
        0,
        2,
        PAIR,
        CALIPSO_PAIR,
    ),
];

#[test]
fn calipso_options_are_told_and_written(rt: HostRuntime) {
    for (octets, length, doi, tag, level, runs, text) in CALIPSO_OPTIONS {
        let mut told = label(0, doi, 2, tag, level, runs.len());
        told.length = length;
        assert_eq!(rt;
            calipso_told(octets),
            (DONE, told, runs_in(runs)),
            "{octets:?}"
        );
        let written = (DONE, text.len(), octets_in(text));
        assert_eq!(rt;
            calipso_written(doi, level, runs, 41),
            written,
            "{octets:?}"
        );
    }
}

/// Octets that begin with no option, and the octet at fault.
type Faulty = (&'static [u8], usize);

const CIPSO_FAULTS: [Faulty; 8] = [
    (&[], 0),
    (&[133], 0),
    (&[134, 10, 0, 0, 0, 0], 5),
    (&[134, 11, 0, 0, 0, 16, 2], 6),
    (&[134, 11, 0, 0, 0, 16, 1, 5, 1], 8),
    (&[134, 11, 0, 0, 0, 16, 1, 5, 0, 2], 10),
    (&[134, 14, 0, 0, 0, 16, 2, 8, 0, 2, 0, 1, 0, 1], 13),
    (&[134, 12, 0, 0, 0, 16, 5, 6, 0, 0, 0xff, 0xff], 11),
];

/// The checksum's fault comes last.
const CALIPSO_FAULTS: [Faulty; 7] = [
    (&[], 0),
    (&[6], 0),
    (&[7, 9], 1),
    (&[7, 8, 0, 0, 0, 0], 5),
    (&[7, 12, 0, 0, 0, 16, 0], 6),
    (&[7, 8, 0, 0, 0, 16, 0, 3, 0xbf], 9),
    (&[7, 8, 0, 0, 0, 16, 0, 3, 0xbf, 0xd9], 8),
];

#[test]
fn faults_of_options_are_told(rt: HostRuntime) {
    for (octets, octet) in CIPSO_FAULTS {
        let wanted = (BAD_OPTION, fault(octet), runs_in(&[]));
        assert_eq!(rt; cipso_told(octets), wanted, "{octets:?}");
    }
    for (octets, octet) in CALIPSO_FAULTS {
        let wanted = (BAD_OPTION, fault(octet), runs_in(&[]));
        assert_eq!(rt; calipso_told(octets), wanted, "{octets:?}");
    }
}

// An option of 14 octets, in a buffer of one octet less, of as many, and of one more.
#[test]
fn options_are_written_whole_or_not_at_all(rt: HostRuntime) {
    for (room, status, out) in [
        (0, NO_ROOM, octets_in(&[])),
        (13, NO_ROOM, octets_in(&[])),
        (14, DONE, octets_in(CALIPSO_PAIR)),
        (15, DONE, octets_in(CALIPSO_PAIR)),
    ] {
        assert_eq!(rt;
            calipso_written(16, 2, PAIR, room),
            (status, 14, out),
            "at {room}"
        );
    }
}

/// First and last of runs.
type Pairs = &'static [(u16, u16)];

const SEVEN: Pairs = &[
    (0, 1),
    (3, 3),
    (5, 5),
    (7, 7),
    (9, 9),
    (11, 11),
    (13, 65534),
];

const EIGHT: Pairs = &[
    (0, 1),
    (3, 3),
    (5, 5),
    (7, 7),
    (9, 9),
    (11, 11),
    (13, 13),
    (15, 15),
];

/// Side by side they are one maximal run.
const ONE_OF_EIGHT: Pairs = &[
    (0, 1),
    (2, 2),
    (3, 3),
    (4, 4),
    (5, 5),
    (6, 6),
    (7, 7),
    (8, 8),
];

/// DOI, tag and runs, and status and length of a CIPSO option of level 0. Where two causes hold, the first is told; the room is too small for any option.
const CIPSO_ASKED: [(u32, u8, Pairs, u32, usize); 28] = [
    (1, 1, &[(0, 239)], NO_ROOM, 40),
    (1, 1, &[(240, 240)], INEXPRESSIBLE, 0),
    (1, 2, &[(0, 14)], NO_ROOM, 40),
    (1, 2, &[(0, 15)], INEXPRESSIBLE, 0),
    (1, 2, &[(65534, 65534)], NO_ROOM, 12),
    (1, 5, SEVEN, NO_ROOM, 36),
    (1, 5, EIGHT, INEXPRESSIBLE, 0),
    (1, 5, ONE_OF_EIGHT, NO_ROOM, 12),
    (1, 5, &[(0, 65534)], NO_ROOM, 12),
    (1, 5, &[(0, 65535)], BAD_RUNS, 0),
    (1, 5, &[(65535, 65535)], BAD_RUNS, 0),
    (1, 5, &[(2, 1)], BAD_RUNS, 0),
    (1, 5, &[(1, 2), (2, 3)], BAD_RUNS, 0),
    (1, 5, &[(1, 2), (3, 3)], NO_ROOM, 14),
    (1, 5, &[(3, 3), (1, 2)], BAD_RUNS, 0),
    (1, 5, &[(1, 1), (1, 1)], BAD_RUNS, 0),
    (1, 5, &[(1, 1), (3, 2)], BAD_RUNS, 0),
    (1, 0, &[], BAD_TAG, 0),
    (1, 1, &[], NO_ROOM, 10),
    (1, 2, &[], NO_ROOM, 10),
    (1, 3, &[], BAD_TAG, 0),
    (1, 4, &[], BAD_TAG, 0),
    (1, 5, &[], NO_ROOM, 10),
    (1, 6, &[], BAD_TAG, 0),
    (0, 1, &[], BAD_DOI, 0),
    (0xffff_ffff, 1, &[], NO_ROOM, 10),
    (0, 9, &[(2, 1)], BAD_RUNS, 0),
    (0, 9, &[(240, 240)], BAD_DOI, 0),
];

const CALIPSO_ASKED: [(u32, Pairs, u32, usize); 6] = [
    (16, &[(0, 1951)], NO_ROOM, 254),
    (16, &[(1952, 1952)], INEXPRESSIBLE, 0),
    (16, &[(65534, 65534)], INEXPRESSIBLE, 0),
    (16, &[(0, 65535)], BAD_RUNS, 0),
    (0, &[(1952, 1952)], BAD_DOI, 0),
    (0, &[(1, 0)], BAD_RUNS, 0),
];

fn runs_of(pairs: &[(u16, u16)]) -> [NetlabelRun; 8] {
    let mut runs = [EMPTY_RUN; 8];
    for (place, (first, last)) in pairs.iter().enumerate() {
        if place < 8 {
            runs[place] = run(*first, *last);
        }
    }
    runs
}

#[test]
fn the_first_cause_is_told(rt: HostRuntime) {
    for (doi, tag, pairs, status, length) in CIPSO_ASKED {
        let runs = &runs_of(pairs)[..pairs.len().min(8)];
        let wanted = (status, length, octets_in(&[]));
        assert_eq!(rt;
            cipso_written(doi, tag, 0, runs, 9),
            wanted,
            "{doi} {tag} {pairs:?}"
        );
    }
    for (doi, pairs, status, length) in CALIPSO_ASKED {
        let runs = &runs_of(pairs)[..pairs.len().min(8)];
        let wanted = (status, length, octets_in(&[]));
        assert_eq!(rt; calipso_written(doi, 0, runs, 9), wanted, "{doi} {pairs:?}");
    }
}
