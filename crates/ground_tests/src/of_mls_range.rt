use crate::checks::{holds, same};
use mls_label::{Label, write_decimal};
use mls_range::TextKind::*;
use mls_range::*;
use std::alloc::Global;
use std::process::Abort;

/// A text, the octet of its first fault, and what is wrong there.
type Refused = (&'static str, usize, TextKind);

/// Where reading a label stops, or `None` where the text is one.
fn label_stop(text: &[u8]) -> Option<TextFault> {
    read_label(text).err()
}

/// Where reading a range stops, or `None` where the text is one.
fn range_stop(text: &[u8]) -> Option<TextFault> {
    read_range(text).err()
}

fn fault(octet: usize, kind: TextKind) -> Option<TextFault> {
    Some(TextFault { octet, kind })
}

fn append(rt: &impl Abort, text: &mut Vec<u8>, octets: &[u8]) {
    text.extend_from_slice(octets).expect(rt, "memory");
}

/// `s0:c0,c2,c4` and so on, with as many categories.
fn every_other(rt: &impl Abort, alloc: Global, count: u16) -> Vec<u8> {
    let mut text = Vec::new(alloc);
    append(rt, &mut text, b"s0");
    for i in 0..count {
        append(rt, &mut text, if i == 0 { b":c" } else { b",c" });
        write_decimal(2 * u64::from(i), &mut text).expect(rt, "memory");
    }
    text
}

/// What is a label, and the one form in which it is written.
const LABELS: &[(&str, &str)] = &[
    ("s0", "s0"),
    ("s255", "s255"),
    ("s2:c1,c3", "s2:c1,c3"),
    ("s0:c65534", "s0:c65534"),
    ("s0:c0.c65534", "s0:c0.c65534"),
    ("s0:c3,c1,c1.c2", "s0:c1.c3"),
    ("s0:c0.c1", "s0:c0,c1"),
    ("s1:c5,c4,c3,c2,c1,c0", "s1:c0.c5"),
    ("s0:c7,c7,c5.c9", "s0:c5.c9"),
    ("s0:c10.c12,c14,c13,c0", "s0:c0,c10.c14"),
    ("s9:c0.c2,c4.c5,c7", "s9:c0.c2,c4,c5,c7"),
];

fn reads_label(rt: &impl Abort, alloc: Global, text: &str, written: &str, lent: &mut Label) {
    let label = read_label(text.as_bytes()).expect(rt, text);
    same(rt, text, read_label_into(text.as_bytes(), lent), Ok(()));
    holds(rt, text, lent.same(&label));
    let mut out = Vec::new(alloc);
    out.push(b'>').expect(rt, "memory");
    write_label(&label, &mut out).expect(rt, text);
    same(rt, text, &out[1..], written.as_bytes());
}

#[test]
fn reads_labels_and_writes_their_one_form(rt: HostRuntime) {
    let mut lent = read_label(b"s200:c0.c30000").expect(&rt, "lent");
    for (text, written) in LABELS {
        reads_label(&rt, rt.alloc(), text, written, &mut lent);
    }
}

/// What is no label, and why.
const REFUSED_LABELS: &[Refused] = &[
    ("", 0, End),
    ("x", 0, Grammar),
    ("S0", 0, Grammar),
    (" s0", 0, Grammar),
    ("s", 1, End),
    ("sx", 1, Grammar),
    ("s:", 1, Grammar),
    ("s256", 3, Grammar),
    ("s300", 3, Grammar),
    ("s01", 2, Grammar),
    ("s00", 2, Grammar),
    ("s0x", 2, Grammar),
    ("s0 ", 2, Grammar),
    ("s0-s1", 2, Grammar),
    ("s0:", 3, End),
    ("s0:x", 3, Grammar),
    ("s0:,", 3, Grammar),
    ("s0:c", 4, End),
    ("s0:cx", 4, Grammar),
    ("s0:c65535", 8, Grammar),
    ("s0:c99999", 8, Grammar),
    ("s0:c655340", 9, Grammar),
    ("s0:c00", 5, Grammar),
    ("s0:c07", 5, Grammar),
    ("s0:c0x", 5, Grammar),
    ("s0:c1-s1", 5, Grammar),
    ("s0:c1,", 6, End),
    ("s0:c1,,", 6, Grammar),
    ("s0:c1,s0", 6, Grammar),
    ("s0:c1.", 6, End),
    ("s0:c1.2", 6, Grammar),
    ("s0:c65534.", 9, Grammar),
    ("s0:c1.c", 7, End),
    ("s0:c1.cx", 7, Grammar),
    ("s0:c1.c0", 7, Grammar),
    ("s2:c5.c5", 8, End),
    ("s2:c5.c5,c7", 8, Grammar),
    ("s2:c5.c4", 8, End),
    ("s0:c60000.c7", 11, Grammar),
    ("s0:c65533.c6553", 15, End),
    ("s0:c65533.c65533", 15, Grammar),
    ("s0:c1.c65535", 11, Grammar),
    ("s0:c1.c2.c3", 8, Grammar),
    ("s0:c1.c2-s1", 8, Grammar),
];

#[test]
fn refuses_labels_at_their_first_fault(rt: HostRuntime) {
    for (text, octet, kind) in REFUSED_LABELS {
        let found = label_stop(text.as_bytes());
        same(&rt, *text, found, fault(*octet, *kind));
    }
}

#[test]
fn refuses_a_category_of_many_digits(rt: HostRuntime) {
    let mut long = Vec::new(rt.alloc());
    append(&rt, &mut long, b"s0:c1");
    append(&rt, &mut long, &[b'0'; 300]);
    same(&rt, "300 zeros", label_stop(&long), fault(9, Grammar));
}

/// What is a range, and the one form in which it is written.
const RANGES: &[(&str, &str)] = &[
    ("s0", "s0"),
    ("s0-s2:c1,c3", "s0-s2:c1,c3"),
    ("s1:c0-s1:c0", "s1:c0"),
    ("s0:c1-s3:c0.c5", "s0:c1-s3:c0.c5"),
    ("s0:c2,c1-s0:c1.c2", "s0:c1,c2"),
];

fn reads_range(rt: &impl Abort, alloc: Global, text: &str, written: &str) {
    let range = read_range(text.as_bytes()).expect(rt, text);
    let mut out = Vec::new(alloc);
    write_range(&range, &mut out).expect(rt, text);
    write_range(&range.copy(), &mut out).expect(rt, text);
    let half = out.len() / 2;
    same(rt, ("it", text), &out[..half], written.as_bytes());
    same(rt, ("its copy", text), &out[half..], written.as_bytes());
}

#[test]
fn reads_ranges_and_writes_their_one_form(rt: HostRuntime) {
    for (text, written) in RANGES {
        reads_range(&rt, rt.alloc(), text, written);
    }
}

/// What is no range, and why.
const REFUSED_RANGES: &[Refused] = &[
    ("", 0, End),
    ("-", 0, Grammar),
    ("-s0", 0, Grammar),
    ("s", 1, End),
    ("s256-s0", 3, Grammar),
    ("s0--s1", 3, Grammar),
    ("s0-", 3, End),
    ("s0-x", 3, Grammar),
    ("s0-s", 4, End),
    ("s0-s256", 6, Grammar),
    ("s0-s1:c1,", 9, End),
    ("s0-s1-s2", 5, Grammar),
    ("s0-s1:c1-s2", 8, Grammar),
    ("s0:c1.-s1", 6, Grammar),
    ("s0:c5.c5-s1", 8, Grammar),
    ("s0:c5,-s1", 6, Grammar),
    ("s0-s1:c5.c5,c6", 11, Grammar),
    ("s3-s0", 3, NotOrdered),
    ("s0:c1-s0", 6, NotOrdered),
    ("s0:c1-s9:c2", 6, NotOrdered),
    ("s3-s0:", 6, End),
    ("s3-s0x", 5, Grammar),
];

#[test]
fn refuses_ranges_at_their_first_fault(rt: HostRuntime) {
    let mut lent = read_range(b"s1:c7-s2:c7,c9").expect(&rt, "lent");
    for (text, octet, kind) in REFUSED_RANGES {
        let wanted = fault(*octet, *kind);
        same(&rt, ("read", text), range_stop(text.as_bytes()), wanted);
        let stop = read_range_into(text.as_bytes(), &mut lent).err();
        same(&rt, ("lent", text), stop, wanted);
        holds(&rt, *text, lent.high().dominates(lent.low()));
    }
}

/// Where reading stops, of a label and of a range.
fn stops(text: &[u8]) -> (Option<TextFault>, Option<TextFault>) {
    (label_stop(text), range_stop(text))
}

#[test]
fn takes_1952_runs_and_no_more(rt: HostRuntime) {
    let mut text = every_other(&rt, rt.alloc(), 1952);
    let label = read_label(&text).expect(&rt, "1952 runs");
    same(&rt, "1952 runs", label.cats.runs(), 1952);

    let many = fault(text.len() + 1, TooManyRuns);
    append(&rt, &mut text, b",c3904");
    same(&rt, "one more", stops(&text), (many, many));

    // a later fault doesn't count, and a term without its end neither
    let whole = text.len();
    let other = fault(whole, Grammar);
    let end = fault(whole + 1, End);
    for (behind, wanted) in [
        (",x", (many, many)),
        ("-s0", (other, many)),
        ("x", (other, other)),
        (".", (end, end)),
    ] {
        append(&rt, &mut text, behind.as_bytes());
        same(&rt, behind, stops(&text), wanted);
        text.truncate(whole);
    }
}

#[test]
fn a_term_that_joins_two_runs_makes_room(rt: HostRuntime) {
    let mut text = every_other(&rt, rt.alloc(), 1952);
    append(&rt, &mut text, b",c1,c3904");
    same(&rt, "joined", label_stop(&text), None);
}

#[test]
fn counts_runs_in_the_high_label(rt: HostRuntime) {
    let mut text = Vec::new(rt.alloc());
    append(&rt, &mut text, b"s0-");
    append(&rt, &mut text, &every_other(&rt, rt.alloc(), 1953));
    let whole = text.len();
    let term = fault(whole.saturating_sub(5), TooManyRuns);
    same(&rt, "1953 runs", range_stop(&text), term);
    append(&rt, &mut text, b"-");
    same(&rt, "no label", range_stop(&text), fault(whole, Grammar));
}

/// Which labels a range from `s1:c1` to `s3:c0.c5` holds.
const HELD: &[(&str, bool)] = &[
    ("s1:c1", true),
    ("s3:c0.c5", true),
    ("s2:c1,c4", true),
    ("s0:c1", false),
    ("s2:c4", false),
    ("s4:c1", false),
    ("s2:c1,c6", false),
];

#[test]
fn holds_what_lies_between(rt: HostRuntime) {
    let range = read_range(b"s1:c1-s3:c0.c5").expect(&rt, "range");
    let found = (range.low().level, range.high().level);
    same(&rt, "levels", found, (1, 3));
    for (text, held) in HELD {
        let label = read_label(text.as_bytes()).expect(&rt, text);
        same(&rt, *text, range.holds(&label), *held);
    }
}

#[test]
fn keeps_ranges_with_ample_memory(rt: HostRuntime) {
    let high = read_label(b"s2:c1,c3").expect(&rt, "label");
    let mut range = Range::lowest();
    range.assign_ends(&Label::lowest(), &high);
    let kept = KeptRange::of(rt.alloc(), &range).expect(&rt, "kept");
    let copy = kept.copy(rt.alloc()).expect(&rt, "copy");
    let mut out = Vec::new(rt.alloc());
    write_range(copy.range(), &mut out).expect(&rt, "written");
    same(&rt, "kept", out.as_slice(), "s0-s2:c1,c3".as_bytes());
}
