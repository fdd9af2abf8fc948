//! Values, read and written again.

use crate::checks::same;
use mls_label::{Label, Tag};
use script_lines::*;
use std::alloc::Global;
use std::process::Abort;

/// Texts of DOIs, and their numbers.
const DOIS: &[(&str, Option<u32>)] = &[
    ("1", Some(1)),
    ("4294967295", Some(4294967295)),
    ("0", None),
    ("01", None),
    ("+1", None),
    ("", None),
    ("4294967296", None),
];

/// Texts of pairs of levels, and whether they are that.
const LEVELS: &[(&str, bool)] = &[
    ("0=0", true),
    ("255=0,0=255,7=7", true),
    ("", false),
    ("0=0,", false),
    (",0=0", false),
    ("0=256", false),
    ("0", false),
    ("0=0=0", false),
    ("00=0", false),
];

/// Texts of static entries' ranges, and how they are written.
const STATICS: &[(&str, &str)] = &[
    ("s1", "s1"),
    ("s1-s2:c1", "s1-s2:c1"),
    ("u:r:t:s1:c2,c1", "s1:c1,c2"),
    ("s0:c1:x:s5", "s5"),
    ("u:r:t:s2-s2", "s2"),
];

/// Texts of receivers' levels, and how they are written.
const LEVELS_OF_RECEIVERS: &[(&str, &str)] = &[
    ("s1:c1", "s1:c1"),
    ("s0-s1:c1", "s1:c1"),
    ("s1-s1", "s1-s1"),
    ("s0:c0-s0:c0", "s0:c0-s0:c0"),
];

/// Texts of protocols, and how they are written.
const PROTOCOLS: &[(&str, &str)] = &[
    ("unlbl", "unlbl"),
    ("cipso,8", "cipsov4,8"),
    ("cipsov4,8", "cipsov4,8"),
    ("calipso,4294967295", "calipso,4294967295"),
];

/// Texts of no protocols.
const NO_PROTOCOLS: &[&str] = &[
    "",
    "unlbl,1",
    "cipsov4",
    "cipsov4,0",
    "calipso,1,",
    "ripso,1",
];

#[test]
fn reads_dois(rt: HostRuntime) {
    for &(text, wanted) in DOIS {
        let found = read_doi(text.as_bytes()).map(|doi| doi.get());
        same(&rt, text, found, wanted);
    }
}

fn writes_levels(rt: &impl Abort, alloc: Global, text: &str, pairs: &LevelPairs) {
    let copy = pairs.copy().expect(rt, "memory");
    let mut out = Vec::new(alloc);
    copy.write(&mut out).expect(rt, "memory");
    same(rt, text, out.as_slice(), text.as_bytes());
}

fn reads_levels(rt: &impl Abort, alloc: Global, text: &str, is_list: bool) {
    let read = LevelPairs::read(alloc, text.as_bytes()).expect(rt, "memory");
    same(rt, text, read.is_some(), is_list);
    if let Some(pairs) = &read {
        writes_levels(rt, alloc, text, pairs);
    }
}

#[test]
fn reads_and_writes_lists(rt: HostRuntime) {
    for &(text, is_list) in LEVELS {
        reads_levels(&rt, rt.alloc(), text, is_list);
    }
}

fn tags(rt: &impl Abort, alloc: Global, text: &[u8]) -> Option<Tags> {
    Tags::read(alloc, text).expect(rt, "memory")
}

#[test]
fn reads_tags(rt: HostRuntime) {
    let read = tags(&rt, rt.alloc(), b"2,1,5,5,1").expect(&rt, "tags");
    let wanted = [Tag::Two, Tag::One, Tag::Five, Tag::Five, Tag::One];
    assert_eq!(rt; read.as_slice(), wanted.as_slice());
}

#[test]
fn refuses_what_is_no_list_of_tags(rt: HostRuntime) {
    assert!(rt; tags(&rt, rt.alloc(), b"1,1,1,1,1,1").is_none());
    assert!(rt; tags(&rt, rt.alloc(), b"1,3").is_none());
}

fn writes_static(rt: &impl Abort, alloc: Global, text: &str, form: &str) {
    let read = read_static_range(alloc, text.as_bytes()).expect(rt, "memory");
    let kept = read.expect(rt, text);
    let mut out = Vec::new(alloc);
    write_static_range(kept.range(), &mut out).expect(rt, "memory");
    same(rt, text, out.as_slice(), form.as_bytes());
}

fn writes_level(rt: &impl Abort, alloc: Global, text: &str, form: &str) {
    let read = read_receiver_range(alloc, text.as_bytes()).expect(rt, "memory");
    let kept = read.expect(rt, text);
    let mut out = Vec::new(alloc);
    write_receiver_range(kept.range(), &mut out).expect(rt, "memory");
    same(rt, text, out.as_slice(), form.as_bytes());
}

#[test]
fn reads_and_writes_ranges(rt: HostRuntime) {
    for &(text, form) in STATICS {
        writes_static(&rt, rt.alloc(), text, form);
    }
    for &(text, form) in LEVELS_OF_RECEIVERS {
        writes_level(&rt, rt.alloc(), text, form);
    }
}

#[test]
fn begins_receivers_ranges_at_the_lowest_label(rt: HostRuntime) {
    let read = read_receiver_range(rt.alloc(), b"s2").expect(&rt, "memory");
    let kept = read.expect(&rt, "level");
    assert!(rt; kept.range().low().same(&Label::lowest()));
}

#[test]
fn refuses_what_is_no_range(rt: HostRuntime) {
    let context = read_receiver_range(rt.alloc(), b"u:r:t:s2").expect(&rt, "memory");
    assert!(rt; context.is_none());
    let unordered = read_static_range(rt.alloc(), b"u:r:t:s2-s1").expect(&rt, "memory");
    assert!(rt; unordered.is_none());
}

fn writes_protocol(rt: &impl Abort, alloc: Global, text: &str, form: &str) {
    let protocol = read_map_protocol(text.as_bytes()).expect(rt, text);
    let mut out = Vec::new(alloc);
    write_map_protocol(&protocol, &mut out).expect(rt, "memory");
    same(rt, text, out.as_slice(), form.as_bytes());
}

#[test]
fn reads_and_writes_protocols(rt: HostRuntime) {
    for &(text, form) in PROTOCOLS {
        writes_protocol(&rt, rt.alloc(), text, form);
    }
    for &text in NO_PROTOCOLS {
        same(
            &rt,
            text,
            read_map_protocol(text.as_bytes()).is_none(),
            true,
        );
    }
}

#[test]
fn reads_addresses_of_each_version(rt: HostRuntime) {
    assert_eq!(rt; read_four(b"10.0.0.1"), Some([10, 0, 0, 1]));
    assert!(rt; read_four(b"::1").is_none() && read_six(b"10.0.0.1").is_none());
    assert!(rt; read_six(b"::1").is_some());
}
