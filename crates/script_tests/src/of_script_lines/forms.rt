//! Faults of lines of each form, and readings.

use super::said_by;
use crate::checks::same;
use script_lines::{LineStop, Row, Said, ScriptKind, begins_line};
use std::alloc::Global;
use std::process::Abort;

/// Lines in which something is missing at their end.
const MISSING: &[&str] = &[
    "cipsov4 add pass doi:1",
    "cipsov4 add pass tags:1",
    "cipsov4 add trans doi:1 tags:1",
    "cipsov4 add trans doi:1 levels:0=0",
    "cipsov4 add trans tags:1 levels:0=0",
    "calipso add pass",
    "calipso add trans doi:1",
    "calipso add trans levels:0=0",
    "cipsov4 del",
    "calipso del",
    "map add default",
    "map add protocol:unlbl",
    "map del",
    "map del address:::/0",
    "unlbl add default address:::/0",
    "unlbl add default label:s0",
    "unlbl add address:::/0 label:s0",
    "unlbl del default",
    "unlbl del address:::/0",
    "receiver add address:::1 domain:d",
    "receiver add address:::1 level:s0",
    "receiver add domain:d level:s0",
    "receiver del",
    "range add default",
    "range add range:s0",
    "range del",
    "pair add address4:1.2.3.4",
    "pair add address6:::1",
    "pair del",
    "map add default  # protocol:unlbl",
    "cipsov4 add",
    "unlbl accept",
    "mgmt",
];

/// Lines with a parameter that came already, and its place.
const TWICE: &[(&str, usize)] = &[
    ("cipsov4 add pass doi:1 doi:0 tags:1", 23),
    ("cipsov4 add pass doi:1 tags:1 tags:9", 30),
    ("cipsov4 add trans levels:0=0 levels:1=1", 29),
    ("cipsov4 add trans categories:0=0 categories:", 33),
    ("calipso add pass doi:1 doi:1", 23),
    ("calipso add trans doi:1 levels:0=0 doi:2", 35),
    ("cipsov4 del doi:1 doi:1", 18),
    ("cipsov4 list doi:1 doi:1", 19),
    ("map add default domain:d protocol:unlbl", 16),
    ("map add domain:d default", 17),
    ("map add address:::/0 address:x", 21),
    ("map add protocol:unlbl protocol:x", 23),
    ("map del default address:::/0 address:::/0", 29),
    ("unlbl add interface:e default", 22),
    ("unlbl add label:s0 label:s0", 19),
    ("unlbl del default address:::/0 default", 31),
    ("receiver add address:::1 address:::1", 25),
    ("receiver add domain:d domain:d", 22),
    ("receiver add level:s0 level:s0", 22),
    ("receiver del address:::1 address:::2", 25),
    ("range add range:s0 range:s0", 19),
    ("range del default interface:e", 18),
    ("pair add address4:1.2.3.4 address4:1.2.3.4", 26),
    ("pair add address6:::1 address6:::1", 22),
    ("reading levels:0=0 levels:0=0", 19),
];

/// Lines with a word that doesn't stand there, and its place.
const UNKNOWN: &[(&str, usize)] = &[
    ("frob x", 0),
    ("netlabelctl map list", 0),
    ("cipsov4 pass", 8),
    ("cipsov4 add doi:1", 12),
    ("unlbl accept x", 13),
    ("map frob", 4),
    ("cipsov4 list default", 13),
    ("cipsov4 add pass levels:0=0", 17),
    ("calipso add pass doi:1 tags:1", 23),
    ("map del default protocol:unlbl", 16),
    ("receiver del default", 13),
    ("receiver add default", 13),
    ("pair del address4:1.2.3.4 address6:::1", 26),
    ("range add address:::/0", 10),
    ("reading x", 8),
    ("cipsov4 del doi", 12),
    ("cipsov4 del DOI:1", 12),
    ("map add default:", 8),
    ("map add Default", 8),
];

/// Lines with a value that isn't in its form, and its place.
const WRONG: &[(&str, usize)] = &[
    ("cipsov4 del doi:", 12),
    ("cipsov4 del doi:0", 12),
    ("cipsov4 del doi:01", 12),
    ("cipsov4 del doi:4294967296", 12),
    ("cipsov4 add pass tags:3", 17),
    ("cipsov4 add pass tags:1,", 17),
    ("cipsov4 add pass tags:1,1,1,1,1,1", 17),
    ("cipsov4 add trans levels:", 18),
    ("cipsov4 add trans levels:256=0", 18),
    ("cipsov4 add trans levels:0=0,", 18),
    ("cipsov4 add trans levels:0", 18),
    ("cipsov4 add trans levels:0=0=0", 18),
    ("cipsov4 add trans categories:0=65535", 18),
    ("map add domain:", 8),
    ("map add domain:a:b", 8),
    ("map add address:10.0.0.0/33", 8),
    ("map add address:10.0.0.0/08", 8),
    ("map add protocol:cipso", 8),
    ("map add protocol:cipsov4,0", 8),
    ("map add protocol:unlbl,1", 8),
    ("unlbl add interface:a/b", 10),
    ("unlbl add label:s1-s0", 10),
    ("unlbl add label:s0:c1:x:s", 10),
    ("receiver add address:1.2.3.4/32", 13),
    ("receiver add domain:", 13),
    ("receiver add level:u:r:t:s0", 13),
    ("range add range:u:r:t:s0", 10),
    ("range add range:s0-s0:c1-s1", 10),
    ("pair add address4:::1", 9),
    ("pair add address6:1.2.3.4", 9),
    ("pair add address6:1::2::3", 9),
    ("reading levels:0=4294967296", 8),
    ("reading categories:65535=0", 8),
];

/// Lines with a word behind a whole command without parameters, and its place.
const EXTRA: &[(&str, usize)] = &[
    ("map list default", 9),
    ("unlbl accept on on", 16),
    ("unlbl accept off x y", 17),
    ("unlbl list label:s0", 11),
    ("mgmt version 1", 13),
    ("mgmt protocols x", 15),
];

fn stops(rt: &impl Abort, alloc: Global, line: &str, octet: usize, kind: ScriptKind) {
    let found = said_by(rt, alloc, line).err();
    same(rt, line, found, Some(LineStop::at(octet, kind)));
}

#[test]
fn tells_what_is_missing(rt: HostRuntime) {
    for &line in MISSING {
        stops(&rt, rt.alloc(), line, line.len(), ScriptKind::Missing);
    }
}

#[test]
fn tells_words_that_do_not_stand_there(rt: HostRuntime) {
    for &(line, octet) in TWICE {
        stops(&rt, rt.alloc(), line, octet, ScriptKind::Word);
    }
    for &(line, octet) in UNKNOWN {
        stops(&rt, rt.alloc(), line, octet, ScriptKind::Word);
    }
    for &(line, octet) in EXTRA {
        stops(&rt, rt.alloc(), line, octet, ScriptKind::Extra);
    }
}

#[test]
fn tells_wrong_values(rt: HostRuntime) {
    for &(line, octet) in WRONG {
        stops(&rt, rt.alloc(), line, octet, ScriptKind::Value);
    }
}

fn names_level(rt: &impl Abort, said: &Said) {
    let levels = said.fields.reading_levels.as_ref().expect(rt, "levels");
    same(rt, "levels", levels.as_slice(), [(0, 0)].as_slice());
}

#[test]
fn reads_readings(rt: HostRuntime) {
    let said = said_by(&rt, rt.alloc(), "reading categories:1=2,2=1 levels:0=0").expect(
        &rt, "said",
    );
    same(&rt, "row", said.row, Row::Reading);
    names_level(&rt, &said);
}

#[test]
fn knows_how_lines_begin(rt: HostRuntime) {
    assert!(rt; begins_line(b"reading") && begins_line(b"cipso") && begins_line(b"mgmt"));
    assert!(rt; !begins_line(b"node") && !begins_line(b"netlabelctl"));
}
