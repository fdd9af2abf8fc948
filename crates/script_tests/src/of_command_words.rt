use crate::checks::same;
use label_commands::*;
use std::alloc::Global;

/// Words, and how many workers they name.
const WORKERS: &[(&str, Option<usize>)] = &[
    ("0", None),
    ("1", Some(1)),
    ("16", Some(16)),
    ("17", None),
    ("01", None),
    ("", None),
    ("-w", None),
    ("18446744073709551617", None),
];

/// Words, and the numbers that they name.
const NUMBERS: &[(&str, Option<u32>)] = &[
    ("0", Some(0)),
    ("4294967295", Some(4_294_967_295)),
    ("4294967296", None),
    ("00", None),
    ("1,2", None),
    (" 1", None),
    ("", None),
];

/// Words, and how many versions they list.
const VERSIONS: &[(&str, Option<usize>)] = &[
    ("15", Some(1)),
    ("15,15,19,19", Some(4)),
    ("4294967295,0", Some(2)),
    ("4294967296,0", None),
    ("1,", None),
    (",1", None),
    ("1,,2", None),
    ("", None),
];

/// Words, and the DOIs that they name.
const DOIS: &[(&str, Option<u32>)] = &[
    ("0", None),
    ("1", Some(1)),
    ("4294967295", Some(4_294_967_295)),
    ("4294967296", None),
    ("016", None),
];

/// Words, and whether they are names of files.
const FILES: &[(&str, bool)] = &[
    ("s", true),
    ("./-s", true),
    ("a-#", true),
    ("-s", false),
    ("#s", false),
    ("a b", false),
    ("", false),
];

fn length(alloc: Global, word: &str) -> Option<usize> {
    let versions = NamedVersions::named(word)?.read(alloc).ok()?;
    Some(versions.len())
}

#[test]
fn names_workers(rt: HostRuntime) {
    for &(word, workers) in WORKERS {
        let found = Workers::named(word).map(|named| named.number());
        same(&rt, word, found, workers);
    }
}

#[test]
fn names_numbers(rt: HostRuntime) {
    for &(word, number) in NUMBERS {
        same(&rt, word, read_number(word), number);
    }
}

#[test]
fn names_versions(rt: HostRuntime) {
    for &(word, count) in VERSIONS {
        same(&rt, word, length(rt.alloc(), word), count);
    }
}

#[test]
fn names_dois(rt: HostRuntime) {
    for &(word, doi) in DOIS {
        let found = NamedDoi::named(word).map(|named| named.doi().get());
        same(&rt, word, found, doi);
    }
}

#[test]
fn names_files(rt: HostRuntime) {
    for &(word, is_name) in FILES {
        same(&rt, word, NamedFile::named(word).is_some(), is_name);
    }
    let name = NamedFile::named("site").expect(&rt, "it is a name");
    same(&rt, "site", name.as_str(), "site");
}
