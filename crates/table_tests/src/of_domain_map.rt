use crate::checks::same;
use domain_map::*;
use mls_label::{CatSet, Label, Proto};
use std::alloc::Global;
use std::process::Abort;

const FIRST: Protocol = Protocol::Cipso { doi: 1 };

const SECOND: Protocol = Protocol::Cipso { doi: 2 };

const THIRD: Protocol = Protocol::Calipso { doi: 3 };

fn name(rt: &impl Abort, text: &str) -> Name {
    read_name(text.as_bytes()).expect(rt, "a name")
}

fn prefix(rt: &impl Abort, text: &str) -> Prefix {
    read_prefix(text.as_bytes()).expect(rt, "a prefix")
}

// Adds an entry, by its words; no word is the default domain, or no prefix.
fn added(
    map: &mut DomainMap,
    domain: &str,
    text: &str,
    protocol: Protocol,
) -> Result<(), MapFault> {
    let domain = read_name(domain.as_bytes());
    match read_prefix(text.as_bytes()) {
        Some(prefix) => map.add(domain.as_ref(), Some(prefix), protocol),
        None => map.add(domain.as_ref(), None, protocol),
    }
}

// Adds an entry, which the map answers so.
fn answers(
    rt: &impl Abort,
    map: &mut DomainMap,
    (domain, text, protocol): (&str, &str, Protocol),
    wanted: Result<(), MapFault>,
) {
    let found = added(map, domain, text, protocol);
    same(rt, (domain, text), found, wanted);
}

fn map_of(rt: &impl Abort, alloc: Global, entries: &[(&str, &str, Protocol)]) -> DomainMap {
    let mut map = DomainMap::empty(alloc);
    for entry in entries {
        answers(rt, &mut map, *entry, Ok(()));
    }
    map
}

fn finds(rt: &impl Abort, map: &DomainMap, domain: &str, text: &str, wanted: Option<Protocol>) {
    let address = read_address(text.as_bytes()).expect(rt, "an address");
    let found = map.find(&name(rt, domain), &address);
    same(rt, (domain, text), found, wanted);
}

fn finds_all(rt: &impl Abort, map: &DomainMap, cases: &[(&str, &str, Option<Protocol>)]) {
    for (domain, text, wanted) in cases {
        finds(rt, map, domain, text, *wanted);
    }
}

const ENTRIES: &[(&str, &str, Protocol)] = &[
    ("web_t", "10.0.0.0/8", FIRST),
    ("web_t", "10.1.0.0/16", SECOND),
    ("", "", Protocol::Unlbl),
];

// A domain with addresses doesn't fall back on the default entry.
const PROTOCOLS: &[(&str, &str, Option<Protocol>)] = &[
    ("web_t", "10.1.2.3", Some(SECOND)),
    ("web_t", "10.9.9.9", Some(FIRST)),
    ("web_t", "11.0.0.1", None),
    ("web_t", "::a01:203", None),
    ("other_t", "11.0.0.1", Some(Protocol::Unlbl)),
];

#[test]
fn finds_the_longest_prefix(rt: HostRuntime) {
    let map = map_of(&rt, rt.alloc(), ENTRIES);
    finds_all(&rt, &map, PROTOCOLS);
    finds_all(&rt, &map.copy().expect(&rt, "memory"), PROTOCOLS);
}

fn deletes(rt: &impl Abort, map: &mut DomainMap, text: &str, wanted: bool) {
    let domain = name(rt, "web_t");
    let found = map.del(Some(&domain), read_prefix(text.as_bytes()));
    same(rt, text, found.is_ok(), wanted);
}

// One address goes, and the domain with its last.
#[test]
fn deletes_addresses(rt: HostRuntime) {
    let mut map = map_of(&rt, rt.alloc(), ENTRIES);
    deletes(&rt, &mut map, "10.1.0.0/16", true);
    finds(&rt, &map, "web_t", "10.1.2.3", Some(FIRST));
    deletes(&rt, &mut map, "10.1.0.0/16", false);
    deletes(&rt, &mut map, "10.0.0.0/8", true);
    finds(&rt, &map, "web_t", "11.0.0.1", Some(Protocol::Unlbl));
    deletes(&rt, &mut map, "", false);
}

const BROAD: (&str, &str, Protocol) = ("web_t", "10.0.0.0/8", FIRST);

const NARROW: (&str, &str, Protocol) = ("web_t", "10.1.0.0/16", SECOND);

const NARROWEST: (&str, &str, Protocol) = ("web_t", "10.1.2.0/24", THIRD);

const ORDERS: &[[(&str, &str, Protocol); 3]] = &[
    [BROAD, NARROW, NARROWEST],
    [BROAD, NARROWEST, NARROW],
    [NARROW, BROAD, NARROWEST],
    [NARROW, NARROWEST, BROAD],
    [NARROWEST, BROAD, NARROW],
    [NARROWEST, NARROW, BROAD],
];

// The last one decides in whatever order they came.
#[test]
fn finds_it_in_each_order(rt: HostRuntime) {
    for order in ORDERS {
        let map = map_of(&rt, rt.alloc(), order);
        finds(&rt, &map, "web_t", "10.1.2.3", Some(THIRD));
    }
}

fn adds_name(rt: &impl Abort, map: &mut DomainMap, letter: u8) {
    let domain = read_name(&[letter]);
    same(rt, letter, map.add(domain.as_ref(), None, FIRST), Ok(()));
    finds(rt, map, "a", "10.0.0.1", Some(FIRST));
    finds(rt, map, "z", "10.0.0.1", Some(SECOND));
}

// A name is found, or the default entry, among entries that are gone over and among more.
#[test]
fn finds_names_among_few_and_many(rt: HostRuntime) {
    let mut map = map_of(&rt, rt.alloc(), &[("", "", SECOND)]);
    for i in 0..12u8 {
        adds_name(&rt, &mut map, b'a' + i);
    }
    finds(&rt, &map, "l", "10.0.0.1", Some(FIRST));
}

type Answer = ((&'static str, &'static str, Protocol), Result<(), MapFault>);

const ANSWERS: &[Answer] = &[
    (("x", "10.0.0.0/8", FIRST), Ok(())),
    (("y", "", SECOND), Ok(())),
    (("x", "11.0.0.0/8", THIRD), Ok(())),
    (("x", "10.0.0.0/8", SECOND), Err(MapFault::Exists)),
    (("x", "", SECOND), Err(MapFault::HasAddresses)),
    (("y", "10.0.0.0/8", SECOND), Err(MapFault::Plain)),
    (("y", "", SECOND), Err(MapFault::Exists)),
];

fn answers_all(rt: &impl Abort, map: &mut DomainMap, cases: &[Answer]) {
    for (entry, wanted) in cases {
        answers(rt, map, *entry, *wanted);
    }
}

fn lists(rt: &impl Abort, map: &DomainMap, i: usize, wanted: Protocol) {
    assert!(rt; i < map.count());
    same(rt, i, map.entry(i).2, wanted);
}

// Lines go by entries, and within an entry by addresses; refusals change none.
#[test]
fn refuses_and_lists(rt: HostRuntime) {
    let mut map = DomainMap::empty(rt.alloc());
    answers_all(&rt, &mut map, ANSWERS);
    same(&rt, "count", map.count(), 3);
    lists(&rt, &map, 0, FIRST);
    lists(&rt, &map, 1, THIRD);
    lists(&rt, &map, 2, SECOND);
    same(&rt, "named", map.names_doi(Proto::Calipso, 3), true);
    same(&rt, "not named", map.names_doi(Proto::Cipso, 3), false);
}

// 256 entries are taken, and no more.
#[test]
fn takes_256_domains(rt: HostRuntime) {
    let mut map = DomainMap::empty(rt.alloc());
    for i in 0..=255u8 {
        let domain = read_name(&[b'a' + i / 16, b'a' + i % 16]);
        same(&rt, i, map.add(domain.as_ref(), None, FIRST), Ok(()));
    }
    answers(&rt, &mut map, ("web_t", "", FIRST), Err(MapFault::Full));
}

// 256 addresses of one entry are taken, and no more.
#[test]
fn takes_256_addresses(rt: HostRuntime) {
    let mut map = DomainMap::empty(rt.alloc());
    let web = name(&rt, "web_t");
    for i in 0..=255u8 {
        let prefix = Prefix::of(Address::V4([10, i, 0, 0]), 16);
        same(&rt, i, map.add(Some(&web), Some(prefix), FIRST), Ok(()));
    }
    answers(
        &rt,
        &mut map,
        ("web_t", "11.0.0.0/8", FIRST),
        Err(MapFault::Full),
    );
    finds(&rt, &map, "web_t", "10.255.1.1", Some(FIRST));
}

fn label(level: u8) -> Label {
    Label {
        level,
        cats: CatSet::empty(),
    }
}

// Adds a static entry with labels of these levels, by its words, which the map answers so.
fn static_answers(
    rt: &impl Abort,
    map: &mut StaticMap,
    (interface, text): (&str, &str),
    (low, high): (u8, u8),
    wanted: Result<(), StaticFault>,
) {
    let (low, high) = (label(low), label(high));
    assert!(rt; high.dominates(&low));
    let name = read_name(interface.as_bytes());
    let found = map.add(name.as_ref(), prefix(rt, text), &low, &high);
    same(rt, (interface, text), found, wanted);
}

fn static_finds(
    rt: &impl Abort,
    map: &StaticMap,
    interface: &str,
    text: &str,
    wanted: Option<(u8, u8)>,
) {
    let address = read_address(text.as_bytes()).expect(rt, "an address");
    let labels = map.find(&name(rt, interface), &address);
    let found = labels.map(|(low, high)| (low.level, high.level));
    same(rt, (interface, text), found, wanted);
}

// An interface with entries of its own doesn't fall back on the default ones; the low label comes first.
const STATIC: &[(&str, &str, Option<(u8, u8)>)] = &[
    ("eth0", "10.1.2.3", Some((4, 6))),
    ("eth0", "10.2.2.3", Some((2, 3))),
    ("eth0", "11.0.0.1", None),
    ("eth1", "10.1.2.3", Some((0, 1))),
];

fn static_map(rt: &impl Abort, alloc: Global) -> StaticMap {
    let mut map = StaticMap::empty(alloc);
    static_answers(rt, &mut map, ("", "0.0.0.0/0"), (0, 1), Ok(()));
    static_answers(rt, &mut map, ("eth0", "10.0.0.0/8"), (2, 3), Ok(()));
    static_answers(rt, &mut map, ("eth0", "10.1.0.0/16"), (4, 6), Ok(()));
    let exists = Err(StaticFault::Exists);
    static_answers(rt, &mut map, ("eth0", "10.1.0.0/16"), (4, 6), exists);
    map
}

#[test]
fn finds_static_labels(rt: HostRuntime) {
    let map = static_map(&rt, rt.alloc());
    let copy = map.copy().expect(&rt, "memory");
    for &(interface, text, wanted) in STATIC {
        static_finds(&rt, &map, interface, text, wanted);
        static_finds(&rt, &copy, interface, text, wanted);
    }
}

#[test]
fn deletes_static_labels(rt: HostRuntime) {
    let mut map = static_map(&rt, rt.alloc());
    let eth0 = name(&rt, "eth0");
    assert!(rt; map.del(Some(&eth0), prefix(&rt, "10.0.0.0/8")).is_ok());
    assert!(rt; map.del(Some(&eth0), prefix(&rt, "10.0.0.0/8")).is_err());
    static_finds(&rt, &map, "eth0", "10.2.2.3", None);
}

#[test]
fn takes_256_static_entries(rt: HostRuntime) {
    let mut map = StaticMap::empty(rt.alloc());
    let label = Label::lowest();
    for i in 0..=255u8 {
        assert!(rt; label.dominates(&label));
        let prefix = Prefix::of(Address::V4([10, i, 0, 0]), 16);
        same(&rt, i, map.add(None, prefix, &label, &label), Ok(()));
    }
    static_answers(
        &rt,
        &mut map,
        ("", "11.0.0.0/8"),
        (0, 0),
        Err(StaticFault::Full),
    );
    same(&rt, "count", map.count(), 256);
}
