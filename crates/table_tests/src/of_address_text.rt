use crate::checks::same;
use domain_map::*;
use std::alloc::Global;
use std::process::Abort;

// Texts from RFC 4291 section 2.2 and RFC 5952 sections 4 and 5, with their one written form; None for what is no address.
const ADDRESSES: &[(&str, Option<&str>)] = &[
    ("10.1.2.3", Some("10.1.2.3")),
    ("0.0.0.0", Some("0.0.0.0")),
    ("255.255.255.255", Some("255.255.255.255")),
    ("fd00::1", Some("fd00::1")),
    ("fd00:0:0:0:0:0:0:1", Some("fd00::1")),
    (
        "ABCD:EF01:2345:6789:ABCD:EF01:2345:6789",
        Some("abcd:ef01:2345:6789:abcd:ef01:2345:6789"),
    ),
    (
        "2001:DB8:0:0:8:800:200C:417A",
        Some("2001:db8::8:800:200c:417a"),
    ),
    ("FF01::101", Some("ff01::101")),
    ("::1", Some("::1")),
    ("::", Some("::")),
    ("2001:0DB8:0000:CD30::", Some("2001:db8:0:cd30::")),
    ("2001:db8:0:1:1:1:1:1", Some("2001:db8:0:1:1:1:1:1")),
    ("2001:db8::1:1:1:1:1", Some("2001:db8:0:1:1:1:1:1")),
    ("2001:0:0:1:0:0:0:1", Some("2001:0:0:1::1")),
    ("2001:db8:0:0:1:0:0:1", Some("2001:db8::1:0:0:1")),
    ("0:0:0:0:0:ffff:c000:201", Some("::ffff:c000:201")),
    ("1:2:3:4:5:6:7::", Some("1:2:3:4:5:6:7:0")),
    ("::2:3:4:5:6:7:8", Some("0:2:3:4:5:6:7:8")),
    ("", None),
    ("10.1.2", None),
    ("10.1.2.3.4", None),
    ("10.01.2.3", None),
    ("10.1.2.256", None),
    ("10.1.2.+3", None),
    ("10.1.2.3 ", None),
    ("1::2::3", None),
    (":::", None),
    ("1:2:3:4:5:6:7", None),
    ("1:2:3:4:5:6:7:8:9", None),
    ("1:2:3:4::5:6:7:8", None),
    ("12345::", None),
    ("::g", None),
    ("::13.1.68.3", None),
    ("::ffff:192.0.2.1", None),
];

fn writes_address(rt: &impl Abort, alloc: Global, text: &str, form: &str) {
    let address = read_address(text.as_bytes()).expect(rt, text);
    let mut out = Vec::new(alloc);
    write_address(&address, &mut out).expect(rt, "memory");
    same(rt, text, out.as_slice(), form.as_bytes());
}

fn tries_address(rt: &impl Abort, alloc: Global, text: &str, wanted: Option<&str>) {
    match wanted {
        Some(form) => writes_address(rt, alloc, text, form),
        None => same(rt, text, read_address(text.as_bytes()).is_none(), true),
    }
}

#[test]
fn reads_and_writes_addresses(rt: HostRuntime) {
    for &(text, wanted) in ADDRESSES {
        tries_address(&rt, rt.alloc(), text, wanted);
    }
}

// A prefix keeps its first bits; the numbers at both sides of each family's width.
const PREFIXES: &[(&str, Option<&str>)] = &[
    ("10.1.2.3/8", Some("10.0.0.0/8")),
    ("10.1.2.3", Some("10.1.2.3/32")),
    ("10.1.2.3/32", Some("10.1.2.3/32")),
    ("10.255.2.3/9", Some("10.128.0.0/9")),
    ("255.255.255.255/0", Some("0.0.0.0/0")),
    ("fd00:1:2::5/40", Some("fd00:1::/40")),
    ("fd00::1", Some("fd00::1/128")),
    ("fd00::1/128", Some("fd00::1/128")),
    ("ffff::/1", Some("8000::/1")),
    ("10.0.0.0/33", None),
    ("10.0.0.0/08", None),
    ("10.0.0.0/", None),
    ("10.0.0.0/8/8", None),
    ("fd00::/129", None),
    ("/8", None),
];

fn writes_prefix(rt: &impl Abort, alloc: Global, text: &str, form: &str) {
    let prefix = read_prefix(text.as_bytes()).expect(rt, text);
    let mut out = Vec::new(alloc);
    write_prefix(&prefix, &mut out).expect(rt, "memory");
    same(rt, text, out.as_slice(), form.as_bytes());
}

fn tries_prefix(rt: &impl Abort, alloc: Global, text: &str, wanted: Option<&str>) {
    match wanted {
        Some(form) => writes_prefix(rt, alloc, text, form),
        None => same(rt, text, read_prefix(text.as_bytes()).is_none(), true),
    }
}

#[test]
fn reads_and_writes_prefixes(rt: HostRuntime) {
    for &(text, wanted) in PREFIXES {
        tries_prefix(&rt, rt.alloc(), text, wanted);
    }
}

const NAMES: &[&str] = &[
    "web_t",
    "eth0.7",
    "-",
    "Z",
    "a23456789_123456789-123456789.123456789_123456789_123456789_ABC",
];

const NO_NAMES: &[&str] = &[
    "",
    "a b",
    "a:b",
    "a/b",
    "\u{e9}",
    "a23456789_123456789-123456789.123456789_123456789_123456789_ABCD",
];

fn knows_name(rt: &impl Abort, text: &str) {
    let name = read_name(text.as_bytes()).expect(rt, text);
    same(rt, text, name.text(), text.as_bytes());
    assert!(rt; name == name.copy());
}

#[test]
fn knows_names(rt: HostRuntime) {
    for &text in NAMES {
        knows_name(&rt, text);
    }
    for &text in NO_NAMES {
        same(&rt, text, read_name(text.as_bytes()).is_none(), true);
    }
}
