use crate::checks::same;
use mls_label::*;
use std::alloc::Global;
use std::process::Abort;

#[test]
fn spells_short_numbers_into_room(rt: HostRuntime) {
    let mut out = Vec::new(rt.alloc());
    out.reserve(5).expect(&rt, "memory");
    push_decimal(60504, &mut out);
    same(&rt, "spelled", out.as_slice(), "60504".as_bytes());
}

const NUMBERS: &[(u64, &str)] = &[
    (0, "0"),
    (9, "9"),
    (10, "10"),
    (97, "97"),
    (99, "99"),
    (100, "100"),
    (999, "999"),
    (1000, "1000"),
    (9999, "9999"),
    (10000, "10000"),
    (65535, "65535"),
    (65536, "65536"),
    (4294967295, "4294967295"),
    (18446744073709551615, "18446744073709551615"),
];

const NO_NUMBERS: &[&str] = &[
    "",
    "00",
    "07",
    "+7",
    "-0",
    " 7",
    "7 ",
    "18446744073709551616",
];

fn spells(rt: &impl Abort, alloc: Global, number: u64, text: &str) {
    let mut out = Vec::new(alloc);
    write_decimal(number, &mut out).expect(rt, "memory");
    same(rt, text, out.as_slice(), text.as_bytes());
}

#[test]
fn spells_and_reads_numbers(rt: HostRuntime) {
    for (number, text) in NUMBERS {
        spells(&rt, rt.alloc(), *number, text);
        same(&rt, *text, read_decimal(text.as_bytes()), Some(*number));
    }
    for text in NO_NUMBERS {
        same(&rt, *text, read_decimal(text.as_bytes()), None);
    }
}
