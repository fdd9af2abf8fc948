//! Worked values: packets made by hand from RFC 791, RFC 8200, FIPS 188 and RFC 5570, their checksums by RFC 1071 and RFC 1624.
//! Packets that go on stand in `packets`, those that are denied in `denials`, packets at the bounds of their lengths in `lengths`;
//! `nodes` has the tables, `cases` what a worked packet's lines say.

mod cases;
mod denials;
mod lengths;
mod nodes;
mod packets;

use domain_map::{Name, read_name};
use std::process::Abort;

fn name(rt: &impl Abort, text: &str) -> Name {
    read_name(text.as_bytes()).expect(rt, "a name")
}
