//! The written forms of addresses and prefixes.

ghost use Rattle.std.specs.Prelude.{◌≡◌, ◌+◌, ◌^◌, ◌<◌, ◌≤◌, [], ◌∷◌, ◌++◌, length, vec_len, vec_capacity, OnOk, OnErr};
ghost use Rattle.std.specs.Fmt.{decimal};
ghost use Rattle.std.specs.Char.{digit_char};
ghost use Rattle.std.specs.Net.Addr.{segments_of};
ghost use Rattle.std.specs.Net.Text.{ipv4_text, hex, groups_text, longest_zero_run, hex_groups_text, leading_zero_digits};
ghost use Rattle.domain_map.specs.address_text.Address.{address_text};
ghost use Rattle.domain_map.specs.address_text.Prefix.{prefix_text};
ghost use Rattle.domain_map.specs.address_text.inside.Extends.{Extends};

use crate::address_text::address::Address;
use crate::address_text::prefix::Prefix;
use mls_label::{OutOfMemory, push_decimal, write_decimal};
use std::net::Ipv6Addr;

/// As much room as four numbers of 16 bits and three dots take at the most.
const DOTTED_ROOM: usize = 23;

/// Appends the one written form of an address: dotted decimals, or groups as RFC 5952 section 4 writes them. After an error
/// `out` is as it was.
pub fn write_address(address: &Address, out: &mut Vec<u8>) -> Result<(), OutOfMemory>
    ensures ok { OnOk result (out.new.items ≡ out.old.items ++ address_text address.now) }
    ensures err { OnErr result (out.new.items ≡ out.old.items) }
{
    let before = out.len();
    let written = append_address(address, out);
    if written.is_err() {
        out.truncate(before);
    }
    written
}

/// Appends the one written form of a prefix: its address, a slash and its number of bits. After an error `out` is as it was.
pub fn write_prefix(prefix: &Prefix, out: &mut Vec<u8>) -> Result<(), OutOfMemory>
    ensures ok { OnOk result (out.new.items ≡ out.old.items ++ prefix_text prefix.now) }
    ensures err { OnErr result (out.new.items ≡ out.old.items) }
{
    let before = out.len();
    let written = append_prefix(prefix, out);
    if written.is_err() {
        out.truncate(before);
    }
    written
}

fn append_prefix(prefix: &Prefix, out: &mut Vec<u8>) -> Result<(), OutOfMemory>
    ensures ok { OnOk result (out.new.items ≡ out.old.items ++ prefix_text prefix.now) }
    ensures err { OnErr result (Extends out.old.items out.new.items) }
{
    append_address(prefix.address(), out)?;
    out.push(b'/')?;
    write_decimal(u64::from(prefix.bits()), out)?;
    Ok(())
}

fn append_address(address: &Address, out: &mut Vec<u8>) -> Result<(), OutOfMemory>
    ensures ok { OnOk result (out.new.items ≡ out.old.items ++ address_text address.now) }
    ensures err { OnErr result (Extends out.old.items out.new.items) }
{
    match address {
        Address::V4(octets) => append_dotted(octets, out),
        Address::V6(octets) => append_shortened(&Ipv6Addr::from_octets(*octets).segments(), out),
    }
}

fn append_dotted(octets: &[u8; 4], out: &mut Vec<u8>) -> Result<(), OutOfMemory>
    ensures ok { OnOk result (out.new.items ≡ out.old.items ++ ipv4_text octets.now) }
    ensures err { OnErr result (Extends out.old.items out.new.items) }
{
    let [a, b, c, d] = *octets;
    out.reserve(DOTTED_ROOM)?;
    push_octet(a, out);
    push_octet(b, out);
    push_octet(c, out);
    push_decimal(u16::from(d), out);
    Ok(())
}

/// Appends a decimal number and a dot.
fn push_octet(octet: u8, out: &mut Vec<u8>)
    requires room { vec_len out.old + 6 ≤ vec_capacity out.old }
    ensures items { out.new.items ≡ out.old.items ++ decimal octet ++ 46 ∷ [] }
    ensures len { vec_len out.new ≤ vec_len out.old + 6 }
    ensures capacity { vec_capacity out.new ≡ vec_capacity out.old }
{
    push_decimal(u16::from(octet), out);
    out.push_reserved(b'.');
}

#[tactic(auto, unfolding(std::specs::Net::Text::hex_groups_text))]
/// Appends groups, with `::` for the longest run of two zero groups or more.
fn append_shortened(groups: &[u16], out: &mut Vec<u8>) -> Result<(), OutOfMemory>
    ensures ok { OnOk result (out.new.items ≡ out.old.items ++ hex_groups_text groups.now) }
    ensures err { OnErr result (Extends out.old.items out.new.items) }
{
    let (start, length) = longest_zeros(groups);
    if length < 2 {
        return append_groups(groups, out);
    }
    append_groups(&groups[..start], out)?;
    out.extend_from_slice(b"::")?;
    append_groups(&groups[start + length..], out)
}

/// Where the longest run of zero groups starts, the first of equals, and how long it is.
fn longest_zeros(groups: &[u16]) -> (usize, usize)
    ensures run { result ≡ longest_zero_run groups.now }
    ensures within { result.0 + result.1 ≤ length groups.now }
{
    let mut start = groups.len();
    let mut length = 0;
    let mut run = 0;
    for place in (0..groups.len()).rev() {
        run = if groups[place] == 0 { run + 1 } else { 0 };
        if run >= length {
            start = place;
            length = run;
        }
    }
    (start, length)
}

/// Appends groups with colons between.
fn append_groups(groups: &[u16], out: &mut Vec<u8>) -> Result<(), OutOfMemory>
    ensures ok { OnOk result (out.new.items ≡ out.old.items ++ groups_text groups.now) }
    ensures err { OnErr result (Extends out.old.items out.new.items) }
{
    let [first, others @ ..] = groups else {
        return Ok(());
    };
    append_hex(*first, out)?;
    for group in others {
        out.push(b':')?;
        append_hex(*group, out)?;
    }
    Ok(())
}

#[tactic(auto, unfolding(std::specs::Net::Text::hex))]
/// Appends a group in lower case, without leading zeros. After an error `out` is as it was.
fn append_hex(group: u16, out: &mut Vec<u8>) -> Result<(), OutOfMemory>
    ensures ok { OnOk result (out.new.items ≡ out.old.items ++ hex group) }
    ensures err { OnErr result (out.new.items ≡ out.old.items) }
{
    let digits = [
        hex_digit(group / 0x1000),
        hex_digit(group / 0x100 % 16),
        hex_digit(group / 0x10 % 16),
        hex_digit(group % 16),
    ];
    out.extend_from_slice(&digits[leading_zeros(group)..])?;
    Ok(())
}

fn hex_digit(digit: u16) -> u8
    requires { digit < 16 }
    ensures { result ≡ digit_char digit }
{
    if digit < 10 {
        b'0' + digit as u8
    } else {
        b'a' - 10 + digit as u8
    }
}

/// How many of a group's four digits are zeros in front of another digit.
fn leading_zeros(group: u16) -> usize
    ensures zeros { result ≡ leading_zero_digits group }
    ensures within { result < 4 }
{
    match group {
        0x1000.. => 0,
        0x100.. => 1,
        0x10.. => 2,
        _ => 3,
    }
}
