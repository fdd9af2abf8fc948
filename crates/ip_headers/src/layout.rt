// Options laid out again: each at the first free octet with its old place modulo the alignment (RFC 8200,
// section 4.2 and appendix A), and the gaps as padding. Places are octets of the packet.

ghost use Rattle.std.specs.Prelude.{◌≡◌, ℕ, ◌+◌, ◌*◌, ◌^◌, ◌<◌, ◌≤◌, List, [], ◌∷◌, ◌++◌, length, replicate, OnOk};
ghost use Rattle.ip_headers.specs.declared.version.Version.TheVariants.{V6};
ghost use Rattle.ip_headers.specs.Options.{others_of};
ghost use Rattle.ip_headers.specs.Reading.{first_place};
ghost use Rattle.ip_headers.specs.Written.{alignment, gap_to, padding, packed, unit_of};
ghost use Rattle.ip_headers.specs.inside.Write.{IsWholeList, others_in};

use crate::kind;
use crate::options::Step;
use crate::version::Version;
use crate::walk::{first_place, step};
use std::alloc::AllocError;

/// What an option's place is kept modulo.
fn alignment(version: Version) -> usize
    ensures { result ≡ alignment version }
{
    match version {
        Version::V4 => 1,
        Version::V6 => 8,
    }
}

/// What the length of a header is a multiple of.
pub fn unit_of(version: Version) -> usize
    ensures { result ≡ unit_of version }
{
    match version {
        Version::V4 => 4,
        Version::V6 => 8,
    }
}

/// How many octets from the first free one to the next place that is this one modulo the unit.
pub fn gap_to(unit: usize, place: usize, free: usize) -> usize
    requires unit { 0 < unit }
    requires small { unit ≤ 8 }
    requires within { place < 8 }
    ensures value { result ≡ gap_to unit place free }
    ensures below { result < unit }
{
    (place + (unit - free % unit)) % unit
}

/// Writes a PadN option of IPv6 at the end.
fn push_pad_n(size: usize, out: &mut Vec<u8>) -> Result<(), AllocError>
    requires long { 2 ≤ size }
    requires below { size < 8 }
    ensures { OnOk result (out.new.items ≡ out.old.items ++ padding V6 size) }
{
    out.push(1)?;
    out.push((size - 2) as u8)?;
    out.extend_from_slice(&[0; 8][..size - 2])
}

/// Writes a gap at the end.
pub fn push_padding(version: Version, size: usize, out: &mut Vec<u8>) -> Result<(), AllocError>
    requires { size < 8 }
    ensures { OnOk result (out.new.items ≡ out.old.items ++ padding version size) }
{
    match version {
        Version::V6 if size >= 2 => push_pad_n(size, out),
        _ => push_zeros(size, out),
    }
}

/// Writes zeros at the end, of which there are few, and mostly none.
fn push_zeros(size: usize, out: &mut Vec<u8>) -> Result<(), AllocError>
    ensures { OnOk result (out.new.items ≡ out.old.items ++ replicate size 0) }
{
    for _ in 0..size {
        out.push(0)?;
    }
    Ok(())
}

/// The first free octet after an option, if it is kept.
fn end_after(version: Version, place: usize, option: &[u8], free: usize) -> usize
    requires some { 0 < length option.now }
    requires within { free + length option.now < 2 ^ 32 }
    ensures value { result ≡ free + length
        (packed version free
        (others_of version (record { place = place; octets = option.now } ∷ []))) }
    ensures bound { result ≤ free + 8 * length option.now }
{
    if !kind::is_other(version, option[0]) {
        return free;
    }
    let unit = alignment(version);
    free + gap_to(unit, place % unit, free) + option.len()
}

/// Writes an option at the end of a packet, if it is kept.
fn push_option(
    version: Version,
    place: usize,
    option: &[u8],
    out: &mut Vec<u8>,
) -> Result<(), AllocError>
    requires { 0 < length option.now }
    ensures { OnOk result
        (out.new.items ≡ out.old.items
        ++ packed version (length out.old.items)
        (others_of version (record { place = place; octets = option.now } ∷ []))) }
{
    if !kind::is_other(version, option[0]) {
        return Ok(());
    }
    let unit = alignment(version);
    push_padding(version, gap_to(unit, place % unit, out.len()), out)?;
    out.extend_from_slice(option)
}

/// Where the options that are kept end, if the first free octet is this one.
pub fn kept_end(version: Version, area: &[u8], free: usize) -> usize
    requires whole { IsWholeList version area.now }
    requires small { length area.now < 65536 }
    requires within { free < 2 ^ 16 }
    ensures value { result ≡ free + length (packed version free (others_in version area.now)) }
    ensures bound { result ≤ free + 8 * length area.now }
{
    let mut at = first_place(version);
    let mut rest = area;
    let mut end = free;
    while let Step::Option(size) = step(version, rest) {
        let (option, after) = rest.split_at(size);
        end = end_after(version, at, option, end);
        at += size;
        rest = after;
    }
    end
}

/// Writes the options that are kept at the end of a packet.
pub fn push_kept(version: Version, area: &[u8], out: &mut Vec<u8>) -> Result<(), AllocError>
    requires whole { IsWholeList version area.now }
    requires small { length area.now < 65536 }
    ensures { OnOk result
        (out.new.items ≡ out.old.items
        ++ packed version (length out.old.items) (others_in version area.now)) }
{
    let mut at = first_place(version);
    let mut rest = area;
    while let Step::Option(size) = step(version, rest) {
        let (option, after) = rest.split_at(size);
        push_option(version, at, option, out)?;
        at += size;
        rest = after;
    }
    Ok(())
}

/// How long the options are, with a label option of this length and no padding after them.
pub fn kept_size(version: Version, area: &[u8], label: usize) -> usize
    requires whole { IsWholeList version area.now }
    requires small { length area.now < 65536 }
    requires within { label < 2 ^ 15 }
    ensures value { result ≡ label + length
        (packed version (first_place version + label) (others_in version area.now)) }
    ensures bound { result ≤ label + 8 * length area.now }
{
    let first = first_place(version);
    kept_end(version, area, first + label) - first
}

/// How long they are with the padding after them.
pub fn filled_size(version: Version, kept: usize) -> usize
    requires { kept < 2 ^ 32 }
    ensures { result ≡ kept + gap_to (unit_of version) 0 (first_place version + kept) }
{
    kept + gap_to(unit_of(version), 0, first_place(version) + kept)
}
