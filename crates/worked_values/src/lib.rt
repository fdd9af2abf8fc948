//! Test material, for tests alone: packets and scripts that were worked by hand, each in one place under a name that says what it is.
#![tactic(auto)]

pub mod packets;
pub mod scripts;

ghost use Rattle.std.specs.Prelude.{◌<◌};

use std::alloc::{AllocError, Global};

fn nibble(digit: u8) -> u8
    ensures { result < 16 }
{
    match digit {
        b'0'..=b'9' => digit - b'0',
        b'a'..=b'f' => digit - b'a' + 10,
        _ => 0,
    }
}

fn append_line(line: &str, octets: &mut Vec<u8>) -> Result<(), AllocError> {
    for pair in line.as_bytes().chunks_exact(2) {
        if let [high, low] = pair {
            octets.push(16 * nibble(*high) + nibble(*low))?;
        }
    }
    Ok(())
}

/// Appends the octets of lines of hexadecimal digits, two for each.
pub fn append_octets(digits: &str, octets: &mut Vec<u8>) -> Result<(), AllocError> {
    for line in digits.lines() {
        append_line(line, octets)?;
    }
    Ok(())
}

/// The octets of lines of hexadecimal digits.
pub fn octets_of(alloc: Global, digits: &str) -> Result<Vec<u8>, AllocError> {
    let mut octets = Vec::new(alloc);
    append_octets(digits, &mut octets)?;
    Ok(octets)
}
