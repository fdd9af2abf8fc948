//! The check sequence of RFC 1662, Appendix C, octet by octet.

ghost use Rattle.std.specs.Prelude.{◌≡◌, ◌≤◌, length};
ghost use Rattle.calipso_option.specs.Crc.{crc_of, register_after, shifted_times, with_octet};
ghost use Rattle.calipso_option.specs.Calipso.{checksum_of};

use crate::table::SHIFTED_OUT;

/// The checksum of octets: the 16-bit frame check sequence of RFC 1662, Appendix C, as a number.
#[tactic(auto, unfolding(crate::specs::Crc::crc_of))]
pub fn crc16(bytes: &[u8]) -> u16
    ensures { result ≡ crc_of bytes.now }
{
    !after_octets(0xFFFF, bytes)
}

/// The checksum of a whole option, taken with zeros in its own place, octets 8 and 9.
pub(crate) fn option_checksum(option: &[u8]) -> u16
    requires { 10 ≤ length option.now }
    ensures { result ≡ checksum_of option.now }
{
    let head = after_octets(0xFFFF, &option[..8]);
    let place = after_octets(head, &[0, 0]);
    !after_octets(place, &option[10..])
}

fn after_octets(register: u16, bytes: &[u8]) -> u16
    ensures { result ≡ register_after register bytes.now }
{
    let mut now = register;
    for octet in bytes {
        now = after_octet(now, *octet);
    }
    now
}

// The low octet is looked up, and what lies above it moves down.
fn after_octet(register: u16, octet: u8) -> u16
    ensures { result ≡ with_octet register octet }
{
    let mixed = register ^ u16::from(octet);
    mixed / 256 ^ shifted_out((mixed % 256) as u8)
}

// An octet, shifted eight times.
fn shifted_out(octet: u8) -> u16
    ensures { result ≡ shifted_times 8 octet }
{
    SHIFTED_OUT[octet as usize]
}
