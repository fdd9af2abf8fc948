//! Numbers of two and of four octets in network order, each with its place.

ghost use Rattle.std.specs.Prelude.{◌≡◌, ℕ, ◌+◌, ◌<◌, ◌≤◌, length, IfOk, IfErr};
ghost use Rattle.mls_label.specs.octet_grammar.Numbers.{u16_at, u32_at};
ghost use Rattle.mls_label.specs.octet_grammar.Place.{FaultsInNonzero, FaultsInNumber, IsNumberAt};

use crate::octet_grammar::{WireFault, ended, octet_at, unfit};
use byteorder::{BigEndian, ByteOrder};

/// The number of two octets at this place, in network order.
pub fn u16_at(bytes: &[u8], at: usize) -> u16
    requires { at + 1 < length bytes.now }
    ensures { result ≡ u16_at bytes.now at }
{
    BigEndian::read_u16(&bytes[at..])
}

/// The number of four octets at this place, in network order.
pub fn u32_at(bytes: &[u8], at: usize) -> u32
    requires { at + 3 < length bytes.now }
    ensures { result ≡ u32_at bytes.now at }
{
    BigEndian::read_u32(&bytes[at..])
}

/// The number of two octets at this place where it is from `low` to `high`. It is refused at its first octet where no
/// number with that octet is in bounds.
pub fn number_in(bytes: &[u8], at: usize, low: u16, high: u16) -> Result<u16, WireFault>
    requires { at ≤ length bytes.now }
    ensures ok { IfOk result (λ n. IsNumberAt bytes.now at low high n) }
    ensures err { IfErr result (λ f. FaultsInNumber bytes.now at low high f) }
{
    if bytes.len() - at >= 2 {
        let number = u16_at(bytes, at);
        if low <= number && number <= high {
            return Ok(number);
        }
    }
    Err(number_fault(bytes, at, low, high))
}

/// Where a number that isn't there or isn't from `low` to `high` is refused. It stands apart since few numbers are.
#[inline(never)]
fn number_fault(bytes: &[u8], at: usize, low: u16, high: u16) -> WireFault
    requires within { at ≤ length bytes.now }
    requires none { (n : ℕ) → IsNumberAt bytes.now at low high n → ⊥ }
    ensures { FaultsInNumber bytes.now at low high result }
{
    match octet_at(bytes, at) {
        Err(end) => end,
        Ok(first) if u16::from(first) < low / 256 || u16::from(first) > high / 256 => unfit(at),
        Ok(_) if bytes.len() - at < 2 => ended(at + 1),
        Ok(_) => unfit(at + 1),
    }
}

/// The number of four octets at this place, which isn't 0: where all four are 0 the last of them is refused.
pub fn nonzero_at(bytes: &[u8], at: usize) -> Result<u32, WireFault>
    requires { at ≤ length bytes.now }
    ensures ok { IfOk result
        (λ n. (at + 3 < length bytes.now) × (n ≡ u32_at bytes.now at) × (0 < n)) }
    ensures err { IfErr result (λ f. FaultsInNonzero bytes.now at f) }
{
    if bytes.len() - at < 4 {
        return Err(ended(bytes.len()));
    }
    let number = u32_at(bytes, at);
    if number == 0 {
        return Err(unfit(at + 3));
    }
    Ok(number)
}
