// A packet of either version as it is read: header and payload apart, and what its list of options has.

ghost use Rattle.std.specs.Prelude.{◌≡◌, Some, Ok, Err, IfOk, IfErr};
ghost use Rattle.ip_headers.specs.Reading.{fixed_fault, front_of, packet_of};
ghost use Rattle.ip_headers.specs.inside.View.{FailsBoth, Holds, IsScanned, IsSplit, view_of};

use crate::fault::{HeadFault, HeadKind, fault};
use crate::packet4::split4;
use crate::packet6::split6;
use crate::version::Version;
use crate::walk::walk;

/// The parts of a packet, borrowed from its octets. Places are octets of the packet.
#[derive(Debug, Drop)]
pub struct Parts<'a> {
    /// The header, with its options.
    pub head: &'a [u8],
    pub payload: &'a [u8],
    /// The first label option, with its place.
    pub label: Option<(usize, &'a [u8])>,
    /// Whether there is an option that is neither padding nor a label.
    pub has_others: bool,
}

/// The header and the payload, where the fields are right that stand before the options.
#[inline(always)]
fn split(version: Version, bytes: &[u8]) -> Result<(&[u8], &[u8]), HeadFault>
    ensures ok { IfOk result (λ x. IsSplit version bytes.now x.0.now x.1.now) }
    ensures err { IfErr result (λ fault. fixed_fault version bytes.now ≡ Some fault) }
{
    match version {
        Version::V4 => split4(bytes),
        Version::V6 => split6(bytes),
    }
}

/// The parts of the packet at the front of the octets, and the place of its second label option.
// Always inlined, as its callers are: then parts are made where they stay, by the code of one version alone.
#[inline(always)]
fn scan(version: Version, bytes: &[u8]) -> Result<(Parts<'_>, Option<usize>), HeadFault>
    ensures ok { IfOk result (λ x. IsScanned version bytes.now x.0 x.1) }
    ensures err { IfErr result (λ fault. FailsBoth version bytes.now fault) }
{
    let (head, payload) = split(version, bytes)?;
    let found = walk(version, head)?;
    if let Some(octet) = found.jumbo {
        return Err(fault(octet, HeadKind::Jumbo));
    }
    let parts = Parts {
        head,
        payload,
        label: found.label,
        has_others: found.has_others,
    };
    Ok((parts, found.second))
}

/// Reads the packet at the front of the octets; a second label option is the last fault.
#[inline(always)]
pub fn read(version: Version, bytes: &[u8]) -> Result<Parts<'_>, HeadFault>
    ensures ok { IfOk result
        (λ parts. Holds version parts
        × (packet_of version bytes.now ≡ Ok (view_of version parts))) }
    ensures err { IfErr result (λ fault. packet_of version bytes.now ≡ Err fault) }
{
    let (parts, second) = scan(version, bytes)?;
    match second {
        Some(octet) => Err(fault(octet, HeadKind::SecondLabel)),
        None => Ok(parts),
    }
}

/// Reads as `read` does, but allows a second label option.
#[inline(always)]
pub fn front(version: Version, bytes: &[u8]) -> Result<Parts<'_>, HeadFault>
    ensures ok { IfOk result
        (λ parts. Holds version parts × (front_of version bytes.now ≡ Ok (view_of version parts))) }
    ensures err { IfErr result (λ fault. front_of version bytes.now ≡ Err fault) }
{
    let (parts, _) = scan(version, bytes)?;
    Ok(parts)
}
