//! Packets written as packets of the other version.

ghost use Rattle.std.specs.Prelude.{◌≡◌, ◌↔◌, ◌^◌, ◌<◌, ◌≤◌, [], length, Some, None, Err, OnOk, OnErr};
ghost use Rattle.ip_headers.specs.declared.version.Version.TheVariants.{V4, V6};
ghost use Rattle.ip_headers.specs.Fields.{packet4, packet6};
ghost use Rattle.ip_headers.specs.Written.{IsLabelOption, packet_octets, rebuilt_length};
ghost use Rattle.version_cross.specs.Segment.{segment_minimum};
ghost use Rattle.version_cross.specs.Cause.{cross_cause};
ghost use Rattle.version_cross.specs.Checksum.{crossed_segment};
ghost use Rattle.version_cross.specs.Cross.{crossed_with};

use crate::checksum::{address_sum, update_segment};
use crate::fault::CrossFault;
use ip_headers::{Fields4, Fields6, Packet4, Packet6, Rebuild, write4, write6};

/// The flag of IPv4 that a packet isn't to be fragmented (RFC 791, section 3.1).
const DONT_FRAGMENT: u16 = 0x4000;

/// Writes the packet as one of IPv6 with these addresses, this label option and these hops: `out` becomes exactly that packet.
/// The traffic class is the type of service, the flow label 0; of the payload only the checksum changes (RFC 7915, section
/// 4.1; RFC 1624).
///
/// TooLong comes where the payload length would pass 65,535. After an error `out` is empty.
pub fn cross4to6(
    view: &Packet4,
    source: [u8; 16],
    destination: [u8; 16],
    option: &[u8],
    hops: u8,
    out: &mut Vec<u8>,
) -> Result<(), CrossFault>
    requires crossable { cross_cause view.now ≡ None }
    requires label { IsLabelOption V6 option.now }
    ensures ok { OnOk result
        (out.new.items ≡ packet_octets
        (crossed_with view.now source destination (Some option.now) hops)) }
    ensures too_long { (result ≡ Err CrossFault.TooLong) ↔
        (65535 < rebuilt_length (crossed_with view.now source destination (Some option.now) hops)) }
    ensures err { OnErr result (out.new.items ≡ []) }
{
    let fields = Fields6 {
        class: view.tos(),
        flow_label: 0,
        hops,
        protocol: view.protocol(),
        source,
        destination,
    };
    let old = address_sum(&view.source(), &view.destination());
    let new = address_sum(&source, &destination);
    write_crossed6(&fields, option, view.payload(), old, new, out)
}

/// Writes the packet as one of IPv4 with these addresses, this label option and these hops: `out` becomes exactly that packet.
/// The type of service is the traffic class, the identification 0, and the packet isn't to be fragmented; of the payload only
/// the checksum changes (RFC 7915, section 5.1; RFC 1624).
///
/// TooLong comes where the total length would pass 65,535. After an error `out` is empty.
pub fn cross6to4(
    view: &Packet6,
    source: [u8; 4],
    destination: [u8; 4],
    option: &[u8],
    hops: u8,
    out: &mut Vec<u8>,
) -> Result<(), CrossFault>
    requires crossable { cross_cause view.now ≡ None }
    requires label { IsLabelOption V4 option.now }
    ensures ok { OnOk result
        (out.new.items ≡ packet_octets
        (crossed_with view.now source destination (Some option.now) hops)) }
    ensures too_long { (result ≡ Err CrossFault.TooLong) ↔
        (65535 < rebuilt_length (crossed_with view.now source destination (Some option.now) hops)) }
    ensures err { OnErr result (out.new.items ≡ []) }
{
    let fields = Fields4 {
        tos: view.class(),
        id: 0,
        flags_offset: DONT_FRAGMENT,
        hops,
        protocol: view.protocol(),
        source,
        destination,
    };
    let old = address_sum(&view.source(), &view.destination());
    let new = address_sum(&source, &destination);
    write_crossed4(&fields, option, view.payload(), old, new, out)
}

/// Writes a packet of IPv6 whose segment had addresses of another sum: first with the old checksum, which is then updated in
/// its place.
fn write_crossed6(
    fields: &Fields6,
    option: &[u8],
    segment: &[u8],
    old: u16,
    new: u16,
    out: &mut Vec<u8>,
) -> Result<(), CrossFault>
    requires whole { segment_minimum fields.now.protocol ≤ length segment.now }
    requires flow { fields.now.flow_label < 2 ^ 20 }
    requires label { IsLabelOption V6 option.now }
    ensures ok { OnOk result
        (out.new.items ≡ packet_octets
        (packet6 fields.now (Some option.now) []
        (crossed_segment fields.now.protocol old new segment.now))) }
    ensures too_long { (result ≡ Err CrossFault.TooLong) ↔
        (65535 < rebuilt_length
        (packet6 fields.now (Some option.now) []
        (crossed_segment fields.now.protocol old new segment.now))) }
    ensures err { OnErr result (out.new.items ≡ []) }
{
    match write6(fields, Some(option), segment, out) {
        Ok(()) => {
            update_segment(fields.protocol, segment, old, new, out);
            Ok(())
        }
        Err(Rebuild::TooLong) => Err(CrossFault::TooLong),
        Err(Rebuild::OutOfMemory) => Err(CrossFault::OutOfMemory),
        Err(Rebuild::NoRoom) => unreachable!(),
    }
}

/// The same of IPv4.
fn write_crossed4(
    fields: &Fields4,
    option: &[u8],
    segment: &[u8],
    old: u16,
    new: u16,
    out: &mut Vec<u8>,
) -> Result<(), CrossFault>
    requires whole { segment_minimum fields.now.protocol ≤ length segment.now }
    requires label { IsLabelOption V4 option.now }
    ensures ok { OnOk result
        (out.new.items ≡ packet_octets
        (packet4 fields.now (Some option.now) []
        (crossed_segment fields.now.protocol old new segment.now))) }
    ensures too_long { (result ≡ Err CrossFault.TooLong) ↔
        (65535 < rebuilt_length
        (packet4 fields.now (Some option.now) []
        (crossed_segment fields.now.protocol old new segment.now))) }
    ensures err { OnErr result (out.new.items ≡ []) }
{
    match write4(fields, Some(option), segment, out) {
        Ok(()) => {
            update_segment(fields.protocol, segment, old, new, out);
            Ok(())
        }
        Err(Rebuild::TooLong) => Err(CrossFault::TooLong),
        Err(Rebuild::OutOfMemory) => Err(CrossFault::OutOfMemory),
        Err(Rebuild::NoRoom) => unreachable!(),
    }
}
