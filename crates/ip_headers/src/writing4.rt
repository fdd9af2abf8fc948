// A packet of IPv4 written.

ghost use Rattle.std.specs.Prelude.{◌≡◌, ◌↔◌, ◌+◌, ◌-◌, ◌^◌, ◌<◌, slice_set, ◌≤◌, ◌++◌, [], None, Err, IfSome, length, OnOk, OnErr};
ghost use Rattle.std.specs.Option.{option_copied};
ghost use Rattle.ip_headers.specs.declared.version.Version.TheVariants.{V4};
ghost use Rattle.ip_headers.specs.Sum.{ones_sum};
ghost use Rattle.ip_headers.specs.Fields.{packet4};
ghost use Rattle.ip_headers.specs.Swapped.{IsWholeOption};
ghost use Rattle.ip_headers.specs.Written.{IsLabelOption, fixed4, header4, option_area, packet_octets, rebuilt_length, rebuilt_room};
ghost use Rattle.ip_headers.specs.inside.Write.{IsWholeList, others_in, put_checksum4};

use crate::fields::Fields4;
use crate::label::{label_size, push_label};
use crate::layout::{filled_size, gap_to, kept_size, push_kept, push_padding};
use crate::rebuild::Rebuild;
use crate::sum::ones_sum;
use crate::version::Version;
use std::alloc::AllocError;

/// The fixed fields with a checksum of 0, before so many octets of options.
fn fixed(fields: &Fields4, size: usize, payload: &[u8]) -> [u8; 20]
    requires room { size ≤ 40 }
    requires total { 20 + size + length payload.now ≤ 65535 }
    ensures { result ≡ fixed4 (packet4 fields.now None [] payload.now) size 0 }
{
    let total = ((20 + size + payload.len()) as u16).to_be_bytes();
    let id = fields.id.to_be_bytes();
    let flags_offset = fields.flags_offset.to_be_bytes();
    let source = fields.source;
    let destination = fields.destination;
    [
        64 + ((20 + size) / 4) as u8,
        fields.tos,
        total[0],
        total[1],
        id[0],
        id[1],
        flags_offset[0],
        flags_offset[1],
        fields.hops,
        fields.protocol,
        0,
        0,
        source[0],
        source[1],
        source[2],
        source[3],
        destination[0],
        destination[1],
        destination[2],
        destination[3],
    ]
}

/// Writes the header with a checksum of 0; it has so many octets of options.
fn push_header(
    fields: &Fields4,
    option: Option<&[u8]>,
    area: &[u8],
    payload: &[u8],
    size: usize,
    out: &mut Vec<u8>,
) -> Result<(), AllocError>
    requires empty { out.old.items ≡ [] }
    requires whole { IsWholeList V4 area.now }
    requires small { length area.now < 65536 }
    requires room { size ≤ 40 }
    requires total { 20 + size + length payload.now ≤ 65535 }
    requires size { size ≡ length
        (option_area
        (packet4 fields.now (option_copied option) (others_in V4 area.now) payload.now)) }
    ensures { OnOk result
        (out.new.items ≡ header4
        (packet4 fields.now (option_copied option.entry)
        (others_in V4 area.now) payload.now) 0) }
{
    out.extend_from_slice(&fixed(fields, size, payload))?;
    push_label(option, out)?;
    push_kept(Version::V4, area, out)?;
    push_padding(Version::V4, gap_to(4, 0, out.len()), out)
}

/// Writes the checksum into a header that has 0 there.
fn put_checksum(out: &mut Vec<u8>)
    requires { 20 ≤ length out.old.items }
    ensures { out.new.items ≡ put_checksum4 out.old.items }
{
    let checksum = (65535 - ones_sum(out)).to_be_bytes();
    out[10] = checksum[0];
    out[11] = checksum[1];
}

/// Writes the packet, whose header has so many octets of options.
fn push4(
    fields: &Fields4,
    option: Option<&[u8]>,
    area: &[u8],
    payload: &[u8],
    size: usize,
    out: &mut Vec<u8>,
) -> Result<(), AllocError>
    requires empty { out.old.items ≡ [] }
    requires whole { IsWholeList V4 area.now }
    requires small { length area.now < 65536 }
    requires room { size ≤ 40 }
    requires total { 20 + size + length payload.now ≤ 65535 }
    requires size { size ≡ length
        (option_area
        (packet4 fields.now (option_copied option) (others_in V4 area.now) payload.now)) }
    ensures { OnOk result
        (out.new.items ≡ packet_octets
        (packet4 fields.now (option_copied option.entry) (others_in V4 area.now) payload.now)) }
{
    push_header(fields, option, area, payload, size, out)?;
    put_checksum(out);
    out.extend_from_slice(payload)
}

/// How long the options are, without the padding after them and with it.
fn sizes(fields: &Fields4, option: Option<&[u8]>, area: &[u8], payload: &[u8]) -> (usize, usize)
    requires option { IfSome option (λ o. IsWholeOption o.now) }
    requires whole { IsWholeList V4 area.now }
    requires small { length area.now < 65536 }
    ensures room { result.0 ≡ rebuilt_room
        (packet4 fields.now (option_copied option.entry) (others_in V4 area.now) payload.now) }
    ensures area { result.1 ≡ length
        (option_area
        (packet4 fields.now (option_copied option.entry) (others_in V4 area.now) payload.now)) }
    ensures length { rebuilt_length
        (packet4 fields.now (option_copied option.entry)
        (others_in V4 area.now) payload.now) ≡ 20 + result.1 + length payload.now }
    ensures near { result.1 < result.0 + 4 }
{
    let kept = kept_size(Version::V4, area, label_size(option));
    (kept, filled_size(Version::V4, kept))
}

/// Writes the packet with these fields, this option first or none, the other options of an old list, and this payload.
pub(crate) fn write4_with(
    fields: &Fields4,
    option: Option<&[u8]>,
    area: &[u8],
    payload: &[u8],
    out: &mut Vec<u8>,
) -> Result<(), Rebuild>
    requires option { IfSome option (λ o. IsWholeOption o.now) }
    requires whole { IsWholeList V4 area.now }
    requires small { length area.now < 65536 }
    ensures ok { OnOk result
        (out.new.items ≡ packet_octets
        (packet4 fields.now (option_copied option.entry) (others_in V4 area.now) payload.now)) }
    ensures no_room { (result ≡ Err Rebuild.NoRoom) ↔
        (40 < rebuilt_room
        (packet4 fields.now (option_copied option.entry) (others_in V4 area.now) payload.now)) }
    ensures too_long { (result ≡ Err Rebuild.TooLong) ↔
        ((rebuilt_room
        (packet4 fields.now (option_copied option.entry)
        (others_in V4 area.now) payload.now) ≤ 40)
        ×
        (65535 < rebuilt_length
        (packet4 fields.now (option_copied option.entry)
        (others_in V4 area.now) payload.now))) }
    ensures err { OnErr result (out.new.items ≡ []) }
{
    out.clear();
    let (kept, size) = sizes(fields, option, area, payload);
    if kept > 40 {
        return Err(Rebuild::NoRoom);
    }
    if payload.len() > 65535 - 20 - size {
        return Err(Rebuild::TooLong);
    }
    if push4(fields, option, area, payload, size, out).is_err() {
        out.clear();
        return Err(Rebuild::OutOfMemory);
    }
    Ok(())
}

/// Writes a packet of IPv4 with these fields, this label option or none, no other option, and this payload: `out` becomes
/// exactly that packet.
///
/// TooLong comes where the total length passes 65,535. After an error `out` is empty.
#[tactic(auto, unfolding(crate::specs::Options::options_within))]
pub fn write4(
    fields: &Fields4,
    option: Option<&[u8]>,
    payload: &[u8],
    out: &mut Vec<u8>,
) -> Result<(), Rebuild>
    requires { IfSome option (λ o. IsLabelOption V4 o.now) }
    ensures ok { OnOk result
        (out.new.items ≡ packet_octets
        (packet4 fields.now (option_copied option.entry) [] payload.now)) }
    ensures no_room { (result ≡ Err Rebuild.NoRoom) ↔
        (40 < rebuilt_room (packet4 fields.now (option_copied option.entry) [] payload.now)) }
    ensures too_long { (result ≡ Err Rebuild.TooLong) ↔
        ((rebuilt_room (packet4 fields.now (option_copied option.entry) [] payload.now) ≤ 40)
        ×
        (65535 < rebuilt_length
        (packet4 fields.now (option_copied option.entry) [] payload.now))) }
    ensures err { OnErr result (out.new.items ≡ []) }
{
    write4_with(fields, option, &[], payload, out)
}
