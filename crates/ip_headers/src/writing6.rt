// A packet of IPv6 written.

ghost use Rattle.std.specs.Prelude.{◌≡◌, ◌↔◌, ◌+◌, ◌^◌, ◌<◌, ◌≤◌, ◌++◌, ◌==◌, [], None, Err, IfSome, is_some, length, OnOk, OnErr, if◌then◌else◌};
ghost use Rattle.std.specs.Option.{option_copied};
ghost use Rattle.ip_headers.specs.declared.version.Version.TheVariants.{V6};
ghost use Rattle.ip_headers.specs.Options.{has_any};
ghost use Rattle.ip_headers.specs.Fields.{packet6};
ghost use Rattle.ip_headers.specs.Written.{IsLabelOption, fixed6, packet_octets, rebuilt_length, rebuilt_room};
ghost use Rattle.ip_headers.specs.inside.Write.{IsWholeList, hop_of, hop_size, others_in};

use crate::fields::Fields6;
use crate::label::{label_size, push_label};
use crate::layout::{filled_size, gap_to, kept_size, push_kept, push_padding};
use crate::rebuild::Rebuild;
use crate::version::Version;
use std::alloc::AllocError;

/// The length of the Hop-by-Hop header; 0 where no option is written.
fn written_size(option: Option<&[u8]>, area: &[u8], has_others: bool) -> usize
    requires label { IfSome option (λ o. IsLabelOption V6 o.now) }
    requires whole { IsWholeList V6 area.now }
    requires small { length area.now < 65536 }
    requires others { has_others ≡ has_any (others_in V6 area.now) }
    ensures { result ≡ hop_size (option_copied option.entry) (others_in V6 area.now) }
{
    if option.is_none() && !has_others {
        return 0;
    }
    2 + filled_size(
        Version::V6,
        kept_size(Version::V6, area, label_size(option)),
    )
}

/// The same, which is the room that the packet needs.
fn room(
    fields: &Fields6,
    option: Option<&[u8]>,
    area: &[u8],
    has_others: bool,
    payload: &[u8],
) -> usize
    requires label { IfSome option (λ o. IsLabelOption V6 o.now) }
    requires whole { IsWholeList V6 area.now }
    requires small { length area.now < 65536 }
    requires others { has_others ≡ has_any (others_in V6 area.now) }
    ensures size { result ≡ hop_size (option_copied option.entry) (others_in V6 area.now) }
    ensures room { result ≡ rebuilt_room
        (packet6 fields.now (option_copied option.entry) (others_in V6 area.now) payload.now) }
    ensures length { rebuilt_length
        (packet6 fields.now (option_copied option.entry)
        (others_in V6 area.now) payload.now) ≡ result + length payload.now }
{
    written_size(option, area, has_others)
}

/// Writes the fixed fields, before so many octets of a Hop-by-Hop header.
fn push_fixed(
    fields: &Fields6,
    size: usize,
    payload: &[u8],
    out: &mut Vec<u8>,
) -> Result<(), AllocError>
    requires empty { out.old.items ≡ [] }
    requires flow { fields.now.flow_label < 2 ^ 20 }
    requires total { size + length payload.now ≤ 65535 }
    ensures octets { OnOk result
        (out.new.items ≡ fixed6 (packet6 fields.now None [] payload.now) size
        (if size == 0 then fields.now.protocol else 0)) }
    ensures long { OnOk result (length out.new.items ≡ 40) }
{
    let class = fields.class;
    let flow_low = ((fields.flow_label % 65536) as u16).to_be_bytes();
    let total = ((size + payload.len()) as u16).to_be_bytes();
    let next = if size == 0 { fields.protocol } else { 0 };
    out.extend_from_slice(&[
        96 + class / 16,
        16 * (class % 16) + (fields.flow_label / 65536) as u8,
        flow_low[0],
        flow_low[1],
        total[0],
        total[1],
        next,
        fields.hops,
    ])?;
    out.extend_from_slice(&fields.source)?;
    out.extend_from_slice(&fields.destination)
}

/// Writes the Hop-by-Hop header of so many octets; none where that is 0.
fn push_hop_by_hop(
    protocol: u8,
    option: Option<&[u8]>,
    area: &[u8],
    size: usize,
    out: &mut Vec<u8>,
) -> Result<(), AllocError>
    requires front { length out.old.items ≡ 40 }
    requires whole { IsWholeList V6 area.now }
    requires small { length area.now < 65536 }
    requires room { size ≤ 2048 }
    requires size { size ≡ hop_size (option_copied option) (others_in V6 area.now) }
    ensures { OnOk result
        (out.new.items ≡ out.old.items
        ++ hop_of protocol (option_copied option.entry) (others_in V6 area.now)) }
{
    if size == 0 {
        return Ok(());
    }
    out.push(protocol)?;
    out.push((size / 8 - 1) as u8)?;
    push_label(option, out)?;
    push_kept(Version::V6, area, out)?;
    push_padding(Version::V6, gap_to(8, 0, out.len()), out)
}

/// Writes the packet, whose Hop-by-Hop header has so many octets.
fn push6(
    fields: &Fields6,
    option: Option<&[u8]>,
    area: &[u8],
    payload: &[u8],
    size: usize,
    out: &mut Vec<u8>,
) -> Result<(), AllocError>
    requires empty { out.old.items ≡ [] }
    requires flow { fields.now.flow_label < 2 ^ 20 }
    requires whole { IsWholeList V6 area.now }
    requires small { length area.now < 65536 }
    requires room { size ≤ 2048 }
    requires total { size + length payload.now ≤ 65535 }
    requires size { size ≡ hop_size (option_copied option) (others_in V6 area.now) }
    ensures { OnOk result
        (out.new.items ≡ packet_octets
        (packet6 fields.now (option_copied option.entry) (others_in V6 area.now) payload.now)) }
{
    push_fixed(fields, size, payload, out)?;
    push_hop_by_hop(fields.protocol, option, area, size, out)?;
    out.extend_from_slice(payload)
}

/// Writes the packet with these fields, this label option or none, the other options of an old list, and this payload.
pub(crate) fn write6_with(
    fields: &Fields6,
    option: Option<&[u8]>,
    area: &[u8],
    has_others: bool,
    payload: &[u8],
    out: &mut Vec<u8>,
) -> Result<(), Rebuild>
    requires flow { fields.now.flow_label < 2 ^ 20 }
    requires label { IfSome option (λ o. IsLabelOption V6 o.now) }
    requires whole { IsWholeList V6 area.now }
    requires small { length area.now < 65536 }
    requires others { has_others ≡ has_any (others_in V6 area.now) }
    ensures ok { OnOk result
        (out.new.items ≡ packet_octets
        (packet6 fields.now (option_copied option.entry) (others_in V6 area.now) payload.now)) }
    ensures no_room { (result ≡ Err Rebuild.NoRoom) ↔
        (2048 < rebuilt_room
        (packet6 fields.now (option_copied option.entry) (others_in V6 area.now) payload.now)) }
    ensures too_long { (result ≡ Err Rebuild.TooLong) ↔
        ((rebuilt_room
        (packet6 fields.now (option_copied option.entry)
        (others_in V6 area.now) payload.now) ≤ 2048)
        ×
        (65535 < rebuilt_length
        (packet6 fields.now (option_copied option.entry)
        (others_in V6 area.now) payload.now))) }
    ensures err { OnErr result (out.new.items ≡ []) }
{
    out.clear();
    let size = room(fields, option, area, has_others, payload);
    if size > 2048 {
        return Err(Rebuild::NoRoom);
    }
    if payload.len() > 65535 - size {
        return Err(Rebuild::TooLong);
    }
    if push6(fields, option, area, payload, size, out).is_err() {
        out.clear();
        return Err(Rebuild::OutOfMemory);
    }
    Ok(())
}

/// Writes a packet of IPv6 with these fields, this label option or none, no other option, and this payload: `out` becomes
/// exactly that packet.
///
/// TooLong comes where the payload length passes 65,535. After an error `out` is empty.
#[tactic(auto, unfolding(crate::specs::Options::options_within))]
pub fn write6(
    fields: &Fields6,
    option: Option<&[u8]>,
    payload: &[u8],
    out: &mut Vec<u8>,
) -> Result<(), Rebuild>
    requires flow { fields.now.flow_label < 2 ^ 20 }
    requires label { IfSome option (λ o. IsLabelOption V6 o.now) }
    ensures ok { OnOk result
        (out.new.items ≡ packet_octets
        (packet6 fields.now (option_copied option.entry) [] payload.now)) }
    ensures no_room { (result ≡ Err Rebuild.NoRoom) ↔
        (2048 < rebuilt_room (packet6 fields.now (option_copied option.entry) [] payload.now)) }
    ensures too_long { (result ≡ Err Rebuild.TooLong) ↔
        ((rebuilt_room (packet6 fields.now (option_copied option.entry) [] payload.now) ≤ 2048)
        ×
        (65535 < rebuilt_length
        (packet6 fields.now (option_copied option.entry) [] payload.now))) }
    ensures err { OnErr result (out.new.items ≡ []) }
{
    write6_with(fields, option, &[], false, payload, out)
}
