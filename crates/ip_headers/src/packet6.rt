// A packet of IPv6 (RFC 8200, section 3):
//
//     0        1        2        3
//     version, class    flow label
//     payload length    next     hops
//     source
//     destination
//
// Next header 0 says that a Hop-by-Hop Options header follows (section 4.3): the next header after it, its
// length in units of 8 octets without the first, and the options.

ghost use Rattle.std.specs.Prelude.{◌≡◌, ℕ, List, Option, ◌↔◌, ◌^◌, ◌<◌, ◌≤◌, [], length, IsTrue, IfSome, IfOk, IfErr, OnOk, OnErr, None, Some, Err};
ghost use Rattle.std.specs.Option.{option_copied, option_map};
ghost use Rattle.ip_headers.specs.declared.version.Version.TheVariants.{V6};
ghost use Rattle.ip_headers.specs.Options.{has_any};
ghost use Rattle.ip_headers.specs.Header6.{has_hop_by_hop, hop_by_hop_length, fixed_fault6};
ghost use Rattle.ip_headers.specs.Reading.{packet_of, front_of};
ghost use Rattle.ip_headers.specs.Fields.{packet6};
ghost use Rattle.ip_headers.specs.inside.View.{IsSplit};
ghost use Rattle.ip_headers.specs.inside.Write.{IsWholeList, others_in};
ghost use Rattle.ip_headers.specs.Written.{IsLabelOption, packet_octets, rewritten, rebuilt_room, rebuilt_length};

use crate::fault::{HeadFault, HeadKind, fault};
use crate::fields::Fields6;
use crate::parts::{Parts, front, read};
use crate::rebuild::Rebuild;
use crate::version::Version;
use crate::walk::option_octets;
use crate::writing6::write6_with;
use mls_label::u16_at;
use std::marker::Model;

/// A packet of IPv6, borrowed from its octets. Contracts see what it says: a `ParsedPacket`, whose label option is octets.
#[derive(Debug, Drop)]
pub struct Packet6<'a> {
    parts: Parts<'a>,
}

impl<'a> Model for Packet6<'a> {
    ghost use Rattle.ip_headers.specs.Options.{Placed};
    ghost use Rattle.ip_headers.specs.Packet.{ParsedPacket};

    ghost Value = { ParsedPacket Placed };

    ghost use Rattle.ip_headers.specs.declared.version.Version.TheVariants.{V6};
    ghost use Rattle.ip_headers.specs.inside.View.{view_of, Holds};

    ghost view = { λ p. view_of V6 p.parts };

    ghost invariant = { λ p. Holds V6 p.parts };
}

impl<'a> Packet6<'a> {
    /// The traffic class.
    pub fn class(&self) -> u8
        ensures { result ≡ self.now.class }
    {
        16 * (self.parts.head[0] % 16) + self.parts.head[1] / 16
    }

    /// The flow label, of 20 bits.
    pub fn flow_label(&self) -> u32
        ensures value { result ≡ self.now.flow_label }
        ensures small { result < 2 ^ 20 }
    {
        65536 * u32::from(self.parts.head[1] % 16) + u32::from(u16_at(self.parts.head, 2))
    }

    /// The number of hops that are left: the hop limit.
    pub fn hops(&self) -> u8
        ensures { result ≡ self.now.hops }
    {
        self.parts.head[7]
    }

    /// The protocol of the payload: the next header after Hop-by-Hop.
    pub fn protocol(&self) -> u8
        ensures { result ≡ self.now.protocol }
    {
        if self.parts.head[6] == 0 {
            return self.parts.head[40];
        }
        self.parts.head[6]
    }

    /// The address of the sender.
    pub fn source(&self) -> [u8; 16]
        ensures { result ≡ self.now.source }
    {
        let mut address = [0; 16];
        address.copy_from_slice(&self.parts.head[8..24]);
        address
    }

    /// The address of the receiver.
    pub fn destination(&self) -> [u8; 16]
        ensures { result ≡ self.now.destination }
    {
        let mut address = [0; 16];
        address.copy_from_slice(&self.parts.head[24..40]);
        address
    }

    /// What follows Hop-by-Hop, up to the payload length.
    pub fn payload(&self) -> &'a [u8]
        ensures value { result.now ≡ self.now.payload }
        ensures short { length result.now ≤ 65535 }
        ensures version { self.now.version ≡ V6 }
    {
        self.parts.payload
    }

    /// The first label option with its octet in the packet.
    pub fn label_option(&self) -> Option<(usize, &'a [u8])>
        ensures { option_map
            (λ x. record { place = x.0; octets = x.1.now }) result ≡ self.now.label }
    {
        self.parts.label
    }

    /// Whether there is an option that is neither padding nor a label option.
    pub fn has_others(&self) -> bool
        ensures value { result ≡ has_any self.now.others }
        ensures any { IsTrue result ↔ (0 < length self.now.others) }
    {
        self.parts.has_others
    }

    /// The fields that are written as they are, with these hops.
    fn fields(&self, hops: u8) -> Fields6
        ensures value { (option : Option (List ℕ))
            → packet6 result option self.now.others self.now.payload
            ≡ rewritten self.now option hops }
        ensures small { result.flow_label < 2 ^ 20 }
    {
        let _ = &self.parts;
        Fields6 {
            class: self.class(),
            flow_label: self.flow_label(),
            hops,
            protocol: self.protocol(),
            source: self.source(),
            destination: self.destination(),
        }
    }

    /// The octets of the list of options.
    fn options(&self) -> &'a [u8]
        ensures whole { IsWholeList V6 result.now }
        ensures others { others_in V6 result.now ≡ self.now.others }
        ensures short { length result.now < 65536 }
    {
        if !self.parts.has_others {
            return &self.parts.head[..0];
        }
        option_octets(Version::V6, self.parts.head)
    }
}

/// The length of the Hop-by-Hop header, 0 where there is none.
fn hop_by_hop_size(bytes: &[u8]) -> usize
    requires fixed { 40 ≤ length bytes.now }
    requires follows { IsTrue (has_hop_by_hop bytes.now) → 41 < length bytes.now }
    ensures { result ≡ hop_by_hop_length bytes.now }
{
    if bytes[6] != 0 {
        return 0;
    }
    (usize::from(bytes[41]) + 1) * 8
}

/// The headers and the payload, where the fields are right that stand before the options.
#[tactic(auto, unfolding(crate::specs::Header6::fixed_fault6))]
pub(crate) fn split6(bytes: &[u8]) -> Result<(&[u8], &[u8]), HeadFault>
    ensures ok { IfOk result (λ x. IsSplit V6 bytes.now x.0.now x.1.now) }
    ensures err { IfErr result (λ fault. fixed_fault6 bytes.now ≡ Some fault) }
{
    let length = bytes.len();
    if length < 40 {
        return Err(fault(length, HeadKind::Short));
    }
    if bytes[0] / 16 != 6 {
        return Err(fault(0, HeadKind::Version));
    }
    let size = usize::from(u16_at(bytes, 4));
    if length - 40 < size {
        return Err(fault(4, HeadKind::TotalLength));
    }
    if bytes[6] == 0 && size < 8 {
        return Err(fault(4, HeadKind::TotalLength));
    }
    let header = hop_by_hop_size(bytes);
    if size < header {
        return Err(fault(41, HeadKind::HeaderLength));
    }
    Ok((&bytes[..40 + header], &bytes[40 + header..40 + size]))
}

/// Reads the packet at the front of the octets: what follows its payload length is ignored.
///
/// An error is the first test that fails, with its octet: Short, Version, TotalLength, HeaderLength,
/// OptionList for the whole list of options, Jumbo, and then SecondLabel (RFC 8200, sections 3 and 4.3).
pub fn read6(bytes: &[u8]) -> Result<Packet6<'_>, HeadFault>
    ensures { result ≡ packet_of V6 bytes.now }
{
    let parts = read(Version::V6, bytes)?;
    Ok(Packet6 { parts })
}

/// Reads as `read6` does, but allows a second label option.
pub fn front6(bytes: &[u8]) -> Result<Packet6<'_>, HeadFault>
    ensures { result ≡ front_of V6 bytes.now }
{
    let parts = front(Version::V6, bytes)?;
    Ok(Packet6 { parts })
}

/// Writes the packet with this label option, or none, and these hops: `out` becomes exactly that packet.
/// Padding goes; each other option stays, in its order, at the first free octet with its old place modulo 8.
///
/// NoRoom comes where the Hop-by-Hop header passes 2,048 octets, else TooLong where the payload length passes
/// 65,535. After an error `out` is empty.
pub fn rebuild6(
    view: &Packet6,
    option: Option<&[u8]>,
    hops: u8,
    out: &mut Vec<u8>,
) -> Result<(), Rebuild>
    requires { IfSome option (λ o. IsLabelOption V6 o.now) }
    ensures ok { OnOk result
        (out.new.items ≡ packet_octets (rewritten view.now (option_copied option.entry) hops)) }
    ensures no_room { (result ≡ Err Rebuild.NoRoom) ↔
        (2048 < rebuilt_room (rewritten view.now (option_copied option.entry) hops)) }
    ensures too_long { (result ≡ Err Rebuild.TooLong) ↔
        ((rebuilt_room (rewritten view.now (option_copied option.entry) hops) ≤ 2048)
        × (65535 < rebuilt_length (rewritten view.now (option_copied option.entry) hops))) }
    ensures err { OnErr result (out.new.items ≡ []) }
{
    write6_with(
        &view.fields(hops),
        option,
        view.options(),
        view.has_others(),
        view.payload(),
        out,
    )
}
