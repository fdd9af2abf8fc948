// A packet of IPv4 (RFC 791, section 3.1):
//
//     0        1        2        3
//     version  type of  total length
//     and IHL  service
//     identification    flags and offset
//     hops     protocol checksum
//     source
//     destination
//     options, to IHL x 4 octets, and then the payload

ghost use Rattle.std.specs.Prelude.{◌≡◌, ℕ, List, Option, ◌↔◌, ◌<◌, ◌≤◌, [], length, IsTrue, IfSome, IfOk, IfErr, OnOk, OnErr, None, Some, Err};
ghost use Rattle.std.specs.Option.{option_copied, option_map};
ghost use Rattle.ip_headers.specs.declared.version.Version.TheVariants.{V4};
ghost use Rattle.ip_headers.specs.Header4.{fixed_fault4};
ghost use Rattle.ip_headers.specs.Options.{is_other_type};
ghost use Rattle.ip_headers.specs.Reading.{packet_of, front_of};
ghost use Rattle.ip_headers.specs.Fields.{packet4};
ghost use Rattle.ip_headers.specs.Swapped.{IsWholeOption, first_of_kind, second_of_kind, swapped_kind};
ghost use Rattle.ip_headers.specs.inside.View.{IsSplit};
ghost use Rattle.ip_headers.specs.inside.Write.{IsWholeList, others_in};
ghost use Rattle.ip_headers.specs.Written.{IsLabelOption, packet_octets, rewritten, rebuilt_room, rebuilt_length};

use crate::fault::{HeadFault, HeadKind, fault};
use crate::fields::Fields4;
use crate::one_kind::{copy_without, find_kind};
use crate::parts::{Parts, front, read};
use crate::rebuild::Rebuild;
use crate::sum::ones_sum;
use crate::version::Version;
use crate::writing4::write4_with;
use arrayvec::ArrayVec;
use mls_label::u16_at;
use std::marker::Model;

/// A packet of IPv4, borrowed from its octets. Contracts see what it says: a `ParsedPacket`, whose label option is octets.
#[derive(Debug, Drop)]
pub struct Packet4<'a> {
    parts: Parts<'a>,
}

impl<'a> Model for Packet4<'a> {
    ghost use Rattle.ip_headers.specs.Options.{Placed};
    ghost use Rattle.ip_headers.specs.Packet.{ParsedPacket};

    ghost Value = { ParsedPacket Placed };

    ghost use Rattle.ip_headers.specs.declared.version.Version.TheVariants.{V4};
    ghost use Rattle.ip_headers.specs.inside.View.{view_of, Holds};

    ghost view = { λ p. view_of V4 p.parts };

    ghost invariant = { λ p. Holds V4 p.parts };
}

impl<'a> Packet4<'a> {
    /// The type of service.
    pub fn tos(&self) -> u8
        ensures { result ≡ self.now.class }
    {
        self.parts.head[1]
    }

    /// The identification.
    pub fn id(&self) -> u16
        ensures { result ≡ self.now.identification }
    {
        u16_at(self.parts.head, 4)
    }

    /// The flags, and the fragment offset in the low thirteen bits.
    pub fn flags_offset(&self) -> u16
        ensures { result ≡ self.now.flags_offset }
    {
        u16_at(self.parts.head, 6)
    }

    /// The number of hops that are left: time to live.
    pub fn hops(&self) -> u8
        ensures { result ≡ self.now.hops }
    {
        self.parts.head[8]
    }

    /// The protocol of the payload.
    pub fn protocol(&self) -> u8
        ensures { result ≡ self.now.protocol }
    {
        self.parts.head[9]
    }

    /// The address of the sender.
    pub fn source(&self) -> [u8; 4]
        ensures { result ≡ self.now.source }
    {
        let mut address = [0; 4];
        address.copy_from_slice(&self.parts.head[12..16]);
        address
    }

    /// The address of the receiver.
    pub fn destination(&self) -> [u8; 4]
        ensures { result ≡ self.now.destination }
    {
        let mut address = [0; 4];
        address.copy_from_slice(&self.parts.head[16..20]);
        address
    }

    /// The payload, up to the total length.
    pub fn payload(&self) -> &'a [u8]
        ensures value { result.now ≡ self.now.payload }
        ensures short { length result.now ≤ 65535 }
        ensures version { self.now.version ≡ V4 }
    {
        self.parts.payload
    }

    /// The first label option with its octet in the packet.
    pub fn label_option(&self) -> Option<(usize, &'a [u8])>
        ensures { option_map
            (λ x. record { place = x.0; octets = x.1.now }) result ≡ self.now.label }
    {
        self.parts.label
    }

    /// Whether there is an option that is neither padding nor a label option.
    pub fn has_others(&self) -> bool
        ensures { IsTrue result ↔ (0 < length self.now.others) }
    {
        self.parts.has_others
    }

    /// The first option of this type with its octet in the packet, and the octet of the second. The type is neither 0
    /// nor 1, which are padding, nor that of a label option.
    pub fn others(&self, kind: u8) -> (Option<(usize, &'a [u8])>, Option<usize>)
        requires { IsTrue (is_other_type V4 kind) }
        ensures first { option_map
            (λ x. record { place = x.0; octets = x.1.now }) result.0 ≡ first_of_kind kind self.now }
        ensures second { result.1 ≡ second_of_kind kind self.now }
    {
        find_kind(self.options(), kind)
    }

    /// The fields that are written as they are, with these hops.
    fn fields(&self, hops: u8) -> Fields4
        ensures { (option : Option (List ℕ))
            → packet4 result option self.now.others self.now.payload
            ≡ rewritten self.now option hops }
    {
        let _ = &self.parts;
        Fields4 {
            tos: self.tos(),
            id: self.id(),
            flags_offset: self.flags_offset(),
            hops,
            protocol: self.protocol(),
            source: self.source(),
            destination: self.destination(),
        }
    }

    /// The octets of the list of options; none where none is kept, so that no list has to be gone over then.
    fn options(&self) -> &'a [u8]
        ensures whole { IsWholeList V4 result.now }
        ensures others { others_in V4 result.now ≡ self.now.others }
        ensures short { length result.now < 65536 }
    {
        if !self.parts.has_others {
            return &self.parts.head[..0];
        }
        &self.parts.head[20..]
    }
}

/// The header and the payload, where the fields are right that stand before the options.
#[tactic(auto, unfolding(crate::specs::Header4::fixed_fault4))]
#[inline(always)]
pub(crate) fn split4(bytes: &[u8]) -> Result<(&[u8], &[u8]), HeadFault>
    ensures ok { IfOk result (λ x. IsSplit V4 bytes.now x.0.now x.1.now) }
    ensures err { IfErr result (λ fault. fixed_fault4 bytes.now ≡ Some fault) }
{
    let size = bytes.len();
    if size < 20 {
        return Err(fault(size, HeadKind::Short));
    }
    if bytes[0] / 16 != 4 {
        return Err(fault(0, HeadKind::Version));
    }
    let header = 4 * usize::from(bytes[0] % 16);
    if header < 20 {
        return Err(fault(0, HeadKind::HeaderLength));
    }
    let total = usize::from(u16_at(bytes, 2));
    if total < header || size < total {
        return Err(fault(2, HeadKind::TotalLength));
    }
    if ones_sum(&bytes[..header]) != 0xFFFF {
        return Err(fault(10, HeadKind::Checksum));
    }
    Ok((&bytes[..header], &bytes[header..total]))
}

/// Reads the packet at the front of the octets: what follows its total length is ignored.
///
/// An error is the first test that fails, with its octet: Short, Version, HeaderLength, TotalLength,
/// Checksum, OptionList for the whole list of options, and then SecondLabel (RFC 791, section 3.1).
pub fn read4(bytes: &[u8]) -> Result<Packet4<'_>, HeadFault>
    ensures { result ≡ packet_of V4 bytes.now }
{
    let parts = read(Version::V4, bytes)?;
    Ok(Packet4 { parts })
}

/// Reads as `read4` does, but allows a second label option.
pub fn front4(bytes: &[u8]) -> Result<Packet4<'_>, HeadFault>
    ensures { result ≡ front_of V4 bytes.now }
{
    let parts = front(Version::V4, bytes)?;
    Ok(Packet4 { parts })
}

/// Writes the packet with this label option, or none, and these hops: `out` becomes exactly that packet.
/// Padding goes; each other option stays, in its order.
///
/// NoRoom comes where the options pass 40 octets, else TooLong where the total length passes 65,535. After
/// an error `out` is empty.
pub fn rebuild4(
    view: &Packet4,
    option: Option<&[u8]>,
    hops: u8,
    out: &mut Vec<u8>,
) -> Result<(), Rebuild>
    requires { IfSome option (λ o. IsLabelOption V4 o.now) }
    ensures ok { OnOk result
        (out.new.items ≡ packet_octets (rewritten view.now (option_copied option.entry) hops)) }
    ensures no_room { (result ≡ Err Rebuild.NoRoom) ↔
        (40 < rebuilt_room (rewritten view.now (option_copied option.entry) hops)) }
    ensures too_long { (result ≡ Err Rebuild.TooLong) ↔
        ((rebuilt_room (rewritten view.now (option_copied option.entry) hops) ≤ 40)
        × (65535 < rebuilt_length (rewritten view.now (option_copied option.entry) hops))) }
    ensures err { OnErr result (out.new.items ≡ []) }
{
    write4_with(
        &view.fields(hops),
        option,
        view.options(),
        view.payload(),
        out,
    )
}

/// Writes the packet with this option in place of its label option and of its options of this type: `out` becomes
/// exactly that packet. The option comes first, and each option that is left stays, in its order; padding goes, and the
/// hops stay.
///
/// NoRoom comes where the options pass 40 octets, else TooLong where the total length passes 65,535. After
/// an error `out` is empty.
pub fn rebuild_swap4(
    view: &Packet4,
    kind: u8,
    option: &[u8],
    out: &mut Vec<u8>,
) -> Result<(), Rebuild>
    requires { IsWholeOption option.now }
    ensures ok { OnOk result
        (out.new.items ≡ packet_octets (swapped_kind kind option.now view.now)) }
    ensures no_room { (result ≡ Err Rebuild.NoRoom) ↔
        (40 < rebuilt_room (swapped_kind kind option.now view.now)) }
    ensures too_long { (result ≡ Err Rebuild.TooLong) ↔
        ((rebuilt_room (swapped_kind kind option.now view.now) ≤ 40)
        × (65535 < rebuilt_length (swapped_kind kind option.now view.now))) }
    ensures err { OnErr result (out.new.items ≡ []) }
{
    out.clear();
    let fields = view.fields(view.hops());
    let mut others: ArrayVec<u8, 40> = ArrayVec::new();
    copy_without(view.options(), kind, &mut others)?;
    write4_with(&fields, Some(option), &others, view.payload(), out)
}
