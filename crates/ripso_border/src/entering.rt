//! Packets that come in: option 130 becomes a CIPSO option.

ghost use Rattle.std.specs.Prelude.{◌≡◌, ◌<◌, [], Some, None, Ok, Err, OnOk, IfErr};
ghost use Rattle.std.specs.Option.{option_map};
ghost use Rattle.mls_label.specs.Label.{IsLabel};
ghost use Rattle.cipso_tags.specs.Text.{first_tag_of};
ghost use Rattle.doi_table.specs.Translation.{local_label};
ghost use Rattle.ip_headers.specs.declared.version.Version.TheVariants.{V4};
ghost use Rattle.ip_headers.specs.Options.{Placed};
ghost use Rattle.packet_label.specs.declared.denial.Denial.TheVariants.{Inexpressible};
ghost use Rattle.packet_label.specs.Packet.{IsOfItsVersion, headers_of, label_place};
ghost use Rattle.label_send.specs.Answer.{Answers, packet_alone};
ghost use Rattle.ripso_border.specs.Options.{ripso_options};
ghost use Rattle.ripso_border.specs.In.{border_in, in_version, in_unless};
ghost use Rattle.ripso_border.specs.inside.Steps.{lent, said_in, local_of, IsTagged, IsLocalOption, ArePlaced};

use crate::border::Border;
use crate::swap::{RIPSO, denied, swap};
use arrayvec::ArrayVec;
use cipso_option::{first_tag, write_cipso};
use doi_table::{DoiDef, Unmapped, to_local_into};
use ip_headers::Packet4;
use label_receive::Room;
use mls_label::Label;
use packet_label::{Denial, Packet, Stop, label_at};
use ripso_option::read_ripso_into;

/// Writes what becomes of a packet that comes in. After a stop `out` is empty; the labels of the room may be any.
pub(crate) fn cross_in(
    border: &Border<'_>,
    octets: &[u8],
    room: &mut Room,
    out: &mut Vec<u8>,
) -> Result<(), Stop>
    requires { 0 < border.now.doi }
    ensures { Answers packet_alone
        (border_in border.now.definition.now border.now.doi (Some octets.now))
        result out.new.items }
{
    // Lent from where it was read: to move it out would copy it.
    let read = label_at(octets);
    match &read {
        Ok((packet, place)) => enter(border, packet, *place, room, out),
        Err(fault) => Err(denied(Denial::BadHeader { octet: fault.octet }, out)),
    }
}

/// The same of a packet that was read, whose label option, if it has one, stands here.
fn enter(
    border: &Border<'_>,
    packet: &Packet<'_>,
    place: Option<usize>,
    room: &mut Room,
    out: &mut Vec<u8>,
) -> Result<(), Stop>
    requires doi { 0 < border.now.doi }
    requires version { IsOfItsVersion packet.now }
    requires place { place ≡ label_place packet.now }
    requires placed { (headers_of packet.now).version ≡ V4
        → ArePlaced (headers_of packet.now).others }
    ensures { Answers packet_alone
        (in_version border.now.definition.now border.now.doi
        (headers_of packet.now) (headers_of packet.now).version)
        result out.new.items }
{
    if let Packet::V4(view) = packet {
        return enter_four(border, view, place, room, out);
    }
    Err(denied(Denial::WrongVersion, out))
}

/// The same of a packet of IPv4.
fn enter_four(
    border: &Border<'_>,
    view: &Packet4<'_>,
    place: Option<usize>,
    room: &mut Room,
    out: &mut Vec<u8>,
) -> Result<(), Stop>
    requires doi { 0 < border.now.doi }
    requires version { view.now.version ≡ V4 }
    requires place { place ≡ option_map (λ (o : Placed). o.place) view.now.label }
    requires placed { ArePlaced view.now.others }
    ensures { Answers packet_alone
        (in_unless border.now.definition.now border.now.doi view.now view.now.label)
        result out.new.items }
{
    let mut option: ArrayVec<u8, 40> = ArrayVec::new();
    match local_option(border, view, place, room, &mut option) {
        Ok(()) => swap(view, &option, out),
        Err(why) => Err(denied(why, out)),
    }
}

/// The CIPSO option that a packet gets.
fn local_option(
    border: &Border<'_>,
    view: &Packet4<'_>,
    place: Option<usize>,
    room: &mut Room,
    option: &mut ArrayVec<u8, 40>,
) -> Result<(), Denial>
    requires doi { 0 < border.now.doi }
    requires place { place ≡ option_map (λ (o : Placed). o.place) view.now.label }
    requires placed { ArePlaced view.now.others }
    requires empty { option.old.items ≡ [] }
    ensures ok { OnOk result
        (IsLocalOption border.now.definition.now border.now.doi view.now option.new.items) }
    ensures err { IfErr result (λ why.
        in_unless border.now.definition.now border.now.doi view.now view.now.label ≡ Err why) }
{
    if let Some(octet) = place {
        return Err(Denial::AlreadyLabelled { octet });
    }
    match option_said(view, &mut room.wire) {
        Ok(()) => option_for(border, view, room, option),
        Err(why) => Err(why),
    }
}

/// The CIPSO option for what option 130 says.
fn option_for(
    border: &Border<'_>,
    view: &Packet4<'_>,
    room: &mut Room,
    option: &mut ArrayVec<u8, 40>,
) -> Result<(), Denial>
    requires doi { 0 < border.now.doi }
    requires free { view.now.label ≡ None }
    requires said { said_in (ripso_options view.now.others) ≡ Ok room.old.wire }
    requires empty { option.old.items ≡ [] }
    ensures ok { OnOk result
        (IsLocalOption border.now.definition.now border.now.doi view.now option.new.items) }
    ensures err { IfErr result (λ why.
        in_unless border.now.definition.now border.now.doi view.now view.now.label ≡ Err why) }
{
    let _ = view;
    match translate(border.definition, &room.wire, &mut room.local) {
        Ok(()) => match write_option(border.definition, border.doi, &room.local, option) {
            Ok(()) => Ok(()),
            Err(why) => Err(why),
        },
        Err(why) => Err(why),
    }
}

/// What the only option 130 of a packet says. The lent label is as it was, where there is none.
fn option_said(view: &Packet4<'_>, wire: &mut Label) -> Result<(), Denial>
    requires { ArePlaced view.now.others }
    ensures { said_in (ripso_options view.now.others) ≡ lent wire.new result }
{
    let (first, second) = view.others(RIPSO);
    let Some((place, option)) = first else {
        return Err(Denial::Unlabelled);
    };
    if let Some(octet) = second {
        return Err(Denial::BadOption { octet });
    }
    match read_ripso_into(option, wire) {
        Ok(_) => Ok(()),
        Err(fault) => Err(Denial::BadOption {
            octet: place + fault.octet,
        }),
    }
}

/// A label of the wire in the border's own numbers.
fn translate(definition: &DoiDef, wire: &Label, local: &mut Label) -> Result<(), Denial>
    ensures { local_of (local_label definition.now wire.now) ≡ lent local.new result }
{
    match to_local_into(definition, wire, local) {
        Ok(()) => Ok(()),
        Err(Unmapped::Level) => Err(Denial::LevelUnmapped),
        Err(Unmapped::Category(category)) => Err(Denial::CategoryUnmapped { category }),
    }
}

/// The CIPSO option of a label, in the first tag of the definition that can say it.
fn write_option(
    definition: &DoiDef,
    doi: u32,
    label: &Label,
    option: &mut ArrayVec<u8, 40>,
) -> Result<(), Denial>
    requires doi { 0 < doi }
    requires empty { option.old.items ≡ [] }
    ensures ok { OnOk result
        (IsTagged definition.now.tags doi label.now option.new.items) }
    ensures err { IfErr result (λ why. (why ≡ Inexpressible)
        × (first_tag_of definition.now.tags label.now ≡ None)) }
{
    let Some(tag) = first_tag(definition.tags(), label) else {
        return Err(Denial::Inexpressible);
    };
    is_label(label);
    write_cipso(doi, tag, label, option);
    Ok(())
}

/// A label's numbers are in their bounds, by its type.
pub(crate) fn is_label(label: &Label)
    ensures { IsLabel label.now }
{
    let _level = label.level;
    let _runs = label.cats.runs();
}
