//! Packets that go out: a CIPSO option becomes option 130.

ghost use Rattle.std.specs.Prelude.{◌≡◌, ◌+◌, ◌^◌, ◌<◌, [], Some, Err, OnOk, IfErr, IfSome, nat_eq};
ghost use Rattle.cipso_tags.specs.Tag.{tag_type};
ghost use Rattle.ip_headers.specs.declared.version.Version.TheVariants.{V4};
ghost use Rattle.doi_table.specs.Translation.{wire_label};
ghost use Rattle.packet_label.specs.Packet.{IsOfItsVersion, headers_of, labelled};
ghost use Rattle.packet_label.specs.Wire.{wire_with, wire_place};
ghost use Rattle.packet_label.specs.declared.denial.Denial.TheVariants.{Inexpressible};
ghost use Rattle.label_receive.specs.Incoming.{lists_tag};
ghost use Rattle.label_send.specs.Answer.{Answers, packet_alone};
ghost use Rattle.ripso_border.specs.Options.{ripso_options};
ghost use Rattle.ripso_border.specs.Crossing.{HasCrossed};
ghost use Rattle.ripso_border.specs.Out.{border_out, out_said};
ghost use Rattle.ripso_border.specs.declared.border.Way.TheVariants as the_way;
ghost use Rattle.ripso_border.specs.inside.Steps.{free_of, defined_for, IsWireOption, IsWireText, IsInexpressible};

use crate::border::Border;
use crate::entering::is_label;
use crate::swap::{RIPSO, denied, swap};
use arrayvec::ArrayVec;
use doi_table::{DoiDef, to_wire_into};
use ip_headers::Packet4;
use label_receive::{Room, fault_denial};
use mls_label::{Label, Tag};
use packet_label::{Denial, Mark, Marked, Packet, Stop, carried_into};
use ripso_option::{ripso_can_express, write_ripso};

/// Writes what becomes of a packet that goes out. After a stop `out` is empty; the labels of the room may be any.
pub(crate) fn cross_out(
    border: &Border<'_>,
    octets: &[u8],
    room: &mut Room,
    out: &mut Vec<u8>,
) -> Result<(), Stop>
    ensures { HasCrossed the_way.Out border.now.definition.now border.now.doi (Some octets.now)
        result out.new.items }
{
    // Lent from where it was read: to move it out would copy it.
    let read = carried_into(octets, &mut room.wire);
    match &read {
        Ok(marked) => leave(border, marked, &room.wire, &mut room.local, out),
        Err(fault) => Err(denied(fault_denial(*fault), out)),
    }
}

/// The same of a packet that was read, with what its label option says in `label`.
fn leave(
    border: &Border<'_>,
    marked: &Marked<'_>,
    label: &Label,
    wire: &mut Label,
    out: &mut Vec<u8>,
) -> Result<(), Stop>
    requires version { IsOfItsVersion marked.now.packet }
    requires place { IfSome (wire_with marked.now.mark label.now)
        (λ w. wire_place w + 10 < 2 ^ 64) }
    ensures { Answers packet_alone
        (border_out border.now.definition.now border.now.doi
        (labelled (headers_of marked.now.packet) (wire_with marked.now.mark label.now)))
        result out.new.items }
{
    if let Packet::V4(view) = &marked.packet {
        return leave_four(border, view, marked.mark, label, wire, out);
    }
    Err(denied(Denial::WrongVersion, out))
}

/// The same of a packet of IPv4.
fn leave_four(
    border: &Border<'_>,
    view: &Packet4<'_>,
    mark: Option<Mark>,
    label: &Label,
    wire: &mut Label,
    out: &mut Vec<u8>,
) -> Result<(), Stop>
    requires version { view.now.version ≡ V4 }
    requires place { IfSome (wire_with mark label.now) (λ w. wire_place w + 10 < 2 ^ 64) }
    ensures { Answers packet_alone
        (out_said border.now.definition.now border.now.doi
        (labelled view.now (wire_with mark label.now)) (wire_with mark label.now))
        result out.new.items }
{
    let mut option: ArrayVec<u8, 7> = ArrayVec::new();
    match wire_option(border, view, mark, label, wire, &mut option) {
        Ok(()) => swap(view, &option, out),
        Err(why) => Err(denied(why, out)),
    }
}

/// The option 130 that a packet gets.
fn wire_option(
    border: &Border<'_>,
    view: &Packet4<'_>,
    mark: Option<Mark>,
    label: &Label,
    wire: &mut Label,
    option: &mut ArrayVec<u8, 7>,
) -> Result<(), Denial>
    requires place { IfSome (wire_with mark label.now) (λ w. wire_place w + 10 < 2 ^ 64) }
    requires empty { option.old.items ≡ [] }
    ensures ok { OnOk result
        (IsWireOption border.now.definition.now border.now.doi
        (labelled view.now (wire_with mark label.now)) option.new.items) }
    ensures err { IfErr result (λ why. out_said border.now.definition.now border.now.doi
        (labelled view.now (wire_with mark label.now)) (wire_with mark label.now) ≡ Err why) }
{
    let Some(said) = mark else {
        return Err(Denial::Unlabelled);
    };
    let Mark::Cipso { at, doi, tag } = said else {
        return Err(Denial::WrongVersion);
    };
    is_free(view)?;
    match is_defined(border, at, doi, tag) {
        Ok(()) => write_option(border.definition, label, wire, option),
        Err(why) => Err(why),
    }
}

/// Refuses a packet that has an option 130.
fn is_free(view: &Packet4<'_>) -> Result<(), Denial>
    ensures { free_of (ripso_options view.now.others) ≡ result }
{
    let (first, _second) = view.others(RIPSO);
    match first {
        Some((octet, _option)) => Err(Denial::AlreadyLabelled { octet }),
        None => Ok(()),
    }
}

/// Refuses another DOI, and a tag that the definition lacks.
fn is_defined(border: &Border<'_>, at: usize, doi: u32, tag: Tag) -> Result<(), Denial>
    requires { at + 10 < 2 ^ 64 }
    ensures { defined_for border.now.definition.now border.now.doi at doi tag ≡ result }
{
    if doi != border.doi {
        return Err(Denial::UnknownDoi { octet: at + 2 });
    }
    if !lists_tag(border.definition.tags(), tag) {
        return Err(Denial::TagNotAllowed { octet: at + 6 });
    }
    Ok(())
}

/// Whether a definition lists this type of tag.
fn lists_tag(tags: &[Tag], tag: Tag) -> bool
    ensures { result ≡ lists_tag tags.now tag }
{
    tags.iter().any(|listed| same_tag(tag, *listed))
}

fn same_tag(a: Tag, b: Tag) -> bool
    ensures { result ≡ nat_eq (tag_type a) (tag_type b) }
{
    a == b
}

/// The option 130 of a label in the numbers of the wire.
fn write_option(
    definition: &DoiDef,
    label: &Label,
    wire: &mut Label,
    option: &mut ArrayVec<u8, 7>,
) -> Result<(), Denial>
    requires { option.old.items ≡ [] }
    ensures ok { OnOk result (IsWireText definition.now label.now option.new.items) }
    ensures err { IfErr result (λ why. (why ≡ Inexpressible)
        × IsInexpressible (wire_label definition.now label.now)) }
{
    let Ok(()) = to_wire_into(definition, label, wire) else {
        return Err(Denial::Inexpressible);
    };
    if !ripso_can_express(wire) {
        return Err(Denial::Inexpressible);
    }
    is_label(wire);
    write_ripso(wire, option);
    Ok(())
}
