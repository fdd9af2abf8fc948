//! The labels of a packet that comes in.

ghost use Rattle.std.specs.Prelude.{◌≡◌, ◌+◌, ◌^◌, ◌<◌, nat_eq, IfSome};
ghost use Rattle.cipso_tags.specs.Tag.{tag_type};
ghost use Rattle.doi_table.specs.Translation.{local_label};
ghost use Rattle.packet_label.specs.Packet.{IsOfItsVersion, headers_of, labelled};
ghost use Rattle.packet_label.specs.Wire.{marked_wire, wire_with, wire_place};
ghost use Rattle.label_receive.specs.Incoming.{address_in, static_labels, translated, lists_tag, option_labels, label_of};
ghost use Rattle.label_receive.specs.Arrival.{incoming_with, incoming_as};

use doi_table::{DoiDef, DoiTable, Proto, Unmapped, to_local_into};
use domain_map::{Address, Name};
use mls_label::{Label, Tag};
use node_tables::Tables;
use packet_label::{Carrier, Denial, Mark, Marked, Packet};

/// What carried a packet's labels, and the low one where it isn't the high one too, as in a static entry.
#[derive(Clone, Copy)]
pub struct Arrival<'a> {
    pub carrier: Carrier,
    pub low: Option<&'a Label>,
}

/// The low label of a packet, by what is told of it and its high one.
pub fn low_label<'a>(arrival: &Arrival<'a>, high: &'a Label) -> &'a Label
    ensures { result.now ≡ (incoming_with arrival.now high.now).low }
{
    match arrival.low {
        Some(low) => low,
        None => high,
    }
}

/// The address that a packet comes from.
pub fn source_of(packet: &Packet<'_>) -> Address
    requires { IsOfItsVersion packet.now }
    ensures { result ≡ address_in (headers_of packet.now).version (headers_of packet.now).source }
{
    match packet {
        Packet::V4(view) => Address::V4(view.source()),
        Packet::V6(view) => Address::V6(view.source()),
    }
}

/// The address that a packet goes to.
pub fn destination_of(packet: &Packet<'_>) -> Address
    requires { IsOfItsVersion packet.now }
    ensures { result ≡ address_in (headers_of packet.now).version
        (headers_of packet.now).destination }
{
    match packet {
        Packet::V4(view) => Address::V4(view.destination()),
        Packet::V6(view) => Address::V6(view.destination()),
    }
}

/// The labels of a packet that was read, with what its label option says in `wire`. In the node's own numbers, `high` becomes
/// the high label; it is any label after a denial.
///
/// Without a label option: Unlabelled where such packets aren't accepted, NoStatic where no labels are set for the source. With
/// one: UnknownDoi, TagNotAllowed, LevelUnmapped or CategoryUnmapped by the definition of its DOI.
#[tactic(auto, unfolding(crate::specs::Incoming::label_of))]
#[inline(always)]
pub fn labels_into<'a>(
    tables: &'a Tables,
    interface: &Name,
    marked: &Marked<'_>,
    wire: &Label,
    high: &mut Label,
) -> Result<Arrival<'a>, Denial>
    requires version { IsOfItsVersion marked.now.packet }
    requires place { IfSome (wire_with marked.now.mark wire.now) (λ w. wire_place w + 10 < 2 ^ 64) }
    ensures { label_of tables.now interface.now
        (labelled (headers_of marked.now.packet)
        (wire_with marked.now.mark wire.now)) ≡ incoming_as high.new result }
{
    match marked.mark {
        Some(mark) => option_labels(tables.dois(), mark, wire, high),
        None => static_labels(tables, interface, &source_of(&marked.packet), high),
    }
}

// The labels that are set for a source.
#[inline(always)]
fn static_labels<'a>(
    tables: &'a Tables,
    interface: &Name,
    source: &Address,
    high: &mut Label,
) -> Result<Arrival<'a>, Denial>
    ensures { static_labels tables.now interface.now source.now ≡ incoming_as high.new result }
{
    if !tables.accepts() {
        return Err(Denial::Unlabelled);
    }
    let Some((low, set)) = tables.statics().find(interface, source) else {
        return Err(Denial::NoStatic);
    };
    high.assign(set);
    Ok(Arrival {
        carrier: Carrier::Unlabelled,
        low: Some(low),
    })
}

// The label that an option says, by the definition of its DOI.
#[inline(always)]
fn option_labels<'a>(
    definitions: &DoiTable,
    mark: Mark,
    wire: &Label,
    local: &mut Label,
) -> Result<Arrival<'a>, Denial>
    requires { wire_place (marked_wire mark wire.now) + 10 < 2 ^ 64 }
    ensures { option_labels definitions.now
        (marked_wire mark wire.now) ≡ incoming_as local.new result }
{
    match mark {
        Mark::Cipso { at, doi, tag } => {
            let Some(definition) = definitions.find(Proto::Cipso, doi) else {
                return Err(Denial::UnknownDoi { octet: at + 2 });
            };
            if !lists_tag(definition.tags(), tag) {
                return Err(Denial::TagNotAllowed { octet: at + 6 });
            }
            translated(Carrier::Cipso { doi }, definition, wire, local)
        }
        Mark::Calipso { at, doi } => {
            let Some(definition) = definitions.find(Proto::Calipso, doi) else {
                return Err(Denial::UnknownDoi { octet: at + 2 });
            };
            translated(Carrier::Calipso { doi }, definition, wire, local)
        }
    }
}

// The label in the node's numbers.
fn translated<'a>(
    carrier: Carrier,
    definition: &DoiDef,
    wire: &Label,
    local: &mut Label,
) -> Result<Arrival<'a>, Denial>
    ensures { translated carrier
        (local_label definition.now wire.now) ≡ incoming_as local.new result }
{
    match to_local_into(definition, wire, local) {
        Ok(()) => Ok(Arrival { carrier, low: None }),
        Err(Unmapped::Level) => Err(Denial::LevelUnmapped),
        Err(Unmapped::Category(category)) => Err(Denial::CategoryUnmapped { category }),
    }
}

fn lists_tag(tags: &[Tag], tag: Tag) -> bool
    ensures { result ≡ lists_tag tags.now tag }
{
    tags.iter().any(|listed| same_tag(tag, *listed))
}

fn same_tag(a: Tag, b: Tag) -> bool
    ensures { result ≡ nat_eq (tag_type a) (tag_type b) }
{
    a == b
}
