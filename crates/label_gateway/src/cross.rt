//! Packets that go out as packets of the other version.

ghost use Rattle.std.specs.Prelude.{◌≡◌, [], Some, None, OnOk};
ghost use Rattle.domain_map.specs.declared.protocol.Protocol.TheVariants.{Cipso, Calipso};
ghost use Rattle.ip_headers.specs.declared.version.Version.TheVariants.{V4, V6};
ghost use Rattle.ip_headers.specs.Written.{IsLabelOption};
ghost use Rattle.version_cross.specs.Cause.{cross_cause};
ghost use Rattle.version_cross.specs.Cross.{crossed_with};
ghost use Rattle.version_cross.specs.Laws.{IsAddressOf};
ghost use Rattle.node_tables.specs.Tables.{six_of, four_of};
ghost use Rattle.label_send.specs.Outgoing.{outgoing};
ghost use Rattle.label_send.specs.Answer.{Answers, packet_alone};
ghost use Rattle.label_gateway.specs.Crossing.{crossed_under};
ghost use Rattle.label_gateway.specs.inside.Crossing.{Crosses};
ghost use Rattle.label_gateway.specs.inside.Going.{CanCrossOut};

use arrayvec::ArrayVec;
use ip_headers::{Packet4, Packet6};
use label_send::{calipso_for, cipso_for};
use mls_label::Label;
use node_tables::Tables;
use packet_label::{Denial, Stop};
use version_cross::{CrossFault, cross4to6, cross6to4, crossable4, crossable6};

/// Writes a packet of IPv4 as one of IPv6, with this label of the node in a CALIPSO option (RFC 7915, RFC 5570). The label `wire`
/// becomes any label.
///
/// The first reason that holds denies it: NoPair where an address has no partner, NotCrossable with the first cause, Inexpressible
/// where no option of the DOI can say the label, TooLong where the payload length would pass 65,535.
pub fn cross_to_six(
    tables: &Tables,
    doi: u32,
    label: &Label,
    view: &Packet4<'_>,
    hops: u8,
    wire: &mut Label,
    out: &mut Vec<u8>,
) -> Result<(), Stop>
    requires version { view.now.version ≡ V4 }
    requires empty { out.old.items ≡ [] }
    ensures value { Answers packet_alone
        (crossed_under tables.now (Calipso doi) label.now view.now hops) result out.new.items }
    ensures goes { OnOk result
        (CanCrossOut V6 (outgoing tables.now.definitions (Calipso doi) label.now)
        (six_of tables.now.pairs view.now.source) (six_of tables.now.pairs view.now.destination)) }
{
    let Some(source) = tables.find_six(view.source()) else {
        return Err(Stop::Denied(Denial::NoPair));
    };
    let Some(destination) = tables.find_six(view.destination()) else {
        return Err(Stop::Denied(Denial::NoPair));
    };
    if let Some(cause) = crossable4(view) {
        return Err(Stop::Denied(Denial::NotCrossable { cause }));
    }
    let mut option = ArrayVec::new();
    match calipso_for(tables, doi, label, wire, &mut option) {
        Ok(()) => write_six(view, source, destination, &option, hops, out),
        Err(why) => Err(Stop::Denied(why)),
    }
}

/// Writes a packet of IPv6 as one of IPv4, with this label of the node in a CIPSO option (RFC 7915, FIPS 188). The label `wire`
/// becomes any label.
///
/// The first reason that holds denies it: NoPair where an address has no partner, NotCrossable with the first cause, Inexpressible
/// where no option of the DOI can say the label, TooLong where the total length would pass 65,535.
pub fn cross_to_four(
    tables: &Tables,
    doi: u32,
    label: &Label,
    view: &Packet6<'_>,
    hops: u8,
    wire: &mut Label,
    out: &mut Vec<u8>,
) -> Result<(), Stop>
    requires version { view.now.version ≡ V6 }
    requires empty { out.old.items ≡ [] }
    ensures value { Answers packet_alone
        (crossed_under tables.now (Cipso doi) label.now view.now hops) result out.new.items }
    ensures goes { OnOk result
        (CanCrossOut V4 (outgoing tables.now.definitions (Cipso doi) label.now)
        (four_of tables.now.pairs view.now.source)
        (four_of tables.now.pairs view.now.destination)) }
{
    let Some(source) = tables.find_four(view.source()) else {
        return Err(Stop::Denied(Denial::NoPair));
    };
    let Some(destination) = tables.find_four(view.destination()) else {
        return Err(Stop::Denied(Denial::NoPair));
    };
    if let Some(cause) = crossable6(view) {
        return Err(Stop::Denied(Denial::NotCrossable { cause }));
    }
    let mut option = ArrayVec::new();
    match cipso_for(tables, doi, label, wire, &mut option) {
        Ok(()) => write_four(view, source, destination, &option, hops, out),
        Err(why) => Err(Stop::Denied(why)),
    }
}

// A packet of IPv4 that can cross as one of IPv6, with this label option.
fn write_six(
    view: &Packet4<'_>,
    source: [u8; 16],
    destination: [u8; 16],
    option: &[u8],
    hops: u8,
    out: &mut Vec<u8>,
) -> Result<(), Stop>
    requires crossable { cross_cause view.now ≡ None }
    requires label { IsLabelOption V6 option.now }
    ensures value { Crosses
        (crossed_with view.now source destination (Some option.now) hops) result out.new.items }
    ensures source { IsAddressOf V6 source }
    ensures destination { IsAddressOf V6 destination }
{
    match cross4to6(view, source, destination, option, hops, out) {
        Ok(()) => Ok(()),
        Err(CrossFault::TooLong) => Err(Stop::Denied(Denial::TooLong)),
        Err(CrossFault::OutOfMemory) => Err(Stop::OutOfMemory),
    }
}

// A packet of IPv6 that can cross as one of IPv4, with this label option.
fn write_four(
    view: &Packet6<'_>,
    source: [u8; 4],
    destination: [u8; 4],
    option: &[u8],
    hops: u8,
    out: &mut Vec<u8>,
) -> Result<(), Stop>
    requires crossable { cross_cause view.now ≡ None }
    requires label { IsLabelOption V4 option.now }
    ensures value { Crosses
        (crossed_with view.now source destination (Some option.now) hops) result out.new.items }
    ensures source { IsAddressOf V4 source }
    ensures destination { IsAddressOf V4 destination }
{
    match cross6to4(view, source, destination, option, hops, out) {
        Ok(()) => Ok(()),
        Err(CrossFault::TooLong) => Err(Stop::Denied(Denial::TooLong)),
        Err(CrossFault::OutOfMemory) => Err(Stop::OutOfMemory),
    }
}
