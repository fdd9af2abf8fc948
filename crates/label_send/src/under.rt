//! A packet with a label under a protocol: what sending and forwarding have in common.

ghost use Rattle.std.specs.Prelude.{◌≡◌, [], IfSome, IsTrue};
ghost use Rattle.std.specs.Option.{option_copied};
ghost use Rattle.ip_headers.specs.Written.{IsLabelOption, rewritten};
ghost use Rattle.packet_label.specs.declared.denial.Stop.TheVariants.{Denied};
ghost use Rattle.packet_label.specs.Packet.{IsOfItsVersion, headers_of, version_of};
ghost use Rattle.label_send.specs.Outgoing.{CanGoOut, outgoing, suits};
ghost use Rattle.label_send.specs.Room.{sent_under};
ghost use Rattle.label_send.specs.Answer.{Answers, packet_alone};
ghost use Rattle.label_send.specs.inside.Write.{Writes};

use crate::option::{calipso_for, cipso_for};
use arrayvec::ArrayVec;
use domain_map::Protocol;
use ip_headers::Rebuild;
use mls_label::Label;
use node_tables::Tables;
use packet_label::{Denial, Packet, Stop, relabel_with};

/// Writes the packet with this label of the node under a protocol of its map, and with these hops: `out` becomes exactly that packet,
/// whose old label option is gone. The label that is lent becomes any label.
///
/// Inexpressible comes where no option of the protocol's DOI can say the label, else NoRoom where the options pass 40 octets of a header
/// of IPv4 or 2,048 of a Hop-by-Hop header of IPv6, else TooLong where the length field would pass 65,535 (RFC 791, RFC 8200). After a
/// stop `out` is empty.
pub fn send_under(
    tables: &Tables,
    protocol: Protocol,
    label: &Label,
    packet: &Packet,
    hops: u8,
    wire: &mut Label,
    out: &mut Vec<u8>,
) -> Result<(), Stop>
    requires version { IsOfItsVersion packet.now }
    requires suits { IsTrue (suits (version_of packet.now) protocol) }
    ensures value { Answers packet_alone
        (sent_under tables.now.definitions protocol label.now (headers_of packet.now) hops)
        result out.new.items }
    ensures said { CanGoOut (version_of packet.now)
        (outgoing tables.now.definitions protocol label.now) }
{
    match protocol {
        Protocol::Unlbl => rewrite(packet, None, hops, out),
        Protocol::Cipso { doi } => {
            let mut option = ArrayVec::new();
            match cipso_for(tables, doi, label, wire, &mut option) {
                Ok(()) => rewrite(packet, Some(&option), hops, out),
                Err(why) => Err(denied(why, out)),
            }
        }
        Protocol::Calipso { doi } => {
            let mut option = ArrayVec::new();
            match calipso_for(tables, doi, label, wire, &mut option) {
                Ok(()) => rewrite(packet, Some(&option), hops, out),
                Err(why) => Err(denied(why, out)),
            }
        }
    }
}

/// Empties what was to be written.
pub(crate) fn denied(why: Denial, out: &mut Vec<u8>) -> Stop
    ensures stop { result ≡ Denied why }
    ensures empty { out.new.items ≡ [] }
{
    out.clear();
    Stop::Denied(why)
}

// The packet with this option, or none, and these hops. Always inlined: what it answers stays in registers.
#[inline(always)]
fn rewrite(packet: &Packet, option: Option<&[u8]>, hops: u8, out: &mut Vec<u8>) -> Result<(), Stop>
    requires { IfSome option (λ o. IsLabelOption (version_of packet.now) o.now) }
    ensures { Writes (version_of packet.now)
        (rewritten (headers_of packet.now) (option_copied option.entry) hops) result out.new.items }
{
    match relabel_with(packet, option, hops, out) {
        Ok(()) => Ok(()),
        Err(Rebuild::NoRoom) => Err(Stop::Denied(Denial::NoRoom)),
        Err(Rebuild::TooLong) => Err(Stop::Denied(Denial::TooLong)),
        Err(Rebuild::OutOfMemory) => Err(Stop::OutOfMemory),
    }
}
