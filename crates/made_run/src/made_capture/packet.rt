//! The packet of a number.

ghost use Rattle.std.specs.Prelude.{◌≡◌, [], OnOk, OnErr};
ghost use Rattle.mls_label.specs.declared.label.Tag.TheVariants.{One};
ghost use Rattle.cipso_option.specs.Text.{cipso_text};
ghost use Rattle.ip_headers.specs.declared.version.Version.TheVariants.{V4};
ghost use Rattle.ip_headers.specs.Written.{IsLabelOption, packet_octets};
ghost use Rattle.made_run.specs.made_capture.Packet.{datagram_fields, datagram_with, label_made, packet_made};

use arrayvec::ArrayVec;
use cipso_option::{MOST_OCTETS, write_cipso};
use ip_headers::{Fields4, Rebuild, write4};
use mls_label::{Label, OutOfMemory, Tag, read_bitmap};

/// The domain of interpretation of all labels.
const DOI: u32 = 16;

/// From port 1000 to port 53, without data and without a checksum.
const EMPTY_DATAGRAM: [u8; 8] = [0x03, 0xe8, 0x00, 0x35, 0x00, 0x08, 0x00, 0x00];

/// Makes the label that is lent that of a number.
fn fill_label(number: u64, label: &mut Label)
    ensures { label.new ≡ label_made number }
{
    label.level = ((number >> 56) % 4) as u8;
    let bitmap = ((number >> 40) % 65536) as u16;
    read_bitmap(&bitmap.to_be_bytes(), &mut label.cats);
}

/// Writes the option that carries the label of a number. The label that is lent becomes that label.
fn write_option(number: u64, label: &mut Label, option: &mut ArrayVec<u8, MOST_OCTETS>)
    requires { option.old.items ≡ [] }
    ensures { option.new.items ≡ cipso_text 16 One (label_made number) }
{
    fill_label(number, label);
    write_cipso(DOI, Tag::One, label, option);
}

/// The fields of a datagram from 10.0.0.n to 10.0.0.2.
fn datagram_fields(n: u8) -> Fields4
    ensures { result ≡ datagram_fields n }
{
    Fields4 {
        tos: 0,
        id: 0,
        flags_offset: 0,
        hops: 64,
        protocol: 17,
        source: [10, 0, 0, n],
        destination: [10, 0, 0, 2],
    }
}

/// Makes `octets` the datagram from 10.0.0.n with this option, which fits into each header. After an error `octets` is empty.
fn write_datagram(n: u8, option: &[u8], octets: &mut Vec<u8>) -> Result<(), OutOfMemory>
    requires { IsLabelOption V4 option.now }
    ensures ok { OnOk result (octets.new.items ≡ packet_octets (datagram_with n option.now)) }
    ensures err { OnErr result (octets.new.items ≡ []) }
{
    match write4(&datagram_fields(n), Some(option), &EMPTY_DATAGRAM, octets) {
        Ok(()) => Ok(()),
        Err(Rebuild::OutOfMemory) => Err(OutOfMemory),
        Err(Rebuild::NoRoom) => unreachable!(),
        Err(Rebuild::TooLong) => unreachable!(),
    }
}

/// Makes `octets` the packet of a number, in place of what it held. The label that is lent becomes the packet's. After an error
/// `octets` is empty.
pub(crate) fn write_packet(
    number: u64,
    label: &mut Label,
    octets: &mut Vec<u8>,
) -> Result<(), OutOfMemory>
    ensures ok { OnOk result (octets.new.items ≡ packet_made number) }
    ensures err { OnErr result (octets.new.items ≡ []) }
{
    let mut option = ArrayVec::new();
    write_option(number, label, &mut option);
    write_datagram(((number >> 32) % 256) as u8, &option, octets)
}
