//! Whole options.

ghost use Rattle.std.specs.Prelude.{◌≡◌, ◌≤◌, IfOk, IfErr, OnOk, length};
ghost use Rattle.mls_label.specs.octet_grammar.Front.{ReadsFront};
ghost use Rattle.calipso_option.specs.Calipso.{IsCalipso, IsCalipsoShape, checksum_of};
ghost use Rattle.calipso_option.specs.Fault.{IsFaulty};
ghost use Rattle.calipso_option.specs.inside.Layout.{IsLaidOut, checksum_at, IsFalseChecksum};

use crate::crc::option_checksum;
use crate::layout::read_layout;
use crate::{Calipso, CalipsoFault};
use mls_label::{Label, read_bitmap, u32_at};

/// What an option says beside its label, and how many octets it has.
#[derive(Clone, Copy, Debug)]
pub struct CalipsoHead {
    pub doi: u32,
    pub length: usize,
}

/// The CALIPSO option at the front of the octets, and how many octets it has (RFC 5570, section 5.1). A fault on the wire
/// stands at the first octet that no option with the octets before it has there; the checksum is tested after that.
pub fn read_calipso(bytes: &[u8]) -> Result<(Calipso, usize), CalipsoFault>
    ensures ok { IfOk result (λ read. ReadsFront IsCalipso bytes.now read.0 read.1) }
    ensures err { IfErr result (λ fault. IsFaulty bytes.now fault) }
{
    let mut label = Label::lowest();
    let head = read_calipso_into(bytes, &mut label)?;
    let calipso = Calipso {
        doi: head.doi,
        label,
    };
    Ok((calipso, head.length))
}

/// The same with the label in place of the one that is lent, which is as it was after a fault.
pub fn read_calipso_into(bytes: &[u8], label: &mut Label) -> Result<CalipsoHead, CalipsoFault>
    ensures ok { IfOk result
        (λ head. ReadsFront IsCalipso bytes.now
        (record { doi = head.doi; label = label.new }) head.length) }
    ensures err { IfErr result (λ fault. IsFaulty bytes.now fault) }
{
    let length = read_layout(bytes)?;
    let option = &bytes[..length];
    test_checksum(option)?;
    let doi = read_value(option, label);
    Ok(CalipsoHead { doi, length })
}

// The checksum of a whole option, where it isn't the computed one.
fn test_checksum(option: &[u8]) -> Result<(), CalipsoFault>
    requires { 10 ≤ length option.now }
    ensures ok { OnOk result (checksum_at option.now ≡ checksum_of option.now) }
    ensures err { IfErr result (λ fault. IsFalseChecksum option.now fault) }
{
    let stored = u16::from_le_bytes([option[8], option[9]]);
    let computed = option_checksum(option);
    if stored != computed {
        return Err(CalipsoFault::BadChecksum { stored, computed });
    }
    Ok(())
}

// What a whole option says: its label in place of the one that is lent, and its DOI.
fn read_value(option: &[u8], label: &mut Label) -> u32
    requires { IsLaidOut option.now (length option.now) }
    ensures { IsCalipsoShape option.now
        (record { doi = result; label = label.new }, checksum_at option.now) }
{
    label.level = option[7];
    read_bitmap(&option[10..], &mut label.cats);
    u32_at(option, 2)
}
