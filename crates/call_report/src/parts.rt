//! What lines of several kinds share.

ghost use Rattle.std.specs.Prelude.{◌≡◌, ◌++◌, OnOk, OnErr};
ghost use Rattle.call_report.specs.Lines.Parts.{octet_detail};
ghost use Rattle.call_report.specs.inside.Extends.{Extends};

use mls_label::write_decimal;
use std::alloc::AllocError;

/// Appends an octet, that of a fault or of an option.
#[tactic(auto, using(mls_label::proofs::octet_grammar::Digits::two_digits))]
pub(crate) fn append_octet(octet: u64, line: &mut Vec<u8>) -> Result<(), AllocError>
    ensures ok { OnOk result (line.new.items ≡ line.old.items ++ octet_detail octet) }
    ensures err { OnErr result (Extends line.old.items line.new.items) }
{
    // Mostly it has two digits, and then all comes at once.
    if 10 <= octet && octet < 100 {
        let (tens, ones) = (b'0' + octet as u8 / 10, b'0' + octet as u8 % 10);
        return line.extend_from_slice(&[b' ', b'o', b'c', b't', b'e', b't', b' ', tens, ones]);
    }
    line.extend_from_slice(b" octet ")?;
    write_decimal(octet, line)
}
