//! The places of an option's octets.

ghost use Rattle.std.specs.Prelude.{IfOk, IfErr, IsTrue, ◌↔◌};
ghost use Rattle.mls_label.specs.octet_grammar.Fault.{FailsFront};
ghost use Rattle.calipso_option.specs.Calipso.{IsCalipsoShape};
ghost use Rattle.calipso_option.specs.inside.Layout.{IsLaidOut, IsLength};

use crate::bounds::{MOST_WORDS, OPTION_TYPE};
use mls_label::{WireFault, ended, nonzero_at, octet_at, unfit};

/// The octets of the option at the front, each of which fits its place; the checksum isn't tested.
pub(crate) fn read_layout(bytes: &[u8]) -> Result<usize, WireFault>
    ensures ok { IfOk result (λ octets. IsLaidOut bytes.now octets) }
    ensures err { IfErr result (λ fault. FailsFront IsCalipsoShape bytes.now fault) }
{
    let kind = octet_at(bytes, 0)?;
    if kind != OPTION_TYPE {
        return Err(unfit(0));
    }
    let size = octet_at(bytes, 1)?;
    if !is_length(size) {
        return Err(unfit(1));
    }
    nonzero_at(bytes, 2)?;
    let words = octet_at(bytes, 6)?;
    if words != (size - 8) / 4 {
        return Err(unfit(6));
    }
    let length = 2 + size as usize;
    if bytes.len() < length {
        return Err(ended(bytes.len()));
    }
    Ok(length)
}

// Whether an option has this length octet: eight octets and up to 61 words.
fn is_length(octet: u8) -> bool
    ensures { IsTrue result ↔ IsLength octet }
{
    octet >= 8 && octet <= 8 + 4 * MOST_WORDS && octet % 4 == 0
}
