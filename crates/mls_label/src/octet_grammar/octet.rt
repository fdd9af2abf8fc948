//! Readers of single octets, and the places of faults.

ghost use Rattle.std.specs.Prelude.{◌≡◌, ◌+◌, ◌^◌, ◌<◌, ◌≤◌, length, slice_index, IfOk, IfErr, MatchResult, Ok, Err};
ghost use Rattle.mls_label.specs.octet_grammar.Place.{EndsAt, moved_by};

use crate::octet_grammar::{WireFault, WireKind};

/// The octet at this place doesn't fit.
pub fn unfit(octet: usize) -> WireFault
    ensures { result ≡ record { octet = octet; kind = WireKind.Octet } }
{
    WireFault {
        octet,
        kind: WireKind::Octet,
    }
}

/// The octets end at this place.
pub fn ended(octet: usize) -> WireFault
    ensures { result ≡ record { octet = octet; kind = WireKind.End } }
{
    WireFault {
        octet,
        kind: WireKind::End,
    }
}

/// The octet at this place.
pub fn octet_at(bytes: &[u8], at: usize) -> Result<u8, WireFault>
    requires { at ≤ length bytes.now }
    ensures ok { IfOk result (λ b. (at < length bytes.now) × (b ≡ slice_index bytes.now at)) }
    ensures err { IfErr result (λ e. EndsAt bytes.now at e) }
{
    if at == bytes.len() {
        return Err(ended(at));
    }
    Ok(bytes[at])
}

/// What the reader of a part of `length` octets answered, its fault counted from `before` octets before the part.
pub fn moved<T>(read: Result<T, WireFault>, before: usize, length: usize) -> Result<T, WireFault>
    requires within { IfErr read (λ f. f.octet ≤ length) }
    requires fits { before + length < 2 ^ 64 }
    ensures { MatchResult read (λ x. result ≡ Ok x) (λ f. result ≡ Err (moved_by before f)) }
{
    match read {
        Ok(value) => Ok(value),
        Err(fault) => Err(WireFault {
            octet: before + fault.octet,
            kind: fault.kind,
        }),
    }
}
