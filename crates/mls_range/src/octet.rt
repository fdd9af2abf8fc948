//! One octet at a place of a text.

ghost use Rattle.std.specs.Prelude.{◌≡◌, [], ◌∷◌, ◌≤◌, length, drop, IfOk, IfErr, MatchBool};
ghost use Rattle.mls_range.specs.inside.Rest.{IsLabelEnd, MissesOctet, Spells};

use mls_label::{WireFault, octet_at, unfit};

/// Reads an octet that has to stand there, and gives the place behind it.
pub(crate) fn read_octet(text: &[u8], at: usize, wanted: u8) -> Result<usize, WireFault>
    requires { at ≤ length text.now }
    ensures ok { IfOk result (λ end. Spells text.now at end (wanted ∷ [])) }
    ensures place { IfErr result (λ fault. fault.octet ≡ at) }
    ensures err { IfErr result (λ fault. MissesOctet wanted (drop at text.now) fault.kind) }
{
    let octet = octet_at(text, at)?;
    if octet != wanted {
        return Err(unfit(at));
    }
    Ok(at + 1)
}

/// Whether a label may end at a place: at the end of the text or, with `dash`, at a dash.
pub(crate) fn is_label_end(text: &[u8], at: usize, dash: bool) -> bool
    requires { at ≤ length text.now }
    ensures { MatchBool result
        (IsLabelEnd dash (drop at text.now)) (IsLabelEnd dash (drop at text.now) → ⊥) }
{
    at == text.len() || dash && text[at] == b'-'
}
