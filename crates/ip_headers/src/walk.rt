// A walk over a list of options, in one pass and without memory.

ghost use Rattle.std.specs.Prelude.{◌≡◌, ℕ, ◌+◌, ◌^◌, ◌<◌, List, [], ◌∷◌, ◌++◌, None, Some, length, drop, IfOk, IfErr};
ghost use Rattle.ip_headers.specs.Options.{Placed, options_from};
ghost use Rattle.ip_headers.specs.Reading.{first_place, options_of};
ghost use Rattle.ip_headers.specs.inside.Walk.{step_of, Finds};

use crate::fault::{HeadFault, HeadKind, fault};
use crate::kind;
use crate::options::{Found, Step};
use crate::version::Version;

/// What stands at the front of these octets.
pub fn step(version: Version, rest: &[u8]) -> Step
    ensures { result ≡ step_of version rest.now }
{
    match rest {
        [] => Step::End,
        [kind, ..] if kind::is_end(version, *kind) => Step::End,
        [kind, ..] if kind::is_single(version, *kind) => Step::Option(1),
        [_] => Step::Broken,
        [_, counted, ..] => {
            let size = usize::from(*counted) + kind::uncounted(version);
            if size < 2 || rest.len() < size {
                return Step::Broken;
            }
            Step::Option(size)
        }
    }
}

/// What was found, with one option more.
fn with_option<'a>(found: Found<'a>, version: Version, at: usize, option: &'a [u8]) -> Found<'a>
    requires { 0 < length option.now }
    ensures { (options : List Placed) → Finds version options found.entry
        → Finds version (options ++ record { place = at; octets = option.now } ∷ []) result }
{
    let Found {
        label,
        second,
        jumbo,
        has_others,
    } = found;
    let kind = option[0];
    let is_label = kind::is_label(version, kind);
    let is_second = is_label && label.is_some();
    let is_jumbo = kind::is_jumbo(version, kind);
    let is_other = kind::is_other(version, kind);
    Found {
        label: label.or(is_label.then_some((at, option))),
        second: second.or(is_second.then_some(at)),
        jumbo: jumbo.or(is_jumbo.then_some(at)),
        has_others: has_others || is_other,
    }
}

/// Goes over the octets of a list of options, the first of which has this place.
fn walk_from(version: Version, area: &[u8], first: usize) -> Result<Found<'_>, HeadFault>
    requires { first + length area.now < 2 ^ 63 }
    ensures ok { IfOk result
        (λ found. ((options_from version first area.now).broken ≡ None)
        × Finds version (options_from version first area.now).options found) }
    ensures err { IfErr result
        (λ fault. (options_from version first area.now).broken ≡ Some fault) }
{
    let mut found = Found {
        label: None,
        second: None,
        jumbo: None,
        has_others: false,
    };
    let mut at = first;
    let mut rest = area;
    loop {
        match step(version, rest) {
            Step::End => return Ok(found),
            Step::Broken => return Err(fault(at + 1, HeadKind::OptionList)),
            Step::Option(size) => {
                let (option, after) = rest.split_at(size);
                found = with_option(found, version, at, option);
                at += size;
                rest = after;
            }
        }
    }
}

/// The octet of a packet at which its list of options begins.
pub fn first_place(version: Version) -> usize
    ensures { result ≡ first_place version }
{
    match version {
        Version::V4 => 20,
        Version::V6 => 42,
    }
}

/// The octets of the list of options of a header; none where it ends before.
pub fn option_octets(version: Version, head: &[u8]) -> &[u8]
    ensures { result.now ≡ drop (first_place version) head.now }
{
    let first = first_place(version);
    if head.len() < first {
        return &head[..0];
    }
    head.split_at(first).1
}

/// Goes over the list of options of a header.
pub fn walk(version: Version, head: &[u8]) -> Result<Found<'_>, HeadFault>
    requires { length head.now < 2 ^ 32 }
    ensures ok { IfOk result
        (λ found. ((options_of version head.now).broken ≡ None)
        × Finds version (options_of version head.now).options found) }
    ensures err { IfErr result (λ fault. (options_of version head.now).broken ≡ Some fault) }
{
    walk_from(version, option_octets(version, head), first_place(version))
}
