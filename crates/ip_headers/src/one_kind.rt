// The options of one type in a list of IPv4.

ghost use Rattle.std.specs.Prelude.{◌≡◌, ◌+◌, ◌<◌, [], ◌++◌, Some, IsTrue, OnOk, IfErr, length, slice_get};
ghost use Rattle.std.specs.Option.{option_map};
ghost use Rattle.ip_headers.specs.declared.version.Version.TheVariants.{V4};
ghost use Rattle.ip_headers.specs.Options.{is_other_type};
ghost use Rattle.ip_headers.specs.Swapped.{of_kind};
ghost use Rattle.ip_headers.specs.inside.Swap.{part_without, kept_without};
ghost use Rattle.ip_headers.specs.inside.Write.{IsWholeList, others_in};

use crate::kind;
use crate::options::Step;
use crate::rebuild::Rebuild;
use crate::version::Version;
use crate::walk::{first_place, step};
use arrayvec::ArrayVec;

/// The first option of this type with its place, and the place of the second.
pub fn find_kind(area: &[u8], kind: u8) -> (Option<(usize, &[u8])>, Option<usize>)
    requires other { IsTrue (is_other_type V4 kind) }
    requires whole { IsWholeList V4 area.now }
    requires small { length area.now < 65536 }
    ensures first { option_map
        (λ x. record { place = x.0; octets = x.1.now }) result.0 ≡ slice_get
        (of_kind kind (others_in V4 area.now)) 0 }
    ensures second { result.1 ≡ option_map
        (λ o. o.place) (slice_get (of_kind kind (others_in V4 area.now)) 1) }
{
    let mut first = None;
    let mut at = first_place(Version::V4);
    let mut rest = area;
    while let Step::Option(size) = step(Version::V4, rest) {
        let (option, after) = rest.split_at(size);
        if option[0] == kind {
            if first.is_some() {
                return (first, Some(at));
            }
            first = Some((at, option));
        }
        at += size;
        rest = after;
    }
    (first, None)
}

/// Copies an option to the end, if it is kept and of another type. NoRoom: it has no room.
fn copy_option<const N: usize>(
    option: &[u8],
    kind: u8,
    kept: &mut ArrayVec<u8, N>,
) -> Result<(), Rebuild>
    requires { 0 < length option.now }
    ensures ok { OnOk result (kept.new.items ≡ kept.old.items ++ part_without kind option.now) }
    ensures err { IfErr result
        (λ why. (why ≡ Rebuild.NoRoom)
        × (N < length kept.old.items + length (part_without kind option.now))) }
{
    if !kind::is_other(Version::V4, option[0]) || option[0] == kind {
        return Ok(());
    }
    if kept.try_extend_from_slice(option).is_err() {
        return Err(Rebuild::NoRoom);
    }
    Ok(())
}

/// Copies the options that are kept, but for those of this type, one after another. NoRoom: they have no room.
pub fn copy_without<const N: usize>(
    area: &[u8],
    kind: u8,
    kept: &mut ArrayVec<u8, N>,
) -> Result<(), Rebuild>
    requires whole { IsWholeList V4 area.now }
    requires small { length area.now < 65536 }
    requires empty { kept.old.items ≡ [] }
    ensures ok { OnOk result (kept.new.items ≡ kept_without kind area.now) }
    ensures err { IfErr result
        (λ why. (why ≡ Rebuild.NoRoom) × (N < length (kept_without kind area.now))) }
{
    let mut rest = area;
    while let Step::Option(size) = step(Version::V4, rest) {
        let (option, after) = rest.split_at(size);
        copy_option(option, kind, kept)?;
        rest = after;
    }
    Ok(())
}
