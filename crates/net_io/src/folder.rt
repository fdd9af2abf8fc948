//! A list of named files.
ghost use Rattle.std.specs.Prelude.{◌≡◌, ◌<◌, ◌≤◌, ◌+◌, ◌++◌, ◌^◌, length, take, drop, Some, None, IsSome, OnOk, OnErr, MatchOption};
ghost use Rattle.net_io.specs.Depot.{octets_of, ChangesFirst, SameHeld, NowHolds};
ghost use Rattle.net_io.specs.Folder.{held_in};
ghost use Rattle.net_io.specs.inside.Place.{IsPlaceOf};

use crate::OutOfMemory;

/// A file and its name.
#[derive(Debug, Drop)]
pub struct NamedFile {
    pub name: String,
    pub octets: Vec<u8>,
}

/// Where the file of this name stands.
pub fn place_of(files: &[NamedFile], name: &str) -> Option<usize>
    ensures { MatchOption result (held_in files.now name.now ≡ None)
        (λ place. IsPlaceOf files.now name.now place) }
{
    for (place, file) in files.iter().enumerate() {
        if file.name.as_str() == name {
            return Some(place);
        }
    }
    None
}

/// Makes the name hold exactly these octets.
pub fn put_file(files: &mut Vec<NamedFile>, name: &str, octets: Vec<u8>) -> Result<(), OutOfMemory>
    ensures ok { OnOk result
        (NowHolds name.now octets.items (held_in files.old.items) (held_in files.new.items)) }
    ensures err { OnErr result (files.new.items ≡ files.old.items) }
{
    match place_of(files, name) {
        Some(place) => files[place].octets = octets,
        None => {
            let name = String::from_str(*files.allocator(), name)?;
            files.push(NamedFile { name, octets })?;
        }
    }
    Ok(())
}

/// Appends these octets to the file of a name that is held.
pub fn extend_file(files: &mut Vec<NamedFile>, name: &str, octets: &[u8]) -> Result<(), OutOfMemory>
    requires { IsSome (held_in files.old.items name.now) }
    ensures ok { OnOk result
        (NowHolds name.now (octets_of (held_in files.old.items name.now) ++ octets.now)
        (held_in files.old.items) (held_in files.new.items)) }
    ensures err { OnErr result (SameHeld (held_in files.old.items) (held_in files.new.items)) }
{
    match place_of(files, name) {
        Some(place) => files[place].octets.extend_from_slice(octets)?,
        None => unreachable!(),
    }
    Ok(())
}

/// Copies octets of a file, from `at` on, to the front of `buf`: as many as there are and fit, at most `piece`.
pub fn copy_from(octets: &[u8], at: u64, piece: usize, buf: &mut [u8]) -> usize
    requires { 0 < piece }
    ensures octets { take result buf.new ≡ take result (drop at octets.now) }
    ensures end { result ≡ 0 → 0 < length buf.old → length octets.now ≤ at }
    ensures piece { result ≤ piece }
    ensures rest { ChangesFirst result buf.old buf.new }
    ensures place { at + result < 2 ^ 64 }
{
    let from = at.min(octets.len() as u64) as usize;
    let rest = &octets[from..];
    let n = rest.len().min(buf.len()).min(piece);
    buf[..n].copy_from_slice(&rest[..n]);
    n
}
