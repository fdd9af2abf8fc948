//! Buffers of the caller's.

ghost use Rattle.std.specs.Prelude.{◌≡◌};
ghost use Rattle.netlabel_codec.specs.Put.{IsPut};
ghost use Rattle.netlabel_codec.specs.Told.{runs_told};

use crate::{NetlabelRun, Status};
use mls_label::CatSet;

/// Puts the maximal runs of a set at the front of the buffer, or none of them where it has too little room for all.
pub(crate) fn put_runs(cats: &CatSet, runs: &mut [NetlabelRun]) -> Status
    ensures { IsPut (runs_told cats.now) runs.old runs.new result }
{
    let count = cats.runs();
    if runs.len() < count {
        return Status::NoRoom;
    }
    for place in 0..count {
        let (first, last) = cats.run(place);
        runs[place] = NetlabelRun { first, last };
    }
    Status::Done
}

/// Puts octets at the front of the buffer, or none of them where it has too little room for all.
pub(crate) fn put_octets(text: &[u8], out: &mut [u8]) -> Status
    ensures { IsPut text.now out.old out.new result }
{
    if out.len() < text.len() {
        return Status::NoRoom;
    }
    out[..text.len()].copy_from_slice(text);
    Status::Done
}
