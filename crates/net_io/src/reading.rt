//! Reads that go on until the buffer is full or the file ends.
ghost use Rattle.std.specs.Prelude.{◌≡◌, ◌<◌, ◌≤◌, ◌+◌, ◌-◌, ◌++◌, ◌^◌, min, IsTrue, IsSome, Some, length, take, drop, vec_len, OnOk, OnErr, IfOk, IsErrOf};
ghost use Rattle.net_io.specs.Depot.{octets_of, IsRead, ChangesFirst, ReadsPrefix, OnlyReads};

use crate::piece::new_piece;
use crate::{Depot, IoFault, WholeFault};
use std::alloc::Global;

/// Reads a file from the octet `at` on until `buf` is full or the file ends, and answers how many octets
/// were read. After an Err the front of `buf` may hold octets of the file; the rest is unchanged.
pub fn read_full<D: Depot>(
    depot: &mut D,
    name: &str,
    at: u64,
    buf: &mut [u8],
) -> Result<usize, IoFault>
    ensures count { IfOk result (λ n. IsTrue (D.state depot.old).tells
        → n ≡ min (length buf.old) (length (octets_of ((D.state depot.old).held name.now)) - at)) }
    ensures octets { IfOk result
        (λ n. IsTrue (D.state depot.old).tells
        → IsRead ((D.state depot.old).held name.now) at n buf.new) }
    ensures present { OnOk result
        (IsTrue (D.state depot.old).tells → 0 < length buf.old
        → IsSome ((D.state depot.old).held name.now)) }
    ensures rest { IfOk result (λ n. ChangesFirst n buf.old buf.new) }
    ensures place { IfOk result (λ n. at + n < 2 ^ 64) }
    ensures err { OnErr result
        (ReadsPrefix (D.state depot.old).tells
        ((D.state depot.old).held name.now) at buf.old buf.new) }
    ensures frame { OnlyReads IoFault.Failed result name.now (D.state depot.old)
        (D.state depot.new) }
{
    let mut done = 0;
    while done < buf.len() {
        let n = depot.read_at(name, at + done as u64, &mut buf[done..])?;
        if n == 0 {
            break;
        }
        done += n;
    }
    Ok(done)
}

/// Reads as `read_full` does, but over what `buf` held: only the octets that were read are told of it, and nothing after an Err.
/// The real folder then makes no copy.
pub fn read_full_over<D: Depot>(
    depot: &mut D,
    name: &str,
    at: u64,
    buf: &mut [u8],
) -> Result<usize, IoFault>
    ensures count { IfOk result (λ n. IsTrue (D.state depot.old).tells
        → n ≡ min (length buf.old) (length (octets_of ((D.state depot.old).held name.now)) - at)) }
    ensures octets { IfOk result
        (λ n. IsTrue (D.state depot.old).tells
        → IsRead ((D.state depot.old).held name.now) at n buf.new) }
    ensures present { OnOk result
        (IsTrue (D.state depot.old).tells → 0 < length buf.old
        → IsSome ((D.state depot.old).held name.now)) }
    ensures fits { IfOk result (λ n. n ≤ length buf.old) }
    ensures place { IfOk result (λ n. at + n < 2 ^ 64) }
    ensures frame { OnlyReads IoFault.Failed result name.now (D.state depot.old)
        (D.state depot.new) }
{
    let first = depot.read_over(name, at, buf)?;
    if first == 0 {
        return Ok(0);
    }
    let behind = read_full(depot, name, at + first as u64, &mut buf[first..])?;
    Ok(first + behind)
}

/// How many octets to read behind the first `len`: some, at most a piece, and at most one past the bound.
fn room_for(most: usize, len: usize, piece: usize) -> usize
    requires within { len ≤ most }
    requires piece { 0 < piece }
    ensures some { 0 < result }
    ensures fits { result ≤ piece }
    ensures bound { len + result ≤ most + 1 }
{
    (most - len).saturating_add(1).min(piece)
}

/// Reads some octets more behind those of `whole`, and answers how many: 0 at the file's end.
fn read_more<D: Depot>(
    depot: &mut D,
    name: &str,
    most: usize,
    piece: &mut [u8],
    whole: &mut Vec<u8>,
) -> Result<usize, WholeFault>
    requires within { vec_len whole.old ≤ most }
    requires piece { 0 < length piece.old }
    ensures grown { IfOk result (λ n. vec_len whole.new ≡ vec_len whole.old + n) }
    ensures within { IfOk result (λ n. vec_len whole.old + n ≤ most) }
    ensures octets { IfOk result (λ n. IsTrue (D.state depot.old).tells
        → whole.new.items ≡ whole.old.items
        ++ take n (drop (vec_len whole.old) (octets_of ((D.state depot.old).held name.now)))) }
    ensures present { OnOk result
        (IsTrue (D.state depot.old).tells → IsSome ((D.state depot.old).held name.now)) }
    ensures end { IfOk result (λ n. IsTrue (D.state depot.old).tells → n ≡ 0
        → length (octets_of ((D.state depot.old).held name.now)) ≤ vec_len whole.old) }
    ensures too_long { IsErrOf result WholeFault.TooLong → IsTrue (D.state depot.old).tells
        → most < length (octets_of ((D.state depot.old).held name.now)) }
    ensures frame { OnlyReads WholeFault.Failed result name.now (D.state depot.old)
        (D.state depot.new) }
{
    let room = room_for(most, whole.len(), piece.len());
    let n = depot.read_at(name, whole.len() as u64, &mut piece[..room])?;
    if n > most - whole.len() {
        return Err(WholeFault::TooLong);
    }
    whole.extend_from_slice(&piece[..n])?;
    Ok(n)
}

/// Reads a whole file of at most `most` octets, piece by piece, and at most one octet past that bound.
/// A longer file is TooLong, and never Ok. The memory taken goes by the file's length and not by `most`.
pub fn read_whole<D: Depot>(
    alloc: Global,
    depot: &mut D,
    name: &str,
    most: usize,
) -> Result<Vec<u8>, WholeFault>
    ensures whole { IfOk result
        (λ whole. IsTrue (D.state depot.old).tells
        → (D.state depot.old).held name.now ≡ Some whole.items) }
    ensures most { IfOk result (λ whole. vec_len whole ≤ most) }
    ensures too_long { IsErrOf result WholeFault.TooLong → IsTrue (D.state depot.old).tells
        → most < length (octets_of ((D.state depot.old).held name.now)) }
    ensures frame { OnlyReads WholeFault.Failed result name.now (D.state depot.old)
        (D.state depot.new) }
{
    let mut whole = Vec::new(alloc);
    let mut piece = new_piece(alloc)?;
    while read_more(depot, name, most, &mut piece, &mut whole)? > 0 {}
    Ok(whole)
}
