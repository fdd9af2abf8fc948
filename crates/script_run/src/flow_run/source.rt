//! The packets of a capture, read in batches.

ghost use Rattle.std.specs.Prelude.{◌≡◌, ◌≤◌, ◌<◌, ◌⊎◌, IsTrue, ◌+◌, [], length, take, None, Some, Ok, Err, IsSome, if◌then◌else◌, All, OnErr, IfOk, IfErr, true, false, vec_len, vec_capacity};
ghost use Rattle.net_io.specs.Depot.{OnlyReads};
ghost use Rattle.captures.specs.Reader.{file_name_of, format_of, IsReadable, IsFileBegun};
ghost use Rattle.captures.specs.Written.{IsTime};
ghost use Rattle.label_flow.specs.Feed.{HasFetched};
ghost use Rattle.script_run.specs.flow_run.inside.Flown.{IsFresh};
ghost use Rattle.script_run.specs.flow_run.inside.Source.{IsAmid, StandsBy, HasGot, HasOnlyRead, IsFed, IsAhead, SameFetched, read_into, HasStepped, left_in, due_in, pending, is_end, file_of, behind_at};

use crate::flow_run::end::FlowStop;
use captures::{CaptureReader, FileFault, ReadStop};
use label_commands::FileName;
use label_flow::{Octets, PacketIn};
use net_io::Depot;
use pcap_frames::FrameHead;
use std::alloc::Global;
use std::mem;

// The most packets of a batch for so many workers over so many hops. One worker has each packet still near when it comes to it; for several,
// a batch has to last where a walk takes long: at its end they wait for each other.
fn most_at_once(workers: usize, hops: usize) -> usize
    ensures some { 0 < result }
    ensures few { result ≤ 1024 }
{
    match (workers, hops) {
        (0 | 1, _) | (_, 0 | 1) => 256,
        (_, 2 | 3) => 512,
        _ => 1_024,
    }
}

// A batch ends where its packets have so many octets, however few they are.
const OCTETS_AT_ONCE: usize = 1 << 21;

// A place whose packet had more octets doesn't keep their room for the next one: there are many places, and a large packet may come to each.
const OCTETS_KEPT: usize = 1 << 14;

/// What stands behind the packets that were read.
#[derive(Clone, Copy, Debug, PartialEq, Eq)]
pub enum Behind {
    /// The capture's end.
    Whole,
    /// A fault of the capture.
    Broken(FileFault),
    /// One packet more than may be read.
    TooMany,
    /// A read has failed there.
    Failed,
    /// Memory ran out there.
    NoMemory,
}

/// Reads the packets of a capture, some of them ahead. Buffers are used again from batch to batch.
#[derive(Drop)]
pub struct Source {
    pub reader: CaptureReader,
    /// How many workers its packets are for, and over how many hops.
    pub workers: usize,
    pub hops: usize,
    /// How many packets may be read, and how many were.
    pub most: u64,
    pub read: u64,
    pub behind: Option<Behind>,
    /// The times of the frames that were read ahead, whose packets are to be fetched.
    pub heads: Vec<FrameHead>,
    /// The times of the frames whose packets were fetched last, of which those in front of `at` are used.
    pub fetched: Vec<FrameHead>,
    pub at: usize,
}

// Makes room for a packet and its time: behind those of the batch there is no packet yet, or one whose room is used again unless it is large.
fn has_place(alloc: Global, batch: &mut Vec<PacketIn>, heads: &mut Vec<FrameHead>) -> bool
    requires { length heads.old.items ≤ length batch.old.items }
    ensures batch { take (length heads.old.items) batch.new.items
        ≡ take (length heads.old.items) batch.old.items }
    ensures heads { heads.new.items ≡ heads.old.items }
    ensures place { IsTrue result → (length heads.new.items < length batch.new.items)
        × (vec_len heads.new < vec_capacity heads.new) }
{
    if heads.reserve(1).is_err() {
        return false;
    }
    if heads.len() < batch.len() {
        renew(alloc, batch, heads.len());
        return true;
    }
    batch.push(empty_packet(alloc)).is_ok()
}

// A packet is to be read into this place: where that of a batch before was large, its room is given back.
fn renew(alloc: Global, batch: &mut [PacketIn], place: usize)
    requires { place < length batch.old }
    ensures front { take place batch.new ≡ take place batch.old }
    ensures count { length batch.new ≡ length batch.old }
{
    if batch[place].bytes.as_slice().len() > OCTETS_KEPT {
        batch[place] = empty_packet(alloc);
    }
}

// A packet to read into.
fn empty_packet(alloc: Global) -> PacketIn {
    PacketIn {
        bytes: Octets::of(Vec::new(alloc)),
        is_ip: false,
    }
}

// What stands behind the packets that were read, where the reader stops.
fn behind_at(stop: ReadStop) -> Behind
    ensures { result ≡ behind_at stop }
{
    match stop {
        ReadStop::Capture(fault) => Behind::Broken(FileFault::Pcap(fault)),
        ReadStop::Ng(fault) => Behind::Broken(FileFault::Pcapng(fault)),
        ReadStop::ReadFault => Behind::Failed,
        ReadStop::OutOfMemory => Behind::NoMemory,
    }
}

// Reads the next packet into the batch, and answers true; or keeps what stands there, where there is none that may be taken.
fn read_one<D: Depot>(
    alloc: Global,
    depot: &mut D,
    source: &mut Source,
    batch: &mut Vec<PacketIn>,
) -> bool
    requires ready { IsReadable (D.state depot.old) source.old.reader }
    requires amid { IsTrue (D.state depot.old).tells
        → IsAmid source.old (file_of (D.state depot.old) source.old) }
    requires within { source.old.read ≤ source.old.most }
    requires begins { source.old.behind ≡ None }
    requires places { length source.old.heads.items ≤ length batch.old.items }
    ensures within { source.new.read ≤ source.new.most }
    ensures ready { IsReadable (D.state depot.new) source.new.reader }
    ensures reads { HasOnlyRead source.new.behind (file_name_of source.old.reader)
        (D.state depot.old) (D.state depot.new) }
    ensures stands { IsTrue (D.state depot.old).tells
        → StandsBy source.new.behind source.new (file_of (D.state depot.old) source.old) }
    ensures got { HasGot (D.state depot.old).tells (file_of (D.state depot.old) source.old)
        source.old source.new
        (read_into source.old batch.old.items) (read_into source.new batch.new.items) }
    ensures more { result ≡ true → source.new.behind ≡ None }
    ensures last { result ≡ false → IsSome source.new.behind }
    ensures count { length source.new.heads.items
        ≡ length source.old.heads.items + (if result then 1 else 0) }
    ensures read { source.new.read ≡ source.old.read + (if result then 1 else 0) }
    ensures places { length source.new.heads.items ≤ length batch.new.items }
{
    if !has_place(alloc, batch, &mut source.heads) {
        source.behind = Some(Behind::NoMemory);
        return false;
    }
    let place = source.heads.len();
    match source.reader.next(depot, &mut batch[place]) {
        Ok(Some(head)) => {
            if source.read == source.most {
                source.behind = Some(Behind::TooMany);
                return false;
            }
            source.read += 1;
            source.heads.push_reserved(head);
            true
        }
        Ok(None) => {
            source.behind = Some(Behind::Whole);
            false
        }
        Err(stop) => {
            source.behind = Some(behind_at(stop));
            false
        }
    }
}

// How many octets the last of so many packets has.
fn octets_of_last(batch: &[PacketIn], count: usize) -> usize
    requires some { 0 < count }
    requires within { count ≤ length batch.now }
{
    batch[count - 1].bytes.as_slice().len()
}

// Reads until the batch is full, by its packets or by their octets, or up to what stands behind the last packet.
fn fill<D: Depot>(alloc: Global, depot: &mut D, source: &mut Source, batch: &mut Vec<PacketIn>)
    requires ready { IsReadable (D.state depot.old) source.old.reader }
    requires amid { IsTrue (D.state depot.old).tells
        → IsAmid source.old (file_of (D.state depot.old) source.old) }
    requires within { source.old.read ≤ source.old.most }
    requires begins { source.old.behind ≡ None }
    requires empty { source.old.heads.items ≡ [] }
    ensures within { source.new.read ≤ source.new.most }
    ensures ready { IsReadable (D.state depot.new) source.new.reader }
    ensures reads { HasOnlyRead source.new.behind (file_name_of source.old.reader)
        (D.state depot.old) (D.state depot.new) }
    ensures stands { IsTrue (D.state depot.old).tells
        → StandsBy source.new.behind source.new (file_of (D.state depot.old) source.old) }
    ensures got { HasGot (D.state depot.old).tells (file_of (D.state depot.old) source.old)
        source.old source.new
        (read_into source.old batch.old.items) (read_into source.new batch.new.items) }
    ensures few { length source.new.heads.items ≤ 1024 }
    ensures counted { length source.new.heads.items + source.old.read
        ≡ length source.old.heads.items + source.new.read }
    ensures places { length source.new.heads.items ≤ length batch.new.items }
    ensures some { (0 < length source.new.heads.items) ⊎ IsSome source.new.behind }
{
    let most = most_at_once(source.workers, source.hops);
    let mut room = OCTETS_AT_ONCE;
    while room > 0 && source.heads.len() < most {
        if !read_one(alloc, depot, source, batch) {
            return;
        }
        room = room.saturating_sub(octets_of_last(batch, source.heads.len()));
    }
}

/// Reads the packets that come next, unless some were read ahead, or what stands behind the last one is known already.
pub(crate) fn read_ahead<D: Depot>(
    alloc: Global,
    depot: &mut D,
    source: &mut Source,
    next: &mut Vec<PacketIn>,
)
    requires fed { IsFed (D.state depot.old) source.old }
    requires ahead { IsAhead source.old next.old.items }
    ensures fed { IsFed (D.state depot.new) source.new }
    ensures ahead { IsAhead source.new next.new.items }
    ensures some { (0 < length source.new.heads.items) ⊎ IsSome source.new.behind }
    ensures fetched { SameFetched source.old source.new }
    ensures left { left_in (D.state depot.new) source.new next.new.items
        ≡ left_in (D.state depot.old) source.old next.old.items }
    ensures stepped { HasStepped source.old source.new (D.state depot.old) (D.state depot.new) }
{
    if !source.heads.is_empty() || source.behind.is_some() {
        return;
    }
    fill(alloc, depot, source, next)
}

// What was read ahead is fetched: it moves to the batch, in place of what that held.
fn give(source: &mut Source, next: &mut Vec<PacketIn>, batch: &mut Vec<PacketIn>)
    requires { IsAhead source.old next.old.items }
    ensures batch { batch.new.items ≡ read_into source.old next.old.items }
    ensures fetched { source.new.fetched.items ≡ source.old.heads.items }
    ensures heads { source.new.heads.items ≡ [] }
    ensures at { source.new.at ≡ 0 }
    ensures reader { (source.new.reader ≡ source.old.reader)
        × (source.new.most ≡ source.old.most)
        × (source.new.read ≡ source.old.read)
        × (source.new.behind ≡ source.old.behind) }
{
    source.fetched.clear();
    source.at = 0;
    mem::swap(&mut source.heads, &mut source.fetched);
    mem::swap(batch, next);
    batch.truncate(source.fetched.len());
}

// What is answered behind the last packet.
fn last_answer(behind: Option<Behind>) -> Result<bool, FlowStop>
    requires { IsSome behind }
    ensures ok { IfOk result (λ more. (more ≡ false) × (is_end behind ≡ true)) }
    ensures err { IfErr result (λ stop. pending behind ≡ Some stop) }
{
    match behind {
        Some(Behind::Failed) => Err(FlowStop::Read),
        Some(Behind::NoMemory) => Err(FlowStop::OutOfMemory),
        Some(Behind::Whole | Behind::Broken(_) | Behind::TooMany) => Ok(false),
        None => unreachable!(),
    }
}

/// Moves the next packets into the batch, in place of what it held, and answers true; or answers false behind the last one. Where a read
/// fails or memory runs out behind some packets, these come first.
pub(crate) fn fetch_batch<D: Depot>(
    alloc: Global,
    depot: &mut D,
    source: &mut Source,
    next: &mut Vec<PacketIn>,
    batch: &mut Vec<PacketIn>,
) -> Result<bool, FlowStop>
    requires fed { IsFed (D.state depot.old) source.old }
    requires ahead { IsAhead source.old next.old.items }
    requires due { due_in source.old ≡ 0 }
    ensures fed { IsFed (D.state depot.new) source.new }
    ensures ahead { IsAhead source.new next.new.items }
    ensures fetched { IfOk result (λ more.
        HasFetched (left_in (D.state depot.old) source.old next.old.items) more batch.new.items
        (left_in (D.state depot.new) source.new next.new.items) (due_in source.new)) }
    ensures ended { IfOk result (λ more. more ≡ false → is_end source.new.behind ≡ true) }
    ensures left { OnErr result (left_in (D.state depot.new) source.new next.new.items
        ≡ left_in (D.state depot.old) source.old next.old.items) }
    ensures stop { IfErr result (λ stop. (due_in source.new ≡ 0)
        × (pending source.new.behind ≡ Some stop)) }
    ensures stepped { HasStepped source.old source.new (D.state depot.old) (D.state depot.new) }
    ensures at { source.new.at ≤ length source.new.fetched.items }
{
    read_ahead(alloc, depot, source, next);
    give(source, next, batch);
    if !batch.is_empty() {
        return Ok(true);
    }
    last_answer(source.behind)
}

/// Begins to read the capture of this name, of which so many packets may be read, for so many workers and hops.
pub(crate) fn begin_source<D: Depot>(
    alloc: Global,
    depot: &mut D,
    name: &FileName,
    most: u64,
    workers: usize,
    hops: usize,
) -> Result<Source, ReadStop>
    ensures fresh { IfOk result (λ source. IsFresh name.now most source) }
    ensures fed { IfOk result (λ source. IsFed (D.state depot.new) source) }
    ensures begun { IfOk result (λ source. IsTrue (D.state depot.old).tells
        → IsFileBegun (Ok source.reader) ((D.state depot.old).held name.now)) }
    ensures stops { IfErr result (λ stop. IsTrue (D.state depot.old).tells
        → IsFileBegun (Err stop) ((D.state depot.old).held name.now)) }
    ensures frame { OnlyReads ReadStop.ReadFault result name.now
        (D.state depot.old) (D.state depot.new) }
{
    match CaptureReader::begin(alloc, depot, name.text()) {
        Ok(reader) => Ok(Source {
            reader,
            workers,
            hops,
            most,
            read: 0,
            behind: None,
            heads: Vec::new(alloc),
            fetched: Vec::new(alloc),
            at: 0,
        }),
        Err(stop) => Err(stop),
    }
}
