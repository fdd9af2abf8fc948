//! The versions of the tables under which packets were judged, as they were printed.

ghost use Rattle.std.specs.Prelude.{◌≡◌, ◌≤◌, ◌<◌, ◌-◌, ◌^◌, [], ◌∷◌, ◌++◌, length, take, drop};
ghost use Rattle.std.specs.Prelude.{slice_get, Some, OnOk, OnErr};
ghost use Rattle.call_report.specs.inside.Seen.{pieces_of, start_at, Reach};

use mls_label::OutOfMemory;
use std::alloc::Global;
use std::marker::Model;

/// For each packet of a flow, in order, the versions of the tables under which its hops were judged: at most 16 each. They are kept in one
/// list, so that a packet takes 4 octets and 4 for each hop. Contracts see them as a list of lists.
#[derive(Debug, Drop)]
pub struct FlowSeen {
    versions: Vec<u32>,
    ends: Vec<u32>,
}

impl Model for FlowSeen {
    ghost use Rattle.std.specs.Prelude.{List, ℕ, length};
    ghost use Rattle.call_report.specs.inside.Seen.{pieces_of, Reach};

    ghost Value = { List (List ℕ) };

    ghost view = { λ s. pieces_of s.versions.items 0 s.ends.items };

    ghost invariant = { λ s. Reach (length s.versions.items) 0 s.ends.items };
}

impl FlowSeen {
    /// No packet. It takes no memory.
    pub fn new(alloc: Global) -> FlowSeen
        ensures { result ≡ [] }
    {
        FlowSeen {
            versions: Vec::new(alloc),
            ends: Vec::new(alloc),
        }
    }

    /// How many packets there are.
    #[tactic(auto, using(crate::proofs::Pieces::pieces_count))]
    pub fn len(&self) -> usize
        ensures { result ≡ length self.now }
    {
        self.ends.len()
    }

    /// Adds a packet behind the others, with its versions. After an error nothing has changed.
    #[tactic(auto, using(crate::proofs::Pieces::pieces_count))]
    pub fn push(&mut self, versions: &[u32]) -> Result<(), OutOfMemory>
        requires few { length versions.now ≤ 16 }
        requires room { length self.old < 2 ^ 27 }
        ensures ok { OnOk result (self.new ≡ self.old ++ versions.now ∷ []) }
        ensures err { OnErr result (self.new ≡ self.old) }
    {
        push_piece(&mut self.versions, &mut self.ends, versions)
    }

    /// The versions of a packet, counted from 0.
    #[tactic(auto, using(crate::proofs::Pieces::pieces_count))]
    pub fn packet(&self, place: usize) -> &[u32]
        requires { place < length self.now }
        ensures { slice_get self.now place ≡ Some result.now }
    {
        piece(&self.versions, &self.ends, place)
    }
}

/// Adds a piece behind the others.
fn push_piece(
    versions: &mut Vec<u32>,
    ends: &mut Vec<u32>,
    piece: &[u32],
) -> Result<(), OutOfMemory>
    requires few { length piece.now ≤ 16 }
    requires room { length ends.old.items < 2 ^ 27 }
    requires reach { Reach (length versions.old.items) 0 ends.old.items }
    ensures reach { Reach (length versions.new.items) 0 ends.new.items }
    ensures ok { OnOk result (pieces_of versions.new.items 0 ends.new.items
        ≡ pieces_of versions.old.items 0 ends.old.items ++ piece.now ∷ []) }
    ensures err { OnErr result (pieces_of versions.new.items 0 ends.new.items
        ≡ pieces_of versions.old.items 0 ends.old.items) }
{
    let before = size(versions);
    append_piece(versions, piece)?;
    match ends.push(size(versions) as u32) {
        Ok(()) => Ok(()),
        Err(_failed) => {
            versions.truncate(before);
            Err(OutOfMemory)
        }
    }
}

/// Appends the versions of a packet. Mostly there is one, and to copy octets of a length that isn't known costs more.
fn append_piece(versions: &mut Vec<u32>, piece: &[u32]) -> Result<(), OutOfMemory>
    ensures ok { OnOk result (versions.new.items ≡ versions.old.items ++ piece.now) }
    ensures err { OnErr result (versions.new.items ≡ versions.old.items) }
{
    match piece {
        [one] => versions.push(*one)?,
        _ => versions.extend_from_slice(piece)?,
    }
    Ok(())
}

/// How many versions there are.
fn size(versions: &Vec<u32>) -> usize
    ensures { result ≡ length versions.now.items }
{
    versions.as_slice().len()
}

/// The piece at a place.
fn piece<'a>(versions: &'a [u32], ends: &[u32], place: usize) -> &'a [u32]
    requires within { place < length ends.now }
    requires reach { Reach (length versions.now) 0 ends.now }
    ensures { slice_get (pieces_of versions.now 0 ends.now) place ≡ Some result.now }
{
    part(versions, start_of(ends, place), ends[place] as usize)
}

/// What stands between two places.
fn part(versions: &[u32], start: usize, end: usize) -> &[u32]
    requires rises { start ≤ end }
    requires within { end ≤ length versions.now }
    ensures { result.now ≡ take (end - start) (drop start versions.now) }
{
    &versions[start..end]
}

/// Where the piece at a place starts: at the end of the one in front of it.
fn start_of(ends: &[u32], place: usize) -> usize
    requires { place < length ends.now }
    ensures { result ≡ start_at 0 ends.now place }
{
    if place == 0 {
        return 0;
    }
    ends[place - 1] as usize
}

/// For each flow of a script, in order, the versions of its packets. Only `run` has flows. Contracts see them as a list.
#[derive(Debug, Drop)]
pub struct Seen {
    flows: Vec<FlowSeen>,
}

impl Model for Seen {
    ghost use Rattle.std.specs.Prelude.{List, ℕ};

    ghost Value = { List (List (List ℕ)) };

    ghost view = { λ s. s.flows.items };
}

impl Seen {
    /// No flow. It takes no memory.
    pub fn none(alloc: Global) -> Seen
        ensures { result ≡ [] }
    {
        Seen {
            flows: Vec::new(alloc),
        }
    }

    /// These flows, in their order. It takes no memory.
    pub fn of(flows: Vec<FlowSeen>) -> Seen
        ensures { result ≡ flows.items }
    {
        Seen { flows }
    }

    /// The flows, from the first to the last.
    pub fn flows(&self) -> &[FlowSeen]
        ensures { result.now ≡ self.now }
    {
        &self.flows
    }

    /// Adds a flow behind the others. After an error nothing has changed.
    pub fn push(&mut self, flow: FlowSeen) -> Result<(), OutOfMemory>
        ensures ok { OnOk result (self.new ≡ self.old ++ flow ∷ []) }
        ensures err { OnErr result (self.new ≡ self.old) }
    {
        self.flows.push(flow)?;
        Ok(())
    }
}
