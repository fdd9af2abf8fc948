//! The feed of a making.

ghost use Rattle.std.specs.Prelude.{◌≡◌, ◌+◌, ◌<◌, ◌^◌, [], if◌then◌else◌};
ghost use Rattle.made_run.specs.inside.Feed.{is_delivered};

use crate::source::{Source, fill};
use crate::stop::MadeStop;
use label_flow::{End, Feed, PacketIn, Walked};
use net_io::Depot;
use std::alloc::Global;
use std::mem;

/// The most packets of a batch.
const BATCH: u32 = 1024;

/// Makes the packets of a capture, appends their frames to its file, and counts what became of them.
#[derive(Drop)]
pub struct MakeFeed<'d, 'n, D> {
    pub depot: &'d mut D,
    pub name: &'n str,
    pub alloc: Global,
    pub source: Source,
    /// How many packets are made, and how many were given.
    pub count: u32,
    pub given: u32,
    /// What waits for the file.
    pub waiting: Vec<u8>,
    pub delivered: u32,
    pub denied: u32,
    pub stop: Option<MadeStop>,
}

// Empties the batch, whose buffers are kept for the packets that are made next.
fn give_back(source: &mut Source, batch: &mut Vec<PacketIn>)
    ensures empty { batch.new.items ≡ [] }
    ensures maker { source.new.maker ≡ source.old.maker }
{
    mem::swap(batch, &mut source.spare);
    batch.clear();
}

// A packet counts as delivered or as denied.
fn count(delivered: &mut u32, denied: &mut u32, walked: &Walked)
    requires { delivered.old + denied.old + 1 < 2 ^ 32 }
    ensures delivered { delivered.new ≡ delivered.old
        + (if is_delivered walked.now.end then 1 else 0) }
    ensures denied { denied.new ≡ denied.old + (if is_delivered walked.now.end then 0 else 1) }
{
    match &walked.end {
        End::Delivered { .. } => *delivered += 1,
        End::Denied { .. } | End::Sent { .. } => *denied += 1,
    }
}

impl<'d, 'n, D: Depot> Feed for MakeFeed<'d, 'n, D> {
    type Stop = MadeStop;

    ghost use Rattle.std.specs.Prelude.{Some, nat_eq};
    ghost use Rattle.made_run.specs.inside.Feed.{left_of, due_of, IsReadyFeed, HasJudged};

    ghost left = { λ f. Some (left_of f) };

    ghost ended = { λ f. nat_eq f.given f.count };

    ghost due = { λ f. due_of f };

    ghost stop = { λ f. f.stop };

    ghost hops = { λ _. 1 };

    ghost ready = { λ f. IsReadyFeed D.state f };

    ghost took = { λ was f pairs. HasJudged D.state was f pairs };

    fn fetch(&mut self, batch: &mut Vec<PacketIn>) -> Result<bool, MadeStop> {
        match self.stop {
            Some(stop) => return Err(stop),
            None => {}
        }
        give_back(&mut self.source, batch);
        let count = (self.count - self.given).min(BATCH);
        let source = &mut self.source;
        match fill(
            self.alloc,
            self.depot,
            self.name,
            source,
            &mut self.waiting,
            count,
            batch,
        ) {
            Ok(()) => {
                self.given += count;
                Ok(count > 0)
            }
            Err(stop) => {
                self.stop = Some(stop);
                Err(stop)
            }
        }
    }

    fn accept(&mut self, walked: &Walked, _packet: &[u8]) -> Result<(), MadeStop> {
        count(&mut self.delivered, &mut self.denied, walked);
        Ok(())
    }
}
