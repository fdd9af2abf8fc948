//! Makers of packets.

ghost use Rattle.std.specs.Prelude.{◌≡◌, ◌+◌, ◌^◌, ◌<◌, [], IfOk, OnOk, OnErr};
ghost use Rattle.made_run.specs.made_capture.Capture.{frame_made};

use crate::made_capture::number::next_number;
use crate::made_capture::packet::write_packet;
use mls_label::{Label, OutOfMemory};
use pcap_frames::FrameHead;
use std::marker::Model;

/// Makes the packets of a capture, one after another.
#[derive(Debug, Drop)]
pub struct Maker {
    /// The number from which the capture is made.
    seed: u64,
    made: u32,
    /// The number of the last packet; the seed where none is made yet.
    number: u64,
    /// Room for the label of a packet.
    label: Label,
}

impl Model for Maker {
    ghost use Rattle.std.specs.Prelude.{◌≡◌};
    ghost use Rattle.made_run.specs.made_capture.Number.{number_at};
    ghost use Rattle.made_run.specs.made_capture.Maker.{Making};

    ghost Value = { Making };

    ghost view = { λ m. record { seed = m.seed; made = m.made } };

    ghost invariant = { λ m. m.number ≡ number_at m.seed m.made };
}

impl Maker {
    /// A maker of the capture from this number, before its first packet.
    pub fn new(seed: u64) -> Maker
        ensures { result ≡ record { seed = seed; made = 0 } }
    {
        Maker {
            seed,
            made: 0,
            number: seed,
            label: Label::lowest(),
        }
    }

    /// How many packets it has made.
    pub fn made(&self) -> u32
        ensures { result ≡ self.now.made }
    {
        self.made
    }

    /// Makes the next packet: `octets` becomes exactly that packet, and the answer is the head of its frame. Memory is taken only
    /// where `octets` has no room. After an error `octets` is empty, and the packet is still to be made.
    pub fn next(&mut self, octets: &mut Vec<u8>) -> Result<FrameHead, OutOfMemory>
        requires { self.old.made + 1 < 2 ^ 32 }
        ensures frame { IfOk result (λ head. record { head = head; octets = octets.new.items }
            ≡ frame_made self.old.seed (self.old.made + 1)) }
        ensures ok { OnOk result
            (self.new ≡ record { seed = self.old.seed; made = self.old.made + 1 }) }
        ensures err { OnErr result (self.new ≡ self.old) }
        ensures empty { OnErr result (octets.new.items ≡ []) }
    {
        let number = next_number(self.number);
        write_packet(number, &mut self.label, octets)?;
        self.number = number;
        self.made += 1;
        Ok(FrameHead {
            seconds: self.made,
            fraction: 0,
        })
    }
}
