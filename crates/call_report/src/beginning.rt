//! The beginning of a packet's line, which is counted up from packet to packet.

ghost use Rattle.std.specs.Prelude.{◌≡◌, ℕ, ◌+◌, ◌<◌, ◌^◌, ◌++◌, IsTrue, length, OnOk, IfOk};
ghost use Rattle.std.specs.Fmt.{decimal};
ghost use Rattle.call_report.specs.inside.Kept.{packet_beginning, flow_beginning, IsBeginning};

use mls_label::{OutOfMemory, write_decimal};
use std::alloc::Global;
use std::marker::Model;

/// What stands in a packet's line in front of what became of it, with the flow's number and the packet's.
#[derive(Drop)]
pub(crate) struct Beginning {
    text: Vec<u8>,
    /// How many octets stand in front of the packet's number.
    front: usize,
    flow: u64,
    number: u64,
    /// The text is that of these numbers.
    is_written: bool,
}

impl Model for Beginning {
    ghost use Rattle.std.specs.Prelude.{List, ℕ, IsTrue};
    ghost use Rattle.call_report.specs.inside.Kept.{IsBeginning};

    ghost Value = { List ℕ };

    ghost view = { λ b. b.text.items };

    ghost invariant = { λ b. IsTrue b.is_written
        → IsBeginning b.flow b.number b.front b.text.items };
}

impl Beginning {
    pub fn new(alloc: Global) -> Beginning {
        Beginning {
            text: Vec::new(alloc),
            front: 0,
            flow: 0,
            number: 0,
            is_written: false,
        }
    }

    pub fn text(&self) -> &[u8]
        ensures { result.now ≡ self.now }
    {
        &self.text
    }

    /// Goes on to this packet of this flow. The one behind the last packet is counted up in place.
    pub fn turn_to(&mut self, flow: u64, number: u64) -> Result<(), OutOfMemory>
        ensures { OnOk result (self.new ≡ packet_beginning flow number) }
    {
        let follows = self.is_written
            && self.flow == flow
            && self.number.checked_add(1) == Some(number);
        if follows && count_text_up(&mut self.text, self.front) {
            self.number = number;
            return Ok(());
        }
        self.is_written = false;
        self.front = write_beginning(flow, number, &mut self.text)?;
        self.flow = flow;
        self.number = number;
        self.is_written = true;
        Ok(())
    }
}

/// Writes a beginning in place of what was there, and tells how many octets of it stand in front of the packet's number.
fn write_beginning(flow: u64, number: u64, text: &mut Vec<u8>) -> Result<usize, OutOfMemory>
    ensures { IfOk result (λ front. IsBeginning flow number front text.new.items) }
{
    text.clear();
    text.extend_from_slice(b"packet ")?;
    write_decimal(flow, text)?;
    text.extend_from_slice(b".")?;
    let front = text.len();
    write_decimal(number, text)?;
    text.extend_from_slice(b" ")?;
    Ok(front)
}

/// Counts the number up between the first `front` octets and the blank at the end.
fn count_text_up(text: &mut [u8], front: usize) -> bool
    requires { front < length text.old }
    ensures { IsTrue result → (flow number : ℕ) → number + 1 < 2 ^ 64
        → IsBeginning flow number front text.old
        → IsBeginning flow (number + 1) front text.new }
{
    let blank = text.len() - 1;
    count_up(&mut text[front..blank])
}

/// Counts a decimal number up where it has room for that; else what is left is no number.
fn count_up(digits: &mut [u8]) -> bool
    ensures some { IsTrue result → 0 < length digits.old }
    ensures counted { IsTrue result → (number : ℕ) → number + 1 < 2 ^ 64
        → digits.old ≡ decimal number → digits.new ≡ decimal (number + 1) }
{
    let Some(last) = digits.len().checked_sub(1) else {
        return false;
    };
    if digits[last] < b'9' {
        digits[last] += 1;
        return true;
    }
    digits[last] = b'0';
    count_up(&mut digits[..last])
}
