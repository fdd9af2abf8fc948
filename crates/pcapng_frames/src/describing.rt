//! Section headers and interface descriptions.
ghost use Rattle.std.specs.Prelude.{◌≡◌, ◌+◌, ◌-◌, ◌<◌, ◌≤◌, ◌^◌, ℕ, IsTrue, None, List, length, drop, min, OnOk, OnErr, IfOk, IfSome};
ghost use Rattle.net_io.specs.Depot.{octets_of, OnlyReads};
ghost use Rattle.net_io.specs.file_window.Window.{IsFrom};
ghost use Rattle.pcapng_frames.specs.Options.{option_at, resolution_at};
ghost use Rattle.pcapng_frames.specs.Block.{section_block, interface_block};
ghost use Rattle.pcapng_frames.specs.Reader.{IsNgAnswer};
ghost use Rattle.pcapng_frames.specs.inside.Parts.{rest_at, IsAhead, passed_block, IsSaid};
ghost use Rattle.pcapng_frames.specs.inside.Table.{KeepsTable};

use crate::head::BlockHead;
use crate::look::have;
use crate::options::{BlockOption, read_option};
use crate::section::SectionTable;
use crate::{Interface, NgFault, NgKind, NgStop};
use net_io::{Depot, OctetOrder, Window};

/// The resolution where no option tells it: microseconds.
const MICROSECONDS: u8 = 6;

/// Begins a section, and goes behind its header.
pub fn take_section(
    head: BlockHead,
    place: u64,
    window: &mut Window,
    section: &mut SectionTable,
) -> Result<(), NgFault>
    requires long { 14 ≤ length window.old }
    requires near { place < 2 ^ 40 }
    ensures answer { (rest : List ℕ) → IsFrom rest 0 window.old
        → IsSaid (λ _. passed_block section.new.section head.total) result
        (section_block place rest head) }
    ensures moved { OnOk result (window.new ≡ drop head.total window.old) }
    ensures kept { OnErr result (section.new ≡ section.old) }
    ensures later { KeepsTable section.old section.new }
{
    if head.order.u16_at(window.ahead(), 12) != 1 {
        return Err(NgFault {
            octet: place + 12,
            kind: NgKind::Version,
        });
    }
    section.begin(head.order);
    window.skip(head.total as usize);
    Ok(())
}

/// The option at `at`; None at the end of the list.
fn option_here<D: Depot>(
    depot: &mut D,
    name: &str,
    order: OctetOrder,
    at: u64,
    left: u32,
    window: &mut Window,
) -> Result<Option<BlockOption>, NgStop>
    requires ahead { IsAhead (D.state depot.old) name.now at window.old }
    requires place { at + length window.old < 2 ^ 64 }
    requires there { IsTrue (D.state depot.old).tells
        → at + (left + 4) ≤ length (octets_of ((D.state depot.old).held name.now)) }
    ensures answer { IsTrue (D.state depot.old).tells
        → IsNgAnswer (λ read. read) result
        (option_at order at left (rest_at (D.state depot.old) name.now at)) }
    ensures some { IfOk result (λ read. IfSome read (λ option. 4 ≤ option.size)) }
    ensures fits { IfOk result (λ read. IfSome read (λ option. option.size ≤ left)) }
    ensures ahead { IsAhead (D.state depot.old) name.now at window.new }
    ensures place { at + length window.new < 2 ^ 64 }
    ensures frame { OnlyReads NgStop.ReadFault result name.now (D.state depot.old)
        (D.state depot.new) }
{
    if left < 4 {
        return Ok(None);
    }
    have(depot, name, at, window, 5)?;
    Ok(read_option(order, at, left, window.ahead())?)
}

/// The resolution that the options from `from` on tell, with `left` octets up to the trailer; goes behind the trailer.
fn read_resolution<D: Depot>(
    depot: &mut D,
    name: &str,
    order: OctetOrder,
    from: u64,
    left: u32,
    window: &mut Window,
) -> Result<u8, NgStop>
    requires near { from < 2 ^ 41 }
    requires ahead { IsAhead (D.state depot.old) name.now from window.old }
    requires place { from + length window.old < 2 ^ 64 }
    requires there { IsTrue (D.state depot.old).tells
        → from + (left + 4) ≤ length (octets_of ((D.state depot.old).held name.now)) }
    ensures answer { IsTrue (D.state depot.old).tells
        → IsNgAnswer (λ resolution. resolution) result
        (resolution_at order None from left (rest_at (D.state depot.old) name.now from)) }
    ensures ahead { OnOk result
        (IsAhead (D.state depot.old) name.now (from + (left + 4)) window.new) }
    ensures place { OnOk result (from + (left + 4) + length window.new < 2 ^ 64) }
    ensures frame { OnlyReads NgStop.ReadFault result name.now (D.state depot.old)
        (D.state depot.new) }
{
    let mut at = from;
    let mut rest = left;
    let mut told: Option<u8> = None;
    while let Some(option) = option_here(depot, name, order, at, rest, window)? {
        told = told.or(option.resolution);
        window.skip(option.size as usize);
        at += u64::from(option.size);
        rest -= option.size;
    }
    window.skip(rest as usize + 4);
    Ok(told.unwrap_or(MICROSECONDS))
}

/// Takes in one more interface, and goes behind its block.
pub fn take_interface<D: Depot>(
    depot: &mut D,
    name: &str,
    head: BlockHead,
    place: u64,
    window: &mut Window,
    section: &mut SectionTable,
) -> Result<(), NgStop>
    requires least { 20 ≤ head.total }
    requires held { min head.total 65536 ≤ length window.old }
    requires near { place < 2 ^ 40 }
    requires ahead { IsAhead (D.state depot.old) name.now place window.old }
    requires place { place + length window.old < 2 ^ 64 }
    requires whole { IsTrue (D.state depot.old).tells
        → head.total ≤ length (rest_at (D.state depot.old) name.now place) }
    ensures answer { IsTrue (D.state depot.old).tells
        → IsNgAnswer (λ _. passed_block section.new.section head.total) result
        (interface_block section.old.section place
        (rest_at (D.state depot.old) name.now place) head) }
    ensures kept { OnErr result (section.new ≡ section.old) }
    ensures later { KeepsTable section.old section.new }
    ensures ahead { OnOk result
        (IsAhead (D.state depot.old) name.now (place + head.total) window.new) }
    ensures place { OnOk result (place + head.total + length window.new < 2 ^ 64) }
    ensures frame { OnlyReads NgStop.ReadFault result name.now (D.state depot.old)
        (D.state depot.new) }
{
    let link = head.order.u16_at(window.ahead(), 8);
    window.skip(16);
    let resolution = read_resolution(depot, name, head.order, place + 16, head.total - 20, window)?;
    section.describe(Interface { link, resolution })?;
    Ok(())
}
