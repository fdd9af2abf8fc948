//! What no clause says: that calls succeed with ample memory, how many reads they cost, and numbers worked by hand.
ghost use Rattle.std.specs.Prelude.{◌<◌};

use crate::checks::same;
use net_io::{IoFault, MemoryDepot, *};
use std::alloc::Global;
use std::process::Abort;

const OCTETS: [u8; 8] = [0x0a, 0x0d, 0x00, 0x80, 0xff, 0x01, 0x02, 0x03];

/// Order, place, the number of two octets there and that of four.
const NUMBERS: &[(OctetOrder, usize, u16, u32)] = &[
    (OctetOrder::Little, 0, 0x0d0a, 0x8000_0d0a),
    (OctetOrder::Big, 0, 0x0a0d, 0x0a0d_0080),
    (OctetOrder::Little, 3, 0xff80, 0x0201_ff80),
    (OctetOrder::Big, 3, 0x80ff, 0x80ff_0102),
    (OctetOrder::Little, 4, 0x01ff, 0x0302_01ff),
    (OctetOrder::Big, 4, 0xff01, 0xff01_0203),
];

#[test]
fn numbers_in_both_orders(rt: HostRuntime) {
    for &(order, at, two, four) in NUMBERS {
        assert!(rt; at <= 4);
        let numbers = (order.u16_at(&OCTETS, at), order.u32_at(&OCTETS, at));
        same(&rt, (order, at), numbers, (two, four));
    }
}

/// A file whose octets follow from their places.
fn file_of(rt: &impl Abort, alloc: Global, count: u32) -> Vec<u8> {
    let mut file = Vec::new(alloc);
    for place in 0..count {
        file.push((place % 251) as u8).expect(rt, "memory");
    }
    file
}

/// A folder with one file, of which a call moves at most a piece, and the calls of these numbers fail.
fn folder(rt: &impl Abort, alloc: Global, file: &[u8], fail: &[u32], piece: usize) -> MemoryDepot
    requires { 0 < piece }
{
    let mut depot = MemoryDepot::new(alloc, fail, piece).expect(rt, "memory");
    depot.put("a", file).expect(rt, "memory");
    depot
}

/// The octets of a file from one place to another, as far as it has them.
fn part(file: &[u8], from: usize, to: usize) -> &[u8] {
    let end = to.min(file.len());
    &file[from.min(end)..end]
}

/// Fills a window at several places.
fn fills(rt: &impl Abort, depot: &mut MemoryDepot, window: &mut Window, file: &[u8]) {
    for place in [0, 1, 4_464, 4_465, 69_999, 70_000, 80_000] {
        same(rt, place, window.fill(depot, "a", place as u64), Ok(()));
        let wanted = part(file, place, place.saturating_add(WINDOW));
        same(rt, place, window.ahead(), wanted);
    }
}

/// Fills a window at place 100, and skips what it has.
fn skips(rt: &impl Abort, depot: &mut MemoryDepot, window: &mut Window, file: &[u8]) {
    same(rt, "fill", window.fill(depot, "a", 100), Ok(()));
    window.skip(7);
    same(rt, "7 on", window.ahead(), part(file, 107, 100 + WINDOW));
    window.skip(65_528);
    same(rt, "one left", window.ahead(), part(file, 65_635, 65_636));
    window.skip(2);
    same(rt, "past the end", window.ahead().len(), 0);
}

#[test]
fn a_window_is_filled_and_passed(rt: HostRuntime) {
    let file = file_of(&rt, rt.alloc(), 70_000);
    for piece in [999, 1_000_000] {
        let mut depot = folder(&rt, rt.alloc(), &file, &[], piece);
        let mut window = Window::new(rt.alloc()).expect(&rt, "memory");
        same(&rt, "new", window.ahead().len(), 0);
        fills(&rt, &mut depot, &mut window, &file);
        skips(&rt, &mut depot, &mut window, &file);
    }
}

/// Where a window stands, how many octets it is to have, and how many it has then.
const REACHED: &[(u64, usize, usize)] = &[
    (0, 0, 0),
    (0, 1, 65_536),
    (0, 65_536, 65_536),
    (69_990, 10, 10),
    (69_990, 11, 10),
    (70_000, 1, 0),
];

/// The second read fails, and with it what has to read again; what the first one gave stays.
fn reads_on(rt: &impl Abort, alloc: Global, file: &[u8], row: (u64, usize, usize)) {
    let (place, need, count) = row;
    let mut depot = folder(rt, alloc, file, &[2], 1_000_000);
    let mut window = Window::new(alloc).expect(rt, "memory");
    assert!(rt; need <= WINDOW && place <= 70_000);
    let reached = window.reach(&mut depot, "a", place, need);
    if 0 < count && count < need {
        same(rt, row, reached, Err(IoFault::Failed));
        same(rt, row, window.ahead().len(), count);
        same(rt, row, window.reach(&mut depot, "a", place, need), Ok(()));
    } else {
        same(rt, row, reached, Ok(()));
    }
    same(rt, row, window.ahead().len(), count);
}

#[test]
fn a_window_reads_on_where_it_has_too_few(rt: HostRuntime) {
    let file = file_of(&rt, rt.alloc(), 70_000);
    for row in REACHED {
        reads_on(&rt, rt.alloc(), &file, *row);
    }
}

/// Where a window stands, the octets of it that are left out, how many are wanted, and how many there are.
const TAKEN: &[(usize, usize, usize, usize)] = &[
    (0, 16, 0, 0),
    (0, 16, 100, 100),
    (0, 16, 65_520, 65_520),
    (0, 16, 65_521, 65_521),
    (0, 65_536, 10, 10),
    (100, 28, 199_872, 199_872),
    (100, 28, 199_873, 199_872),
    (199_990, 10, 5, 0),
];

fn takes(
    rt: &impl Abort,
    alloc: Global,
    depot: &mut MemoryDepot,
    file: &[u8],
    row: (usize, usize, usize, usize),
) {
    let (place, front, wanted, count) = row;
    let mut window = Window::new(alloc).expect(rt, "memory");
    let at = place as u64;
    window.fill(depot, "a", at).expect(rt, "filled");
    assert!(rt; front <= window.ahead().len() && place <= 200_000);
    let mut into = Vec::new(alloc);
    let taken = take_behind(depot, "a", at, &window, front, wanted, &mut into);
    same(rt, row, (taken, into.len()), (Ok(count), wanted));
    let from = place.saturating_add(front);
    let octets = part(file, from, from.saturating_add(count));
    same(rt, row, part(&into, 0, count), octets);
}

#[test]
fn octets_are_taken_from_a_window_and_behind_it(rt: HostRuntime) {
    let file = file_of(&rt, rt.alloc(), 200_000);
    for piece in [50_000, 1_000_000] {
        let mut depot = folder(&rt, rt.alloc(), &file, &[], piece);
        for row in TAKEN {
            takes(&rt, rt.alloc(), &mut depot, &file, *row);
        }
    }
}
