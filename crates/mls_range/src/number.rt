//! Decimal numbers with bounds, read from the left up to the first octet that can't belong to them.

ghost use Rattle.std.specs.Prelude.{◌≡◌, ◌+◌, ◌*◌, ◌<◌, ◌≤◌, length, drop, MatchBool, IfOk, IfErr};
ghost use Rattle.mls_range.specs.inside.Number.{GoesOn, Reaches};
ghost use Rattle.mls_range.specs.inside.Rest.{FailsNumber, ReadsNumber, StopsHere};

use mls_label::{WireFault, octet_at, unfit};

/// Whether some digits behind `start` make a number from `low` to `high`.
fn reaches(start: u32, low: u32, high: u32) -> bool
    requires small { start < 1000000 }
    requires order { low ≤ high }
    requires bound { high < 65536 }
    ensures { MatchBool result (Reaches start start low high) (Reaches start start low high → ⊥) }
{
    let mut first = start;
    let mut last = start;
    while first <= high {
        if low <= last {
            return true;
        }
        first = 10 * first;
        last = 10 * last + 9;
    }
    false
}

/// Whether an octet may come next in a number from `low` to `high`, of which `count` digits that make `number` stand
/// before it.
fn goes_on(count: usize, number: u32, octet: u8, low: u32, high: u32) -> bool
    requires small { number < 65536 }
    requires order { low ≤ high }
    requires bound { high < 65536 }
    ensures { MatchBool result
        (GoesOn count number octet low high) (GoesOn count number octet low high → ⊥) }
{
    let is_led_by_zero = if count == 0 {
        octet == b'0' && low > 0
    } else {
        number == 0
    };
    octet.is_ascii_digit()
        && !is_led_by_zero
        && reaches(10 * number + u32::from(octet - b'0'), low, high)
}

/// The fault of a text that doesn't go on as it should at a place: the octet there doesn't fit, or the text ends.
fn fault_at(text: &[u8], at: usize) -> WireFault
    requires { at ≤ length text.now }
    ensures place { result.octet ≡ at }
    ensures kind { StopsHere (drop at text.now) result.kind }
{
    match octet_at(text, at) {
        Ok(_octet) => unfit(at),
        Err(end) => end,
    }
}

/// Reads the longest number from `low` to `high` that begins at `start`, and gives it with its end.
pub(crate) fn read_number(
    text: &[u8],
    start: usize,
    low: u32,
    high: u32,
) -> Result<(u32, usize), WireFault>
    requires within { start ≤ length text.now }
    requires order { low ≤ high }
    requires bound { high < 65536 }
    ensures ok { IfOk result (λ read. ReadsNumber text.now start low high read.0 read.1) }
    ensures err { IfErr result (λ fault. FailsNumber text.now start low high fault) }
{
    let mut number = 0;
    let mut at = start;
    while at < text.len() && goes_on(at - start, number, text[at], low, high) {
        number = 10 * number + u32::from(text[at] - b'0');
        at += 1;
    }
    if at == start || number < low {
        return Err(fault_at(text, at));
    }
    Ok((number, at))
}
