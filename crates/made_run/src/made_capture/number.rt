//! The numbers that packets are made from.

ghost use Rattle.std.specs.Prelude.{◌≡◌};
ghost use Rattle.made_run.specs.made_capture.Number.{next_number};

/// Knuth's multiplier for MMIX.
const MULTIPLIER: u64 = 6364136223846793005;

/// Knuth's increment.
const INCREMENT: u64 = 1442695040888963407;

/// The number behind this one.
pub(crate) fn next_number(number: u64) -> u64
    ensures { result ≡ next_number number }
{
    number.wrapping_mul(MULTIPLIER).wrapping_add(INCREMENT)
}
