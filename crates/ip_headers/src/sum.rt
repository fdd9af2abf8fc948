// The one's complement sum over numbers of 16 bits (RFC 1071).

ghost use Rattle.std.specs.Prelude.{◌≡◌, ℕ, ◌+◌, ◌^◌, ◌<◌, ◌≤◌, length, sum};
ghost use Rattle.ip_headers.specs.Sum.{ones_add, ones_sum, words_of};
ghost use Rattle.ip_headers.specs.inside.Modulo.{modulo};

/// The one's complement sum of two numbers of 16 bits: a carry out of them comes in again below (RFC 791, section 3.1).
pub fn ones_add(a: u16, b: u16) -> u16
    ensures { result ≡ ones_add a b }
{
    let total = u32::from(a) + u32::from(b);
    if total < 65536 {
        return total as u16;
    }
    (total - 65535) as u16
}

/// The one's complement sum of the numbers of 16 bits, in network order, that these octets are. A last octet with no
/// partner is followed by zero (RFC 1071). Carries come in again at the end alone, since a sum is taken modulo 65,535.
pub fn ones_sum(octets: &[u8]) -> u16
    ensures { result ≡ ones_sum octets.now }
{
    let mut total = 0;
    let mut rest = octets;
    while let [a, b, c, d, e, f, g, h, after @ ..] = rest {
        let eight = u64::from_be_bytes([*a, *b, *c, *d, *e, *f, *g, *h]);
        total = carried(total, eight);
        rest = after;
    }
    modulo(carried(total, last_sum(rest)))
}

/// The sum of two numbers of 64 bits, whose carry comes in again below: 2^64 is 1 modulo 65,535.
fn carried(a: u64, b: u64) -> u64
    ensures { (more : ℕ) → modulo (result + more) ≡ modulo (a + b + more) }
{
    let (sum, carry) = a.overflowing_add(b);
    sum + u64::from(carry)
}

/// What fewer than eight octets add to a sum that is taken modulo 65,535.
fn last_sum(octets: &[u8]) -> u64
    requires { length octets.now < 8 }
    ensures { (total : ℕ)
        → modulo (total + result) ≡ modulo (total + sum (words_of octets.now)) }
{
    let [a, b, c, d, after @ ..] = octets else {
        return few_sum(octets);
    };
    u64::from(u32::from_be_bytes([*a, *b, *c, *d])) + few_sum(after)
}

/// The sum of the numbers of 16 bits that fewer than four octets are.
fn few_sum(octets: &[u8]) -> u64
    requires { length octets.now < 4 }
    ensures value { result ≡ sum (words_of octets.now) }
    ensures small { result < 2 ^ 17 }
{
    match octets {
        [a, b, c, ..] => u64::from(u16::from_be_bytes([*a, *b]))
            + u64::from(u16::from_be_bytes([*c, 0])),
        [a, b] => u64::from(u16::from_be_bytes([*a, *b])),
        [a] => u64::from(u16::from_be_bytes([*a, 0])),
        [] => 0,
    }
}

/// A sum modulo 65,535, from 1 to 65,535 where it isn't 0.
#[tactic(auto, unfolding(crate::specs::inside::Modulo::modulo))]
fn modulo(total: u64) -> u16
    ensures { result ≡ modulo total }
{
    if total == 0 {
        return 0;
    }
    (1 + (total - 1) % 65535) as u16
}
