//! The order by descending mask: with each prefix of a list, its number of bits and its place.

ghost use Rattle.std.specs.Prelude.{◌≡◌, ◌≤◌, length, OnOk, OnErr, map, filter, not, nat_eq, nat_lt};
ghost use Rattle.std.specs.List.{position, position_or_len};
ghost use Rattle.domain_map.specs.declared.order.Ranked.{Ranked};
ghost use Rattle.domain_map.specs.inside.Order.{ranked_in, lowered, without};

use mls_label::OutOfMemory;

/// A place of a list of prefixes, and how many bits the prefix there has.
#[derive(Clone, Copy, Debug)]
pub struct Ranked {
    pub bits: u8,
    pub place: usize,
}

/// Puts a place in, behind those that have as many bits. After an error nothing has changed.
pub fn rank_in(order: &mut Vec<Ranked>, ranked: Ranked) -> Result<(), OutOfMemory>
    ensures ok { OnOk result (order.new.items ≡ ranked_in ranked order.old.items) }
    ensures err { OnErr result (order.new.items ≡ order.old.items) }
{
    let at = rank_of(order, ranked.bits);
    order.insert(at, ranked)?;
    Ok(())
}

fn rank_of(order: &[Ranked], bits: u8) -> usize
    ensures rank { result ≡ position_or_len (λ (s : Ranked). nat_lt s.bits bits) order.now }
    ensures within { result ≤ length order.now }
{
    match first_below(order, bits) {
        Some(place) => place,
        None => order.len(),
    }
}

fn first_below(order: &[Ranked], bits: u8) -> Option<usize>
    ensures { result ≡ position (λ (s : Ranked). nat_lt s.bits bits) order.now }
{
    order.iter().position(|s| s.bits < bits)
}

/// Takes a place out; those behind it move up.
pub fn forget(order: &mut Vec<Ranked>, place: usize)
    ensures { order.new.items ≡ without place order.old.items }
{
    keep_others(order, place);
    lower(order, place);
}

fn keep_others(order: &mut Vec<Ranked>, place: usize)
    ensures { order.new.items ≡ filter
        (λ (r : Ranked). not (nat_eq r.place place)) order.old.items }
{
    order.retain(|r| r.place != place);
}

fn lower(order: &mut [Ranked], place: usize)
    ensures { order.new ≡ map (lowered place) order.old }
{
    for at in 0..order.len() {
        let ranked = order[at];
        order[at] = lowered(ranked, place);
    }
}

fn lowered(ranked: Ranked, place: usize) -> Ranked
    ensures { result ≡ lowered place ranked }
{
    Ranked {
        bits: ranked.bits,
        place: if place < ranked.place {
            ranked.place - 1
        } else {
            ranked.place
        },
    }
}
