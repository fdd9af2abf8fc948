//! The terms of a label's text.

ghost use Rattle.std.specs.Prelude.{◌≡◌, ◌<◌, ◌≤◌, ◌||◌, [], length, drop, OnOk, IfOk, IfErr};
ghost use Rattle.mls_label.specs.Cats.{cats_where, has, is_within};
ghost use Rattle.mls_label.specs.Runs.{runs_of};
ghost use Rattle.mls_range.specs.Crowd.{IsCounted};
ghost use Rattle.mls_range.specs.LabelText.{IsTerm};
ghost use Rattle.mls_range.specs.inside.Rest.{BehindFirst, FaultIn, MissesEnd, ReadsLast, ReadsTerm, TermOn};
ghost use Rattle.mls_range.specs.inside.Stops.{ReadsTerms, StopsRun, StopsTerms};

use crate::fault::{TextFault, TextKind};
use crate::number::read_number;
use crate::octet::read_octet;
use mls_label::{CatSet, MOST_RUNS, WireFault, unfit};

/// The greatest category.
const HIGHEST_CATEGORY: u32 = mls_label::HIGHEST_CATEGORY as u32;

/// A term of a label's text, and the place behind it.
#[derive(Clone, Copy)]
struct Term {
    first: u16,
    last: u16,
    end: usize,
}

/// Refuses what can't stand behind a term. The text may end there, or a comma follow, or, with `dash`, the dash of a
/// range.
fn end_term(text: &[u8], at: usize, dash: bool) -> Result<(), WireFault>
    requires { at ≤ length text.now }
    ensures ok { OnOk result (IsCounted dash (drop at text.now)) }
    ensures place { IfErr result (λ fault. fault.octet ≡ at) }
    ensures err { IfErr result (λ fault. MissesEnd dash (drop at text.now) fault.kind) }
{
    if at == text.len() || text[at] == b',' || dash && text[at] == b'-' {
        Ok(())
    } else {
        Err(unfit(at))
    }
}

/// Reads what stands behind a term's first number: its last number, if it has one.
fn read_last(text: &[u8], start: usize, first: u32, dash: bool) -> Result<(u32, usize), WireFault>
    requires within { start ≤ length text.now }
    requires category { first < 65535 }
    ensures ok { IfOk result (λ read. ReadsLast dash text.now start first read.0 read.1) }
    ensures err { IfErr result (λ fault. FaultIn (BehindFirst dash first) text.now start fault) }
{
    if first == HIGHEST_CATEGORY || start == text.len() || text[start] != b'.' {
        end_term(text, start, dash)?;
        return Ok((first, start));
    }
    let letter = read_octet(text, start, b'.')?;
    let number = read_octet(text, letter, b'c')?;
    let (last, end) = read_number(text, number, first + 1, HIGHEST_CATEGORY)?;
    end_term(text, end, dash)?;
    Ok((last, end))
}

/// Reads a term.
fn read_term(text: &[u8], start: usize, dash: bool) -> Result<Term, WireFault>
    requires { start ≤ length text.now }
    ensures ok { IfOk result (λ term. ReadsTerm dash text.now start term.first term.last term.end) }
    ensures err { IfErr result (λ fault. FaultIn (TermOn dash) text.now start fault) }
{
    let number = read_octet(text, start, b'c')?;
    let (first, behind) = read_number(text, number, 0, HIGHEST_CATEGORY)?;
    let (last, end) = read_last(text, behind, first, dash)?;
    Ok(Term {
        first: first as u16,
        last: last as u16,
        end,
    })
}

/// Adds the categories of a term to the set. The fault of a set that can't have them stands where the term begins.
fn add_term(cats: &mut CatSet, term: &Term, start: usize) -> Result<(), TextFault>
    requires { IsTerm (term.now.first, term.now.last) }
    ensures ok { OnOk result
        (cats.new ≡ cats_where (λ c. has cats.old c || is_within term.now.first term.now.last c)) }
    ensures few { OnOk result (length (runs_of cats.new) ≤ MOST_RUNS) }
    ensures err { IfErr result (StopsRun cats.old term.now.first term.now.last start) }
{
    cats.add_run(term.first, term.last)
        .map_err(|_many| TextFault {
            octet: start,
            kind: TextKind::TooManyRuns,
        })
}

/// Reads terms up to their end into a set without categories, and gives that place.
pub(crate) fn read_terms(
    text: &[u8],
    start: usize,
    dash: bool,
    cats: &mut CatSet,
) -> Result<usize, TextFault>
    requires within { start ≤ length text.now }
    requires empty { cats.old ≡ [] }
    ensures ok { IfOk result (λ end. ReadsTerms dash text.now start cats.new end) }
    ensures err { IfErr result (StopsTerms dash text.now start) }
{
    let mut at = start;
    loop {
        let term = read_term(text, at, dash)?;
        add_term(cats, &term, at)?;
        if term.end == text.len() || text[term.end] != b',' {
            return Ok(term.end);
        }
        at = term.end + 1;
    }
}
