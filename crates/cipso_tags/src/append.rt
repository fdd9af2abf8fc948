//! Written numbers of two octets: one, those of a run, those of a set, the ends of its runs.

ghost use Rattle.std.specs.Prelude.{◌≡◌, ◌+◌, ◌*◌, ◌-◌, ◌<◌, ◌≤◌, ◌++◌, length, drop};
ghost use Rattle.std.specs.Int.{w16, to_be_bytes};
ghost use Rattle.std.specs.List.{range_with_len};
ghost use Rattle.arrayvec.specs.ArrayVec.{array_vec_len};
ghost use Rattle.mls_label.specs.Runs.{runs_of};
ghost use Rattle.cipso_tags.specs.Body.{words};
ghost use Rattle.cipso_tags.specs.Text.{ends_down, range_numbers};

use arrayvec::ArrayVec;
use mls_label::CatSet;

/// Appends the categories of a set, one by one.
pub(crate) fn append_enumeration<const N: usize>(cats: &CatSet, out: &mut ArrayVec<u8, N>)
    requires { array_vec_len out.old + 2 * length cats.now ≤ N }
    ensures { out.new.items ≡ out.old.items ++ words cats.now }
{
    for i in 0..cats.runs() {
        let (first, last) = cats.run(i);
        append_run(first, last, out);
    }
}

fn append_run<const N: usize>(first: u16, last: u16, out: &mut ArrayVec<u8, N>)
    requires order { first ≤ last }
    requires categories { last < 65535 }
    requires room { array_vec_len out.old + 2 * (last + 1 - first) ≤ N }
    ensures { out.new.items ≡ out.old.items ++ words (range_with_len first (last + 1 - first)) }
{
    for category in first..last + 1 {
        append_number(category, out);
    }
}

/// Appends the maximal runs of a set as ranges, from the highest down. The lowest bottom is left out where it is 0.
pub(crate) fn append_ranges<const N: usize>(cats: &CatSet, out: &mut ArrayVec<u8, N>)
    requires { array_vec_len out.old + 4 * length (runs_of cats.now) ≤ N }
    ensures { out.new.items ≡ out.old.items ++ words (range_numbers (runs_of cats.now)) }
{
    append_upper_ranges(cats, out);
    if cats.runs() == 0 {
        return;
    }
    let (bottom, top) = cats.run(0);
    append_number(top, out);
    if bottom != 0 {
        append_number(bottom, out);
    }
}

fn append_upper_ranges<const N: usize>(cats: &CatSet, out: &mut ArrayVec<u8, N>)
    requires { array_vec_len out.old + 4 * length (runs_of cats.now) ≤ N }
    ensures { out.new.items ≡ out.old.items ++ words (ends_down (drop 1 (runs_of cats.now))) }
{
    let mut left = cats.runs();
    while left > 1 {
        left -= 1;
        let (bottom, top) = cats.run(left);
        append_number(top, out);
        append_number(bottom, out);
    }
}

fn append_number<const N: usize>(number: u16, out: &mut ArrayVec<u8, N>)
    requires { array_vec_len out.old + 2 ≤ N }
    ensures { out.new.items ≡ out.old.items ++ to_be_bytes w16 number }
{
    let [high, low] = number.to_be_bytes();
    out.push(high);
    out.push(low);
}
