//! Writing: zeros, and then the ones of each run, octet by octet.

ghost use Rattle.std.specs.Prelude.{◌≡◌, ◌+◌, ◌-◌, ◌*◌, ◌++◌, ◌<◌, ◌≤◌, ◌||◌, ◌==◌, ℕ, length, replicate};
ghost use Rattle.std.specs.Int.{bit_at};
ghost use Rattle.arrayvec.specs.ArrayVec.{array_vec_len};
ghost use Rattle.mls_label.specs.Cats.{is_within};
ghost use Rattle.mls_label.specs.category_bitmap.Bitmap.{has_bit, octets_needed, bitmap_of};

use crate::CatSet;
use arrayvec::ArrayVec;

// So many zeros are appended at once.
const PIECE: usize = 32;

/// The octets that the bitmap of a set needs: 0 for the empty set, and else those up to the one of its highest category.
pub fn octets_of(cats: &CatSet) -> usize
    ensures { result ≡ octets_needed cats.now }
{
    match cats.highest() {
        Some(category) => category as usize / 8 + 1,
        None => 0,
    }
}

/// Appends the first `octets` octets of the bitmap of a set.
pub fn write_bitmap<const N: usize>(cats: &CatSet, octets: usize, out: &mut ArrayVec<u8, N>)
    requires most { octets ≤ 8192 }
    requires room { array_vec_len out.old + octets ≤ N }
    ensures { out.new.items ≡ out.old.items ++ bitmap_of cats.now octets }
{
    let start = out.len();
    push_zeros(octets, out);
    set_cats(cats, &mut out[start..]);
}

fn push_zeros<const N: usize>(octets: usize, out: &mut ArrayVec<u8, N>)
    requires { array_vec_len out.old + octets ≤ N }
    ensures { out.new.items ≡ out.old.items ++ replicate octets 0 }
{
    let mut left = octets;
    while left > 0 {
        let piece = left.min(PIECE);
        match out.try_extend_from_slice(&[0; PIECE][..piece]) {
            Ok(()) => left -= piece,
            Err(_) => unreachable!(),
        }
    }
}

// Makes a bitmap of zeros that of the set.
fn set_cats(cats: &CatSet, bitmap: &mut [u8])
    requires most { length bitmap.old ≤ 8192 }
    requires zeros { bitmap.old ≡ replicate (length bitmap.old) 0 }
    ensures { bitmap.new ≡ bitmap_of cats.now (length bitmap.old) }
{
    for i in 0..cats.runs() {
        let (first, last) = cats.run(i);
        set_run(usize::from(first), usize::from(last), bitmap);
    }
}

// Sets the bits of a run, as far as the bitmap goes.
fn set_run(first: usize, last: usize, bitmap: &mut [u8])
    requires order { first ≤ last }
    requires categories { last < 65535 }
    requires most { length bitmap.old ≤ 8192 }
    ensures length { length bitmap.new ≡ length bitmap.old }
    ensures bits { (c : ℕ) → c < 8 * length bitmap.old
        → has_bit bitmap.new c ≡ (has_bit bitmap.old c || is_within first last c) }
{
    // Most runs stand in one octet.
    if first / 8 == last / 8 && last / 8 < bitmap.len() {
        bitmap[last / 8] |= ones(first % 8, last % 8);
        return;
    }
    let end = bitmap.len().min(last / 8 + 1);
    for at in first / 8..end {
        let from = first.saturating_sub(8 * at);
        let to = (last - 8 * at).min(7);
        bitmap[at] |= ones(from, to);
    }
}

// The octet whose bits are 1 from place `first` to place `last`. Place 0 is the most significant bit.
fn ones(first: usize, last: usize) -> u8
    requires order { first ≤ last }
    requires places { last < 8 }
    ensures { (k : ℕ) → k < 8 → (bit_at result (7 - k) == 1) ≡ is_within first last k }
{
    0xff >> first & !(0x7f >> last)
}
