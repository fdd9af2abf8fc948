//! Reading: each stretch of ones becomes one run of the set.

ghost use Rattle.std.specs.Prelude.{◌≡◌, ℕ, ◌+◌, ◌*◌, ◌-◌, ◌<◌, ◌≤◌, ◌==◌, length, if◌then◌else◌};
ghost use Rattle.std.specs.Int.{bit_at};
ghost use Rattle.mls_label.specs.declared.cat_set.TheConstants.{MOST_RUNS};
ghost use Rattle.mls_label.specs.category_bitmap.Bitmap.{bitmap_cats, has_bit};
ghost use Rattle.mls_label.specs.category_bitmap.inside.Read.{IsRead, IsNextTurn, differs};

use crate::CatSet;

/// The categories of a bitmap of at most 244 octets: those whose bit is 1, category 0 being the most significant bit
/// of the first octet. Such a bitmap needs at most 976 runs, so the set takes them all.
pub fn read_bitmap(bitmap: &[u8], cats: &mut CatSet)
    requires { length bitmap.now ≤ 244 }
    ensures { cats.new ≡ bitmap_cats bitmap.now }
{
    cats.clear();
    let mut begun = None;
    let mut at = 0;
    while at < bitmap.len() {
        begun = read_word(bitmap, at, begun, cats);
        at += 4;
    }
    if let Some(first) = begun {
        cats.append_run(first, (8 * bitmap.len() - 1) as u16);
    }
}

// Reads four octets. What is begun is the run of ones that goes on to the place where reading is, as its first category.
fn read_word(bitmap: &[u8], at: usize, begun: Option<u16>, cats: &mut CatSet) -> Option<u16>
    requires place { at < length bitmap.now }
    requires most { 8 * at + 32 ≤ MOST_RUNS }
    requires read { IsRead bitmap.now cats.old begun (8 * at) }
    ensures { IsRead bitmap.now cats.new result (8 * at + 32) }
{
    let from = (8 * at) as u16;
    let mut turns = turns_of(word_at(bitmap, at), begun.is_some());
    if let Some(first) = begun {
        if turns == 0 {
            return begun;
        }
        let (place, rest) = next_turn(turns);
        cats.append_run(first, from + place as u16 - 1);
        turns = rest;
    }
    while turns != 0 {
        let (start, behind) = next_turn(turns);
        let first = from + start as u16;
        if behind == 0 {
            return Some(first);
        }
        let (end, rest) = next_turn(behind);
        cats.append_run(first, from + end as u16 - 1);
        turns = rest;
    }
    None
}

// Four octets from this place on, with zeros in place of those behind the end.
fn word_at(bitmap: &[u8], at: usize) -> u32
    requires { at < length bitmap.now }
    ensures { (k : ℕ) → k < 32 → (bit_at result (31 - k) == 1) ≡ has_bit bitmap.now (8 * at + k) }
{
    let rest = &bitmap[at..];
    if let [a, b, c, d, ..] = rest {
        return u32::from_be_bytes([*a, *b, *c, *d]);
    }
    match rest {
        [a, b, c, ..] => u32::from_be_bytes([*a, *b, *c, 0]),
        [a, b] => u32::from_be_bytes([*a, *b, 0, 0]),
        [a] => u32::from_be_bytes([*a, 0, 0, 0]),
        [] => 0,
    }
}

// The turns of a word: the places at which a bit isn't as the one in front of it, where runs begin and end. Place 0 is the most significant bit,
// and in front of it the last bit of the word before.
fn turns_of(word: u32, last: bool) -> u32
    ensures { (k : ℕ) → k < 32 → (bit_at result (31 - k) == 1)
        ≡ differs (bit_at word (31 - k) == 1)
        (if k == 0 then last else bit_at word (32 - k) == 1) }
{
    word ^ (word >> 1 | u32::from(last) << 31)
}

// The place of the first turn, and the turns behind it.
fn next_turn(turns: u32) -> (u32, u32)
    requires { 0 < turns }
    ensures { IsNextTurn turns result.0 result.1 }
{
    let place = turns.leading_zeros();
    (place, turns & 0x7fff_ffff >> place)
}
