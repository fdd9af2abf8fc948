//! Laws of windows and of numbers in them.
ghost use Rattle.std.specs.Prelude.{◌≡◌, ◌≤◌, ◌<◌, ◌+◌, ◌^◌, ◌++◌, ℕ, List, length, take, drop};
ghost use Rattle.byteorder.specs.Endian.{little_bytes};
ghost use Rattle.net_io.specs.declared.file_window.order.OctetOrder.{OctetOrder};
ghost use Rattle.net_io.specs.declared.file_window.order.OctetOrder.TheVariants.{Little};
ghost use Rattle.net_io.specs.file_window.Numbers.{ordered_number};
ghost use Rattle.net_io.specs.file_window.Window.{IsFrom};

/// Octets that stand in a file from a place on are the front of what is left of it there.
pub fn a_window_is_a_front_of_the_rest()
    ensures { (file : List ℕ) (at : ℕ) (octets : List ℕ) → IsFrom file at octets
        → drop at file ≡ octets ++ drop (length octets) (drop at file) }
{}

/// They are no more than are left there.
pub fn a_window_has_no_more_than_the_rest()
    ensures { (file : List ℕ) (at : ℕ) (octets : List ℕ) → IsFrom file at octets
        → length octets ≤ length (drop at file) }
{}

/// Behind the first `n` of them the others go on, also where they are fewer.
pub fn a_window_goes_on_behind_octets()
    ensures { (file : List ℕ) (at n : ℕ) (octets : List ℕ) → IsFrom file at octets
        → IsFrom file (at + n) (drop n octets) }
{}

/// Octets among them are those of the file.
pub fn octets_of_a_window_are_the_files()
    ensures { (file : List ℕ) (at k n : ℕ) (octets : List ℕ) → IsFrom file at octets
        → k + n ≤ length octets → take n (drop k (drop at file)) ≡ take n (drop k octets) }
{}

/// A number among them is that of the file.
pub fn a_number_of_a_window_is_the_files()
    ensures { (order : OctetOrder) (n k : ℕ) (file : List ℕ) (at : ℕ) (octets : List ℕ)
        → IsFrom file at octets → k + n ≤ length octets
        → ordered_number order n (drop k (drop at file)) ≡ ordered_number order n (drop k octets) }
{}

/// What `n` octets tell is told by a window that has them, or all that are left of the file.
pub fn what_a_window_tells_the_file_tells<X>()
    ensures { (tell : List ℕ → X) (n : ℕ) (file : List ℕ) (at : ℕ) (octets : List ℕ)
        → ((front rest : List ℕ) → n ≤ length front → tell (front ++ rest) ≡ tell front)
        → IsFrom file at octets → (length octets < n → length octets ≡ length (drop at file))
        → tell (drop at file) ≡ tell octets }
{}

/// A number is told by its own octets, which stand first.
pub fn a_number_reads_its_own_octets()
    ensures { (order : OctetOrder) (n : ℕ) (octets more : List ℕ) → n ≤ length octets
        → ordered_number order n (octets ++ more) ≡ ordered_number order n octets }
{}

/// A number behind `k` octets is told by those up to its end.
pub fn a_number_behind_reads_its_own_octets()
    ensures { (order : OctetOrder) (n k : ℕ) (octets more : List ℕ) → k + n ≤ length octets
        → ordered_number order n (drop k (octets ++ more))
        ≡ ordered_number order n (drop k octets) }
{}

/// A number that is written lowest octet first reads back.
pub fn a_written_number_reads_back()
    ensures { (n x : ℕ) (more : List ℕ) → x < 256 ^ n
        → ordered_number Little n (little_bytes n x ++ more) ≡ x }
{}
