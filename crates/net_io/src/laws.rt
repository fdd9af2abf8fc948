//! What follows from the definitions alone.
ghost use Rattle.std.specs.Prelude.{◌-◌, ◌≤◌, ℕ, List, length, Option, Result, Ok, IsErrOf};
ghost use Rattle.net_io.specs.Depot.{DepotState, octets_of, IsRead, OnlyReads};

/// The octets that a read gives are within the file.
pub fn octets_read_are_within_the_file()
    ensures { (file : Option (List ℕ)) (at n : ℕ) (buffer : List ℕ) → n ≤ length buffer
        → IsRead file at n buffer → n ≤ length (octets_of file) - at }
{}

/// Reads behind reads that were answered are, all together, reads with the last answer.
pub fn reads_go_on<T, U, E>()
    ensures { (failed : E) (given : T) (result : Result U E) (name : List ℕ)
        (old middle new : DepotState)
        → OnlyReads {T = T} {E = E} failed (Ok given) name old middle
        → OnlyReads failed result name middle new → OnlyReads failed result name old new }
{}

/// Reads that were answered are reads with any other answer, but that they failed.
pub fn reads_may_be_answered_otherwise<T, U, E>()
    ensures { (failed : E) (given : T) (result : Result U E) (name : List ℕ)
        (old new : DepotState)
        → OnlyReads {T = T} {E = E} failed (Ok given) name old new
        → (IsErrOf result failed → ⊥) → OnlyReads failed result name old new }
{}
