//! Labels of multilevel security, as SELinux MLS has them: a level and a set of categories, ordered by dominance.
//! Contracts see a set as the ascending list of its numbers, and a label as its level and its set.
#![tactic(auto)]

mod cat_set;
pub mod category_bitmap;
mod kept_label;
mod kept_runs;
mod label;
pub mod laws;
pub mod octet_grammar;
mod packed_label;
mod run_list;

pub use crate::category_bitmap::{octets_of, read_bitmap, write_bitmap};
pub use crate::octet_grammar::{
    OutOfMemory, WireFault, WireKind, ended, moved, nonzero_at, number_in, octet_at, push_decimal,
    read_decimal, u16_at, u32_at, unfit, write_decimal,
};
pub use cat_set::{CatSet, HIGHEST_CATEGORY, MOST_RUNS, TooManyRuns};
pub use kept_label::KeptLabel;
pub use label::{Label, Proto, Tag};
pub use packed_label::PackedLabel;
