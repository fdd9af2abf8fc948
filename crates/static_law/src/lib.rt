//! Unlabelled hops under static labels. Where two neighbouring nodes agree, and the static labels that the second one gives to what comes in
//! without a label mean at least as much as all that the first one lets out there, no walk ends below the label at which it began, and the
//! receiver's level means at least as much as both, but for packets of version 6 with protocol 0 behind Hop-by-Hop. It is decided from the
//! tables alone: `covers` decides it of one link, and `cover` is the program that tells it of a flow. Another way in which a node gives a
//! label to what has none gets its case in `specs/Covered.antt`, its reason in `src/uncovered.rt` and `specs/Uncovered.antt`, and its line in
//! `specs/Lines.antt` and `src/lines.rt`.
#![tactic(auto)]

mod entries;
pub mod laws;
mod lines;
mod link;
mod question;
mod top;
mod uncovered;

pub use link::covers;
pub use top::cover;
pub use uncovered::Uncovered;
