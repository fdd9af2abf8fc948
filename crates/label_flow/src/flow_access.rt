//! Access. Where each hop but the last puts a packet's label into an option, and every two neighbouring nodes give the numbers on the wire one
//! meaning, a packet that is delivered has a label that means what it meant where its flow began, and the receiver's level means at least
//! as much. This holds of the definitions, so of every walk under every order of publications and looks.
//! The options are those of FIPS 188 and RFC 5570. A hop of another kind gets the label that it judges under in `specs/Labels.antt`, and what it
//! puts on a packet in `specs/Kept.antt`.

pub mod laws;
