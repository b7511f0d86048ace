// The queue of acks for hosts in C and Rust: `rt lib bluefin_ring_c` makes the second archive, of the calls over lent ack records. Those of the first are crates/bluefin_c.
// Proved: each answer and all lent memory are those of the definition that the proved call's promise cites, written flat by crates/flat.
#![tactic(auto)]

mod ring;
