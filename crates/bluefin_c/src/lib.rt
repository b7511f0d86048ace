// The link for hosts in C and Rust: `rt lib bluefin_c` makes an archive of these calls on numbers and slices. Those over lent ack records are crates/bluefin_ring_c.
// Each is a thin caller of the proved call; its answer, a `Result` or a struct there, goes out as a struct of crates/flat, which a host declares in the same order.
// Proved: each answer and all lent memory are those of the definition that the proved call's promise cites, written flat by crates/flat.
#![tactic(auto)]

mod acked;
mod buffer;
mod closing;
mod datagrams;
mod headers;
mod hello;
mod kept;
mod packets;
mod sending;
mod waiting;
