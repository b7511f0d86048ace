// Answers for hosts in C and Rust: each answer of a proved call, a `Result` or a struct there, as a struct of numbers side by side that C can declare.
// Internal to this library: crates/bluefin_c and crates/bluefin_ring_c hand them out.
// Proved: each conversion is the one of specs/, on what the answer says in document 01's terms.
#![tactic(auto)]

pub mod acked;
pub mod buffer;
pub mod closing;
pub mod datagrams;
pub mod headers;
pub mod kept;
pub mod packets;
pub mod ring;
pub mod sending;
pub mod waiting;
