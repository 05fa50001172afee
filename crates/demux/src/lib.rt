// The kind of a packet by its first octet (RFC 7983, section 7).
#![tactic(auto)]

mod sorting;

pub use sorting::{Kind, sort};
