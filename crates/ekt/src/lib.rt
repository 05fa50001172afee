// The EKT tag at the end of a media packet (RFC 8870, section 4.1).
#![tactic(auto)]

mod parts;
mod splitting;

pub use parts::{ciphertext, ciphertext_bounds, data_bounds, extension_data, front, front_bounds};
pub use splitting::{Tag, split};
